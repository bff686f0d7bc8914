// How steps cut boxes, and to whom the pieces go.
ghost use Rattle.std.specs.Prelude.{◌≡◌, ◌<◌, true, fold, slice_set};
ghost use Rattle.ranges.specs.Pieces.{cuts_side, cuts, cut, cut_all};
ghost use Rattle.ranges.specs.Changes.{edges};

use crate::taking::Taker;
use question::Step;
use ranges::{Side, WeightedBox};

// Whether a side is cut between v - 1 and v.
fn cuts_side(x: Side, v: u16) -> bool
    ensures is { result ≡ cuts_side x v }
    ensures small { result ≡ true → (0 < v) × (v < 256) }
{
    u16::from(x.low) < v && v <= u16::from(x.high)
}

// Whether side k of a box is cut between v - 1 and v.
fn is_cut(sides: [Side; 4], k: usize, v: u16) -> bool
    ensures is { result ≡ cuts sides k v }
    ensures small { result ≡ true → (0 < v) × (v < 256) × (k < 4) }
{
    if k >= 4 {
        return false;
    }
    cuts_side(sides[k], v)
}

// A box with another side k.
fn with_side(b: WeightedBox, k: usize, x: Side) -> WeightedBox
    requires { k < 4 }
    ensures { result ≡ record { sides = slice_set b.sides k x; weight = b.weight } }
{
    let mut part = b;
    part.sides[k] = x;
    part
}

// Hands on the pieces of a box under some steps.
fn hand_pieces<T: Taker>(steps: &[Step], b: WeightedBox, out: &mut T)
    ensures { out.new ≡ fold T.taken out.old (cut steps.now b) }
{
    let [step, rest @ ..] = steps else {
        out.take(b);
        return;
    };
    let k = usize::from(step.field);
    if is_cut(b.sides, k, step.bound) {
        // Kept as a cast: a bound that cuts a side fits a byte, and u8::try_from would bring a case that cannot come.
        let v = step.bound as u8;
        let x = b.sides[k];
        hand_pieces(rest, with_side(b, k, Side { high: v - 1, ..x }), out);
        hand_pieces(rest, with_side(b, k, Side { low: v, ..x }), out);
    } else {
        hand_pieces(rest, b, out);
    }
}

// Hands on the pieces of all boxes under some steps.
pub(crate) fn hand_all<T: Taker>(steps: &[Step], boxes: &[WeightedBox], out: &mut T)
    ensures { out.new ≡ fold T.taken out.old (cut_all steps.now boxes.now) }
{
    for b in boxes {
        hand_pieces(steps, *b, out);
    }
}

// The edges of a box as steps.
pub(crate) fn edges_of(sides: [Side; 4]) -> [Step; 8]
    ensures { result ≡ edges 0 sides }
{
    let [x, y, z, w] = sides;
    [
        edge(0, u16::from(x.low)),
        edge(0, u16::from(x.high) + 1),
        edge(1, u16::from(y.low)),
        edge(1, u16::from(y.high) + 1),
        edge(2, u16::from(z.low)),
        edge(2, u16::from(z.high) + 1),
        edge(3, u16::from(w.low)),
        edge(3, u16::from(w.high) + 1),
    ]
}

// A step at an edge of side k.
fn edge(k: u8, bound: u16) -> Step
    ensures { result ≡ record { field = k; bound = bound } }
{
    Step { field: k, bound }
}
