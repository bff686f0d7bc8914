// What one box measures, and how it lies to a sheet, to tops and to another box.
// Kept as functions over bare sides: both types stand in crate ranges, which has no code, and the box leaned on has no weight.
ghost use Rattle.std.specs.Prelude.{◌≡◌, ◌*◌, ◌^◌, ◌≤◌};
ghost use Rattle.ranges.specs.Boxes.{inside, fits, width, volume, corner, entire, apart};
ghost use Rattle.boxes.specs.Takers.{capped};
ghost use Rattle.boxes.specs.Holding.{between};

use ranges::{Side, WeightedBox};

// How many values a side has.
fn width_of(x: Side) -> u64
    ensures is { result ≡ width x }
    ensures small { result ≤ 256 }
{
    (u64::from(x.high) + 1).saturating_sub(u64::from(x.low))
}

// How many sheets a box has.
pub(crate) fn volume_of(sides: [Side; 4]) -> u64
    ensures is { result ≡ volume sides }
    ensures small { result ≤ 2 ^ 32 }
{
    let [x, y, z, w] = sides;
    width_of(x) * (width_of(y) * (width_of(z) * width_of(w)))
}

// What the sheets of a box weigh together, as far as 64 bits hold it.
pub(crate) fn mass_of(b: WeightedBox) -> u64
    ensures { result ≡ capped (volume b.sides * b.weight) }
{
    volume_of(b.sides).saturating_mul(b.weight)
}

// The lowest sheet of a box.
pub(crate) fn corner_of(sides: [Side; 4]) -> [u8; 4]
    ensures { result ≡ corner sides }
{
    let [x, y, z, w] = sides;
    [x.low, y.low, z.low, w.low]
}

// Whether a sheet lies in a box.
pub(crate) fn is_inside(sides: [Side; 4], sheet: [u8; 4]) -> bool
    ensures { result ≡ inside sides sheet }
{
    sides
        .iter()
        .zip(&sheet)
        .all(|(x, v)| x.low <= *v && *v <= x.high)
}

// Whether a box is not empty and does not pass the tops.
pub(crate) fn box_fits(tops: [u8; 4], sides: [Side; 4]) -> bool
    ensures { result ≡ fits tops sides }
{
    tops.iter()
        .zip(&sides)
        .all(|(top, x)| x.low <= x.high && x.high <= *top)
}

// Whether two boxes have sides that are apart.
pub(crate) fn boxes_apart(left: [Side; 4], right: [Side; 4]) -> bool
    ensures { result ≡ apart left right }
{
    left.iter()
        .zip(&right)
        .any(|(x, y)| x.high < y.low || y.high < x.low)
}

// The box from a lowest to a highest value for each field.
pub(crate) fn sides_between(lowest: [u8; 4], highest: [u8; 4]) -> [Side; 4]
    ensures { result ≡ between lowest highest }
{
    let [a, b, c, d] = lowest;
    let [x, y, z, w] = highest;
    [
        Side { low: a, high: x },
        Side { low: b, high: y },
        Side { low: c, high: z },
        Side { low: d, high: w },
    ]
}

// The box of all sheets.
pub(crate) fn entire_of(tops: [u8; 4]) -> [Side; 4]
    ensures { result ≡ entire tops }
{
    sides_between([0; 4], tops)
}

// One box of all sheets, of weight 1.
pub(crate) fn single_of(tops: [u8; 4]) -> WeightedBox
    ensures { result ≡ record { sides = entire tops; weight = 1 } }
{
    let sides = entire_of(tops);
    WeightedBox { sides, weight: 1 }
}
