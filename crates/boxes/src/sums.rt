// What many boxes come to.
ghost use Rattle.std.specs.Prelude.{◌≡◌, true};
ghost use Rattle.ranges.specs.Boxes.{weight_at, volume_in, total_in, peak_in, fit_all, apart_all, disjoint};
ghost use Rattle.boxes.specs.Takers.{capped};

use crate::measures::{box_fits, boxes_apart, is_inside, mass_of, volume_of};
use ranges::{Side, WeightedBox};

// What all boxes weigh together, as far as 64 bits hold it.
pub(crate) fn total_of(boxes: &[WeightedBox]) -> u64
    ensures { result ≡ capped (total_in boxes.now) }
{
    boxes
        .iter()
        .map(|b| mass_of(*b))
        .fold(0, u64::saturating_add)
}

// How many sheets lie in boxes, as far as 64 bits hold it.
pub(crate) fn volumes_of(boxes: &[WeightedBox]) -> u64
    ensures { result ≡ capped (volume_in boxes.now) }
{
    boxes
        .iter()
        .map(|b| volume_of(b.sides))
        .fold(0, u64::saturating_add)
}

// The greatest weight.
pub(crate) fn peak_of(boxes: &[WeightedBox]) -> u64
    ensures { result ≡ peak_in boxes.now }
{
    boxes.iter().map(|b| b.weight).max().unwrap_or(0)
}

// The weight of a sheet: that of the first box in which it lies.
pub(crate) fn weight_of(boxes: &[WeightedBox], sheet: [u8; 4]) -> u64
    ensures { disjoint boxes.now ≡ true → result ≡ weight_at boxes.now sheet }
{
    boxes
        .iter()
        .find(|b| is_inside(b.sides, sheet))
        .map_or(0, |b| b.weight)
}

// Whether every box fits the tops and weighs at least 1.
pub(crate) fn all_fit(tops: [u8; 4], boxes: &[WeightedBox]) -> bool
    ensures { result ≡ fit_all tops boxes.now }
{
    boxes
        .iter()
        .all(|b| box_fits(tops, b.sides) && 1 <= b.weight)
}

// Whether a box is apart from all others.
fn apart_from(sides: [Side; 4], boxes: &[WeightedBox]) -> bool
    ensures { result ≡ apart_all sides boxes.now }
{
    boxes.iter().all(|b| boxes_apart(sides, b.sides))
}

// Whether every two boxes are apart.
pub(crate) fn all_apart(boxes: &[WeightedBox]) -> bool
    ensures { result ≡ disjoint boxes.now }
{
    match boxes {
        [] => true,
        [b, rest @ ..] => apart_from(b.sides, rest) && all_apart(rest),
    }
}
