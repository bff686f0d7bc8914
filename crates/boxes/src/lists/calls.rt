// Boxes put one after another.
ghost use Rattle.std.specs.Prelude.{◌≡◌, nat_le};
ghost use Rattle.boxes.specs.Holding.{most_boxes};
ghost use Rattle.boxes.specs.Takers.{put};

use crate::lists::{BoxList, MOST_BOXES};
use ranges::{Side, WeightedBox};

const NO_SIDE: Side = Side { low: 0, high: 0 };

const NO_BOX: WeightedBox = WeightedBox {
    sides: [NO_SIDE; 4],
    weight: 0,
};

// Whether so many boxes may be kept.
pub(crate) fn may_keep(n: usize) -> bool
    ensures { result ≡ nat_le n most_boxes }
{
    n <= MOST_BOXES
}

impl BoxList {
    // No boxes.
    pub(crate) fn none() -> BoxList
        ensures { result.len ≡ 0 }
    {
        BoxList {
            boxes: [NO_BOX; MOST_BOXES],
            len: 0,
        }
    }

    // One box more; past the last place it is only counted.
    pub(crate) fn push(&mut self, b: WeightedBox)
        ensures { self.new ≡ put self.old b }
    {
        if self.len < MOST_BOXES {
            self.boxes[self.len] = b;
        }
        self.len = self.len.saturating_add(1);
    }
}
