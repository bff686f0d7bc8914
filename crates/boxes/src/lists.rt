// Boxes in place, one after another.
use ranges::WeightedBox;

pub(crate) mod calls;

// The most boxes that are kept.
pub(crate) const MOST_BOXES: usize = 64;

// Kept as fixed memory with a length: a belief is copied and uses no heap, and no list of the library is Copy.
#[derive(Clone, Copy)]
pub(crate) struct BoxList {
    pub(crate) boxes: [WeightedBox; MOST_BOXES],
    // How many there are; more than fit were only counted.
    pub(crate) len: usize,
}
