// Two beliefs side by side, the right one beginning at the field after the left one's last.
#[derive(Clone, Copy)]
pub struct Pair<L, R> {
    pub(crate) left: L,
    pub(crate) right: R,
}

// The side that a question is asked of.
#[derive(Clone, Copy)]
pub(crate) enum Side {
    Left,
    Right,
}
