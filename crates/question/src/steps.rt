// A step: field `field` is less than `bound`.
#[derive(Clone, Copy)]
pub struct Step {
    pub field: u8,
    pub bound: u16,
}
