use crate::thresholds::Threshold;

// What a look shows of a folder: the total and the greatest of the weights, and the threshold.
#[derive(Clone, Copy)]
pub struct View {
    pub total: u64,
    pub peak: u64,
    pub threshold: Threshold,
}
