// The values that a box has in one field: from the lowest to the highest.
#[derive(Clone, Copy)]
pub struct Side {
    pub low: u8,
    pub high: u8,
}

// A box: a side for each field, and the weight of each sheet inside.
#[derive(Clone, Copy)]
pub struct WeightedBox {
    pub sides: [Side; 4],
    pub weight: u64,
}
