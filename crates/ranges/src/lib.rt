// Boxes of sheets, how steps cut them into pieces, and what sums and maxima over all sheets come to by pieces. The crate has
// two types and no function: its definitions and lemmas are what a belief kept as boxes is stated and proved by. It rests
// on the steps of questions, and on the sums over sheets that a belief's meaning is made of.
#![tactic(auto)]

mod shapes;

pub use shapes::{Side, WeightedBox};
