// The question language. A question is bytes that write an expression in prefix notation, at most LONGEST of them, with no
// bound in it past LIMIT. This crate reads any bytes as a question or says why and where they are none, and gives a
// question's bound, its value and its answer on a sheet, the fields that it reads, and its steps. It promises that each of
// these is what the grammar in specs/Expressions.antt says of the one expression that the bytes write, over the integers,
// and that a refusal and its place are those of specs/Laws.antt. It rests on the crate refusal. For the crates above it
// also tells which fields lie in a span, and fills an array from a list.
#![tactic(auto)]

mod checked;
mod listed;
mod padding;
mod spans;
mod steps;
mod walks;

pub use checked::Question;
pub use listed::Steps;
pub use padding::padded;
pub use spans::in_span;
pub use steps::Step;

// The greatest answer.
pub const GREATEST: u8 = 15;

// The most bytes that a question may have.
pub const LONGEST: usize = 64;

// The most that a command's bound may be.
pub const LIMIT: u64 = 1_000_000;

// How many fields a sheet has.
pub const FIELDS: u8 = 4;
