// The kind of belief that keeps boxes: at most 64 boxes of sheets, each sheet of a box with the same weight. A question is
// asked of the pieces into which its steps cut the boxes, never of the sheets, so the cost goes by the pieces. The crate
// promises every function of a belief in terms of the weights of all sheets, that fresh boxes and leaned and revised sound
// ones are sound, and which questions are carried. It rests on the question language, the trait of beliefs, and the
// mathematics of boxes in crate ranges.
#![tactic(auto)]

ghost use Rattle.boxes.specs.Laws.{Hold, cases, Combined, Sorts, OneAnswer, Soundness};

mod cuts;
mod holding;
mod lists;
mod measures;
mod sums;
mod takers;
mod taking;

pub use holding::Boxes;

// The worked cases. The number is there to be printed, so that a program shows that it was called.
pub fn cases_stand() -> u8
    ensures { Hold cases }
{
    0
}

// The laws of the definitions, with a number to be printed.
pub fn laws_stand() -> u8
    ensures combined { Combined }
    ensures sorts { Sorts }
    ensures answers { OneAnswer }
    ensures sound { Soundness }
{
    0
}
