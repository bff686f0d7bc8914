use belief::Belief;
use refusal::Refusal;
use script::{LineError, Words};
use std::alloc::Global;
use std::fmt;

// A part of a belief.
#[derive(Clone, Copy)]
pub(crate) enum Part {
    Table,
    Boxes,
    Lean,
    Pair,
}

impl fmt::Display for Part {
    fn fmt<W: fmt::Write>(&self, f: &mut fmt::Formatter<W>) -> fmt::Result {
        f.write_str(match self {
            Part::Table => "table",
            Part::Boxes => "boxes",
            Part::Lean => "lean",
            Part::Pair => "pair",
        })
    }
}

// Why a belief could not be made, and at which part.
#[derive(Clone, Copy)]
pub(crate) struct Unmade {
    pub(crate) part: Part,
    pub(crate) refusal: Refusal,
}

impl fmt::Display for Unmade {
    fn fmt<W: fmt::Write>(&self, f: &mut fmt::Formatter<W>) -> fmt::Result {
        write!(f, "{} {}", self.part, self.refusal)
    }
}

// A kind of belief that a script can write out.
pub(crate) trait Noted: Belief + Default {
    // What the words say, before anything is made.
    type Plan: Drop;

    // Reads the words of a belief.
    fn plan(heap: Global, words: &mut Words<'_>) -> Result<Self::Plan, LineError>;

    // Makes what was read, the parts from left to right.
    fn made(plan: &Self::Plan) -> Result<Self, Unmade>;
}
