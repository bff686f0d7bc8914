// What is done with pieces: counted and weighed, sifted by their answer, pressed by a factor.
use crate::lists::BoxList;
use question::{GREATEST, Question};
use ranges::Side;

pub(crate) mod calls;

// How many answers there are; by a cast, since `From` makes no constant.
pub(crate) const ANSWERS: usize = GREATEST as usize + 1;

// A question, and the answer to it that is wanted.
#[derive(Clone, Copy)]
pub(crate) struct Wanted {
    pub(crate) question: Question,
    pub(crate) answer: u8,
}

// How many pieces give each answer (255 if more do), and what those that give the wanted answer weigh.
#[derive(Clone, Copy)]
pub(crate) struct Tally {
    pub(crate) wanted: Wanted,
    pub(crate) pieces: [u8; ANSWERS],
    pub(crate) mass: u64,
    pub(crate) heaviest: u64,
}

// The pieces that give the wanted answer.
#[derive(Clone, Copy)]
pub(crate) struct Sieve {
    pub(crate) wanted: Wanted,
    pub(crate) kept: BoxList,
}

// The pieces with the weight of those inside a box multiplied.
#[derive(Clone, Copy)]
pub(crate) struct Press {
    pub(crate) around: [Side; 4],
    pub(crate) factor: u64,
    pub(crate) kept: BoxList,
}
