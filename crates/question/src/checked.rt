// Bytes that are a question, held so that they are read once and used many times.
ghost use Rattle.std.specs.Prelude.{◌≡◌, ◌≤◌, true, take};
ghost use Rattle.question.specs.Expressions.{longest};
ghost use Rattle.question.specs.Questions.{is_question};

use crate::LONGEST;

mod calls;

// Its bytes are its own, in a fixed array with their number beside: no memory is asked for, and a question is copied as a value.
#[derive(Clone, Copy)]
pub struct Question {
    bytes: [u8; LONGEST],
    len: usize,
    ghost fits: { len ≤ longest },
    ghost asked: { is_question (take len bytes) ≡ true },
}
