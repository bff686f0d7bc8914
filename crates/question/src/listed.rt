// The steps of a question, held in place: a step takes six bytes, so a question has few.
ghost use Rattle.std.specs.Prelude.{◌≤◌};
ghost use Rattle.question.specs.Steps.{most_steps};

use crate::LONGEST;
use crate::steps::Step;

mod calls;

// The bytes of a step.
pub(crate) const STEP_BYTES: usize = 6;

// The most steps that a question has.
pub(crate) const MOST_STEPS: usize = LONGEST / STEP_BYTES;

// A fixed array with their number beside, as a question has for its bytes: no memory is asked for, and the steps are copied as a
// value. The two are not one struct over any item, since such a struct may hold no array of its items.
#[derive(Clone, Copy)]
pub struct Steps {
    list: [Step; MOST_STEPS],
    len: usize,
    ghost fits: { len ≤ most_steps },
}
