// Steps as they are gathered and looked at.
ghost use Rattle.std.specs.Prelude.{◌≡◌, ◌+◌, ◌<◌, [], ◌∷◌, ◌++◌};
ghost use Rattle.question.specs.Steps.{most_steps};
ghost use Rattle.question.specs.Texts.{taken};

use crate::listed::{MOST_STEPS, Steps};
use crate::steps::Step;

impl Steps {
    // The steps, from the question's first byte to its last.
    pub fn as_slice(&self) -> &[Step]
        ensures { result.now ≡ taken self.now }
    {
        &self.list[..self.len]
    }

    // No steps.
    pub(crate) fn none() -> Steps
        ensures len { result.len ≡ 0 }
        ensures steps { taken result ≡ [] }
    {
        Steps {
            list: [Step { field: 0, bound: 0 }; MOST_STEPS],
            len: 0,
        }
    }

    // These and one more.
    pub(crate) fn with(self, step: Step) -> Steps
        requires { self.len < most_steps }
        ensures len { result.len ≡ self.len + 1 }
        ensures steps { taken result ≡ taken self ++ step ∷ [] }
    {
        let mut list = self.list;
        list[self.len] = step;
        Steps {
            list,
            len: self.len + 1,
        }
    }
}
