ghost use Rattle.std.proofs.Common.{rules};

use crate::thresholds::Threshold;
use belief::Belief;
use register::Coded;

// A restorer's folder: his code, 0 where the folder is free, his threshold, and his belief.
#[derive(Clone, Copy)]
pub struct Folder<B> {
    pub code: u16,
    pub threshold: Threshold,
    pub belief: B,
}

// By hand, as each kind's: an impl that a macro of the repository writes is refused.
impl<B: Belief> Coded for Folder<B> {
    ghost key = { λ f. f.code };

    ghost recoded = { λ c f. record f { code = c } };

    ghost under = { Prim.search rules };

    ghost own = { Prim.search rules };

    ghost last = { Prim.search rules };

    fn code(&self) -> u16 {
        self.code
    }

    fn set_code(&mut self, code: u16) {
        self.code = code;
    }
}
