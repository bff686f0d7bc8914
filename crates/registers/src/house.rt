ghost use Rattle.std.proofs.Common.{rules};

use register::Coded;

// A house, by its city.
#[derive(Clone, Copy)]
pub struct House {
    pub city: u8,
    pub code: u16,
}

// By hand, as each kind's: an impl that a macro of the repository writes is refused.
impl Coded for House {
    ghost key = { λ h. h.code };

    ghost recoded = { λ c h. record h { code = c } };

    ghost under = { Prim.search rules };

    ghost own = { Prim.search rules };

    ghost last = { Prim.search rules };

    fn code(&self) -> u16 {
        self.code
    }

    fn set_code(&mut self, code: u16) {
        self.code = code;
    }
}
