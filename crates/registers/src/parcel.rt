ghost use Rattle.std.proofs.Common.{rules};

use register::Coded;

// A parcel of whatever it holds.
#[derive(Clone, Copy)]
pub struct Parcel<T> {
    pub code: u16,
    pub holds: T,
}

// By hand, as each kind's: an impl that a macro of the repository writes is refused.
impl<T: Copy> Coded for Parcel<T> {
    ghost key = { λ p. p.code };

    ghost recoded = { λ c p. record p { code = c } };

    ghost under = { Prim.search rules };

    ghost own = { Prim.search rules };

    ghost last = { Prim.search rules };

    fn code(&self) -> u16 {
        self.code
    }

    fn set_code(&mut self, code: u16) {
        self.code = code;
    }
}
