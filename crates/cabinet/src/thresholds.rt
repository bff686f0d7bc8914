ghost use Rattle.std.specs.Prelude.{◌≡◌};
ghost use Rattle.history.specs.Judging.{threshold, exceeds};

// A threshold n / d.
#[derive(Clone, Copy)]
pub struct Threshold {
    pub n: u16,
    pub d: u16,
}

impl Threshold {
    // Whether it is one: n is at least 1, and d at least n.
    pub(crate) fn is_sound(self) -> bool
        ensures { result ≡ threshold self.n self.d }
    {
        1 <= self.n && self.n <= self.d
    }

    // Whether a part of a whole is more than n / d of it.
    pub(crate) fn is_exceeded_by(self, part: u64, whole: u64) -> bool
        ensures { result ≡ exceeds self.n self.d part whole }
    {
        u128::from(part) * u128::from(self.d) > u128::from(self.n) * u128::from(whole)
    }
}
