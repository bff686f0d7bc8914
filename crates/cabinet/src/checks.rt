ghost use Rattle.std.specs.Prelude.{◌≡◌, ◌-◌, length, MatchResult, nat_lt};
ghost use Rattle.history.specs.Judging.{fitting};
ghost use Rattle.cabinet.specs.Inner.{Found, Missing};

use crate::cabinets::Cabinet;
use crate::folders::Folder;
use belief::Belief;
use refusal::Refusal;
use register::Register;

impl Cabinet {
    // Whether a belief is sound and about the cabinet's fields.
    pub(crate) fn fits<B: Belief>(&self, belief: &B) -> bool
        ensures { result ≡ fitting self.now.count self.now.tops (B.means belief.now) }
    {
        belief.sound()
            && belief.first() == 0
            && belief.count() == self.count
            && belief.tops() == self.tops
    }

    // The place of the folder of a code, if its belief fits the cabinet.
    pub(crate) fn known<B: Belief>(
        &self,
        register: &Register<'_, Folder<B>>,
        code: u16,
    ) -> Result<usize, Refusal>
        ensures { MatchResult result (Found B.means self.now register.now.entries.now code)
            (Missing B.means self.now register.now.entries.now code) }
    {
        // not by `ok_or`, with which the three proofs that read this get longer
        let Some(at) = register.place(code) else {
            return Err(Refusal::Code);
        };
        // the slice is taken whole, since the proof can't follow a part lent through the `&mut` behind this `&`
        let folders = &*register.entries;
        if !self.fits(&folders[at].belief) {
            return Err(Refusal::Unfit);
        }
        Ok(at)
    }

    // Whether the audit has fewer free bytes than are needed.
    pub(crate) fn short(&self, audit: &[u8], need: usize) -> bool
        ensures { result ≡ nat_lt (length audit.now - self.now.used) need }
    {
        audit.len().saturating_sub(self.used) < need
    }
}
