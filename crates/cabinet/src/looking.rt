ghost use Rattle.std.specs.Prelude.{◌≡◌, ℕ, List, map};
ghost use Rattle.refusal.specs.Replies.{reply, mapped};
ghost use Rattle.history.specs.Events.{looks};
ghost use Rattle.cabinet.specs.Memory.{meant, understood, state};
ghost use Rattle.cabinet.specs.Calls.{looking};
ghost use Rattle.cabinet.specs.Standing.{GoesOn, viewed};

use crate::cabinets::Cabinet;
use crate::folders::Folder;
use crate::views::View;
use belief::Belief;
use refusal::Refusal;
use register::Register;

impl Cabinet {
    // What the folder of a code holds.
    pub fn look<B: Belief>(
        &self,
        register: &Register<'_, Folder<B>>,
        code: u16,
    ) -> Result<View, Refusal>
        ensures result { reply result ≡ looking self.now (map (meant B.means) register.now.entries.now) code }
        ensures memory { register.exit.now.entries.now ≡ register.entry.now.entries.now }
        ensures runs { (audit : List ℕ) → GoesOn (understood B.means (state self.now register.now.entries.now audit))
            (looks code (mapped viewed (reply result))) (understood B.means (state self.now register.exit.now.entries.now audit)) }
    {
        let at = self.known(register, code)?;
        // the slice is taken whole, since the proof can't follow a part lent through the `&mut` behind this `&`
        let folders = &*register.entries;
        let folder = &folders[at];
        Ok(View {
            total: folder.belief.total(),
            peak: folder.belief.peak(),
            threshold: folder.threshold,
        })
    }
}
