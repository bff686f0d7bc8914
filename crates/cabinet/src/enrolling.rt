ghost use Rattle.std.specs.Prelude.{◌≡◌, IfOk};
ghost use Rattle.refusal.specs.Replies.{reply};
ghost use Rattle.history.specs.Events.{enrols};
ghost use Rattle.cabinet.specs.Memory.{meant, understood, state, Lent};
ghost use Rattle.cabinet.specs.Calls.{enrolling, after_enrolling};
ghost use Rattle.cabinet.specs.Inner.{Free};
ghost use Rattle.cabinet.specs.Standing.{GoesOn, offering};

use crate::cabinets::Cabinet;
use crate::folders::Folder;
use audit::{ENROLMENT, Entry};
use belief::Belief;
use refusal::Refusal;
use register::Register;

impl Cabinet {
    // Enrols a restorer in the first free place, which is returned.
    #[tactic(auto, using(crate::proofs::Places::set_changed))]
    pub fn enrol<B: Belief>(
        &mut self,
        register: &mut Register<'_, Folder<B>>,
        audit: &mut [u8],
        folder: Folder<B>,
    ) -> Result<usize, Refusal>
        ensures result { reply result ≡ enrolling (understood B.means (state self.old register.old.entries.now audit.old)) B.LETTER (meant B.means folder) }
        ensures memory { state self.new register.new.entries.now audit.new
            ≡ after_enrolling (state self.old register.old.entries.now audit.old) B.LETTER folder (reply result) }
        ensures lent { Lent register.old.entries register.new.entries }
        ensures runs { GoesOn (understood B.means (state self.old register.old.entries.now audit.old))
            (enrols (offering B.LETTER (meant B.means folder)) (reply result))
            (understood B.means (state self.new register.new.entries.now audit.new)) }
    {
        let at = self.admit(register, audit, &folder)?;
        self.write(
            audit,
            &Entry::Enrolled {
                code: folder.code,
                n: folder.threshold.n,
                d: folder.threshold.d,
                kind: B::LETTER,
            },
        );
        register.put(at, folder);
        Ok(at)
    }

    // The place that a folder would get, if it may be enrolled.
    #[tactic(auto, using(crate::proofs::Places::coded_is, crate::proofs::Places::first_is))]
    fn admit<B: Belief>(
        &self,
        register: &Register<'_, Folder<B>>,
        audit: &[u8],
        folder: &Folder<B>,
    ) -> Result<usize, Refusal>
        ensures result { reply result ≡ enrolling (understood B.means (state self.now register.now.entries.now audit.now)) B.LETTER (meant B.means folder.now) }
        ensures free { IfOk result (Free self.now register.now.entries.now audit.now) }
    {
        let Folder {
            code,
            threshold,
            belief,
        } = folder;
        if !threshold.is_sound() {
            return Err(Refusal::Amount);
        }
        if *code == 0 || register.place(*code).is_some() {
            return Err(Refusal::Code);
        }
        let at = register.free_place().ok_or(Refusal::Full)?;
        if !self.fits(belief) {
            return Err(Refusal::Unfit);
        }
        if self.short(audit, ENROLMENT) {
            return Err(Refusal::Short);
        }
        if !belief.whole() {
            return Err(Refusal::NoMass);
        }
        if threshold.is_exceeded_by(belief.peak(), belief.total()) {
            return Err(Refusal::TooTelling);
        }
        Ok(at)
    }
}
