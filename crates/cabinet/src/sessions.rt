ghost use Rattle.std.specs.Prelude.{◌≡◌, ℕ, List, [], length, drop, IfErr, MatchResult};
ghost use Rattle.refusal.specs.Replies.{reply};
ghost use Rattle.history.specs.Events.{Setting, Past};
ghost use Rattle.cabinet.specs.Memory.{understood, state, Lent};
ghost use Rattle.cabinet.specs.Calls.{making};
ghost use Rattle.cabinet.specs.Standing.{Stands};
ghost use Rattle.cabinet.specs.Sessions.{outcome, event, events, left, freed, Turns, Served};

use crate::cabinets::Cabinet;
use crate::folders::Folder;
use crate::requests::{Call, Return};
use belief::Belief;
use refusal::Refusal;
use register::Register;

// Makes a cabinet and a register of folders that are all free, makes the calls in their order, as far as there is a place
// for the return of each, and gives the cabinet back; 1 or 2, and then all memory is as it was. Calls and returns are two lists, since
// the one is read and the other written.
pub fn session<B: Belief>(
    count: u8,
    tops: [u8; 4],
    sheet: [u8; 4],
    folders: &mut [Folder<B>],
    audit: &mut [u8],
    calls: &[Call<'_, B>],
    returns: &mut [Return],
) -> Result<Cabinet, Refusal>
    ensures result { outcome (reply result) ≡ outcome (making count tops sheet) }
    ensures served { MatchResult result
        (λ c. Served (record { count = count; tops = tops; places = length folders.old; room = length audit.old }) sheet audit.old
        (events B.means B.LETTER calls.now returns.new [])
        (understood B.means (state (record { sheet = sheet; count = count; tops = tops; used = 0 }) (freed folders.old) audit.old))
        (understood B.means (state c folders.new audit.new)))
        (λ _. Unit {0}) }
    ensures others { drop (length calls.now) returns.new ≡ drop (length calls.now) returns.old }
    ensures refused { IfErr result (λ _.
        (folders.new ≡ folders.old) × (audit.new ≡ audit.old) × (returns.new ≡ returns.old)) }
{
    let mut cabinet = Cabinet::make(count, tops, sheet)?;
    let mut register = Register::new(folders);
    cabinet.run(&mut register, audit, calls, returns);
    Ok(cabinet)
}

impl Cabinet {
    // How many bytes of the audit the calls have written.
    pub fn used(&self) -> usize
        ensures { result ≡ self.now.used }
    {
        self.used
    }

    // Makes the calls in their order, as far as there is a place for the return of each.
    fn run<B: Belief>(
        &mut self,
        register: &mut Register<'_, Folder<B>>,
        audit: &mut [u8],
        calls: &[Call<'_, B>],
        returns: &mut [Return],
    )
        ensures stands { (w : Setting) (x before : List ℕ) (past : Past) →
            Stands w x before past (understood B.means (state self.old register.old.entries.now audit.old)) →
            Stands w x before (events B.means B.LETTER calls.now returns.new past)
            (understood B.means (state self.new register.new.entries.now audit.new)) }
        ensures memory { understood B.means (state self.new register.new.entries.now audit.new)
            ≡ left (understood B.means (state self.old register.old.entries.now audit.old))
            (events B.means B.LETTER calls.now returns.new []) }
        ensures others { drop (length calls.now) returns.new ≡ drop (length calls.now) returns.old }
        ensures lent { Lent register.old.entries register.new.entries }
    {
        // by index: of what is written through a zip with `iter_mut` a proof knows nothing afterwards
        for i in 0..calls.len().min(returns.len()) {
            returns[i] = self.call(register, audit, &calls[i]);
        }
    }

    // Makes one call.
    fn call<B: Belief>(
        &mut self,
        register: &mut Register<'_, Folder<B>>,
        audit: &mut [u8],
        call: &Call<'_, B>,
    ) -> Return
        ensures turns { Turns (understood B.means (state self.old register.old.entries.now audit.old))
            (event B.means B.LETTER call.now result)
            (understood B.means (state self.new register.new.entries.now audit.new)) }
        ensures lent { Lent register.old.entries register.new.entries }
    {
        match call {
            Call::Enrol(folder) => Return::Enrolled(self.enrol(register, audit, *folder)),
            Call::Ask { code, question } => Return::Asked(self.ask(
                register, audit, *code, question,
            )),
            Call::Look { code } => Return::Looked(self.look(register, *code)),
        }
    }
}
