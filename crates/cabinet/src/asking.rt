ghost use Rattle.std.specs.Prelude.{◌≡◌, ℕ, true, List};
ghost use Rattle.refusal.specs.Replies.{reply, number_of};
ghost use Rattle.history.specs.Events.{asks};
ghost use Rattle.audit.specs.Format.{declines};
ghost use Rattle.cabinet.specs.Memory.{meant, understood, state, Lent};
ghost use Rattle.cabinet.specs.Calls.{answering, asking, after_asking, Others};
ghost use Rattle.cabinet.specs.Inner.{Ready};
ghost use Rattle.cabinet.specs.Standing.{GoesOn};
ghost use Rattle.cabinet.specs.declared.folders.Folder.{Folder};

use crate::cabinets::Cabinet;
use crate::folders::Folder;
use crate::judging::judge;
use audit::{Entry, HEAD};
use belief::Belief;
use question::Question;
use refusal::Refusal;
use register::Register;

impl Cabinet {
    // Answers a question, if the restorer with the code may hear the answer.
    pub fn ask<B: Belief>(
        &mut self,
        register: &mut Register<'_, Folder<B>>,
        audit: &mut [u8],
        code: u16,
        question: &[u8],
    ) -> Result<u8, Refusal>
        ensures result { reply result ≡ asking (understood B.means (state self.old register.old.entries.now audit.old)) code question.now }
        ensures memory { understood B.means (state self.new register.new.entries.now audit.new)
            ≡ after_asking (understood B.means (state self.old register.old.entries.now audit.old)) code question.now (reply result) }
        ensures others { Others code (reply result) register.old.entries.now register.new.entries.now }
        ensures lent { Lent register.old.entries register.new.entries }
        ensures runs { GoesOn (understood B.means (state self.old register.old.entries.now audit.old))
            (asks code question.now (reply result))
            (understood B.means (state self.new register.new.entries.now audit.new)) }
    {
        let at = self.known(register, code)?;
        match self.weigh(&register.entries[at], audit, question) {
            Ok(answer) => {
                register.entries[at].belief.revise(question, answer)?;
                self.write(
                    audit,
                    &Entry::Answered {
                        code,
                        answer,
                        question,
                        place: self.used + HEAD,
                    },
                );
                Ok(answer)
            }
            Err(refusal) => {
                if is_written(refusal) {
                    self.write(
                        audit,
                        &Entry::Refused {
                            code,
                            number: refusal.number(),
                            question,
                            place: self.used + HEAD,
                        },
                    );
                }
                Err(refusal)
            }
        }
    }

    // The sheet's answer to a question of a folder, if it may be heard.
    #[tactic(auto, using(question::proofs::Questions::answers_small))]
    fn weigh<B: Belief>(
        &self,
        folder: &Folder<B>,
        audit: &[u8],
        question: &[u8],
    ) -> Result<u8, Refusal>
        requires { (B.means folder.now.belief).sound ≡ true }
        ensures result { (fs : List (Folder B)) (code : ℕ) → reply result ≡ answering (understood B.means (state self.now fs audit.now)) code question.now (meant B.means folder.now) }
        ensures ready { Ready self.now audit.now question.now (meant B.means folder.now) (reply result) }
    {
        let answer = Question::read(question)?.answer(self.sheet);
        if self.short(audit, HEAD + question.len()) {
            return Err(Refusal::Short);
        }
        judge(folder, question, answer)
    }
}

// Whether a refusal is written into the audit; told by the refusals themselves, where the audit's own test is one of numbers.
fn is_written(refusal: Refusal) -> bool
    ensures { result ≡ declines (number_of refusal) }
{
    matches!(refusal, Refusal::NotCarried | Refusal::TooTelling)
}
