// A table as a belief.
ghost use Rattle.std.specs.Prelude.{◌≡◌, nat_le};
ghost use Rattle.table.specs.Tables.{meaning};
ghost use Rattle.table.specs.Soundness.{table_laws};

use crate::held::Table;
use crate::places::{fits_in, place_of};
use belief::{Belief, good_total};
use question::Question;
use refusal::Refusal;

impl Belief for Table {
    const LETTER: u8 = b'T';

    ghost LETTER = { 84 };

    ghost means = { meaning };

    ghost laws = { λ b e. table_laws b.span.first b.span.count b.span.tops b.weights b.four e };

    fn sound(&self) -> bool {
        self.is_shaped() && good_total(self.sum())
    }

    fn first(&self) -> u8 {
        self.span.first
    }

    fn count(&self) -> u8 {
        self.span.count
    }

    fn tops(&self) -> [u8; 4] {
        self.span.tops
    }

    fn total(&self) -> u64 {
        self.sum()
    }

    fn peak(&self) -> u64 {
        let held = self.held();
        held.iter().map(|w| u64::from(*w)).max().unwrap_or(0)
    }

    fn whole(&self) -> bool {
        self.held().iter().all(|w| 1 <= *w)
    }

    fn weight(&self, sheet: [u8; 4]) -> u64 {
        let own = self.span.only(sheet);
        if !fits_in(self.span.tops, own) {
            return 0;
        }
        match self.weights.get(place_of(self.span.tops, own)) {
            Some(weight) => u64::from(*weight),
            None => 0,
        }
    }

    fn carries(&self, question: &[u8]) -> Result<bool, Refusal> {
        let question = Question::read(question)?;
        Ok(question.reads_in(self.span.first, self.span.count))
    }

    fn mass(&self, question: &[u8], answer: u8) -> Result<u64, Refusal> {
        let question = self.carried(question)?;
        Ok(self.mass_of(&question, answer))
    }

    fn heaviest(&self, question: &[u8], answer: u8) -> Result<u64, Refusal> {
        let question = self.carried(question)?;
        Ok(self.heaviest_of(&question, answer))
    }

    fn revise(&mut self, question: &[u8], answer: u8) -> Result<(), Refusal> {
        let question = self.carried(question)?;
        if self.mass_of(&question, answer) == 0 {
            return Err(Refusal::NoMass);
        }
        self.keep(&question, answer);
        Ok(())
    }
}
