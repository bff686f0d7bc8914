// Boxes as a kind of belief.
ghost use Rattle.boxes.specs.Holding.{meaning};
ghost use Rattle.boxes.specs.Holding;
ghost use Rattle.boxes.specs.Meanings;
ghost use Rattle.boxes.specs.Returns.{parts};

use crate::holding::Boxes;
use crate::sums::{peak_of, total_of, volumes_of, weight_of};
use crate::takers::Wanted;
use belief::Belief;
use question::Question;
use refusal::Refusal;

impl Belief for Boxes {
    const LETTER: u8 = b'B';

    ghost LETTER = { 66 };

    ghost means = { meaning };

    ghost laws = { λ b e. Meanings.boxes_laws b.span.first b.span.count b.span.tops (Holding.held b) b.four (parts b e) };

    fn sound(&self) -> bool {
        self.span.is_good() & self.is_boxed()
    }

    fn first(&self) -> u8 {
        self.span.first
    }

    fn count(&self) -> u8 {
        self.span.count
    }

    fn tops(&self) -> [u8; 4] {
        self.span.tops
    }

    fn total(&self) -> u64 {
        total_of(self.held())
    }

    fn peak(&self) -> u64 {
        peak_of(self.held())
    }

    fn whole(&self) -> bool {
        volumes_of(self.held()) == self.sheets()
    }

    fn weight(&self, sheet: [u8; 4]) -> u64 {
        weight_of(self.held(), self.span.only(sheet))
    }

    fn carries(&self, question: &[u8]) -> Result<bool, Refusal> {
        let question = Question::read(question)?;
        let wanted = Wanted {
            question,
            answer: 0,
        };
        Ok(self.tally(wanted).is_some())
    }

    fn mass(&self, question: &[u8], answer: u8) -> Result<u64, Refusal> {
        let tally = self.asked(question, answer)?;
        Ok(tally.mass)
    }

    fn heaviest(&self, question: &[u8], answer: u8) -> Result<u64, Refusal> {
        let tally = self.asked(question, answer)?;
        Ok(tally.heaviest)
    }

    fn revise(&mut self, question: &[u8], answer: u8) -> Result<(), Refusal> {
        let question = Question::read(question)?;
        let wanted = Wanted { question, answer };
        // not by `ok_or`, with which each answer of the proof takes the tally out of its `Option` again
        let Some(tally) = self.tally(wanted) else {
            return Err(Refusal::NotCarried);
        };
        if tally.mass == 0 {
            return Err(Refusal::NoMass);
        }
        self.kept = self.sifted(wanted);
        Ok(())
    }
}
