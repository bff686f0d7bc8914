// A pair as a belief.
ghost use Rattle.std.specs.Prelude.{◌≡◌, ◌*◌, min, true};
ghost use Rattle.refusal.specs.Replies.{reply, mapped};
ghost use Rattle.question.specs.Reading.{reading};
ghost use Rattle.question.specs.Texts.{text};
ghost use Rattle.pair.specs.Pairs.{paired, within, side_of};
ghost use Rattle.pair.specs.Folds.{parts};
ghost use Rattle.pair.specs.Soundness.{pair_laws};

use crate::joint::{Pair, Side};
use crate::making::{good_sides, is_light};
use belief::Belief;
use question::Question;
use refusal::Refusal;

impl<L: Belief, R: Belief> Belief for Pair<L, R> {
    const LETTER: u8 = b'P';

    ghost LETTER = { 80 };

    ghost means = { λ p. paired (L.Belief.means p.left) (R.Belief.means p.right) };

    ghost laws = { λ b e. pair_laws _ _ (parts (L.Belief.means b.left) (R.Belief.means b.right) (L.Belief.laws _) (R.Belief.laws _) e) };

    fn sound(&self) -> bool {
        good_sides(&self.left, &self.right) && is_light(&self.left, &self.right)
    }

    fn first(&self) -> u8 {
        self.left.first()
    }

    fn count(&self) -> u8 {
        self.left.count().saturating_add(self.right.count())
    }

    fn tops(&self) -> [u8; 4] {
        let [a, b, c, d] = self.left.tops();
        let [e, f, g, h] = self.right.tops();
        [
            a.saturating_add(e),
            b.saturating_add(f),
            c.saturating_add(g),
            d.saturating_add(h),
        ]
    }

    fn total(&self) -> u64 {
        product(self.left.total(), self.right.total())
    }

    fn peak(&self) -> u64 {
        product(self.left.peak(), self.right.peak())
    }

    fn whole(&self) -> bool {
        self.left.whole() & self.right.whole()
    }

    fn weight(&self, sheet: [u8; 4]) -> u64 {
        product(self.left.weight(sheet), self.right.weight(sheet))
    }

    fn carries(&self, question: &[u8]) -> Result<bool, Refusal> {
        match self.side_of(question)? {
            Some(Side::Left) => self.left.carries(question),
            Some(Side::Right) => self.right.carries(question),
            None => Ok(false),
        }
    }

    fn mass(&self, question: &[u8], answer: u8) -> Result<u64, Refusal> {
        match self.side_of(question)? {
            Some(Side::Left) => {
                let share = self.left.mass(question, answer)?;
                Ok(product(share, self.right.total()))
            }
            Some(Side::Right) => {
                let part = self.right.mass(question, answer)?;
                Ok(product(self.left.total(), part))
            }
            None => Err(Refusal::NotCarried),
        }
    }

    // Beside mass it differs in four calls: one function for both would take four closures.
    fn heaviest(&self, question: &[u8], answer: u8) -> Result<u64, Refusal> {
        match self.side_of(question)? {
            Some(Side::Left) => {
                let share = self.left.heaviest(question, answer)?;
                Ok(product(share, self.right.peak()))
            }
            Some(Side::Right) => {
                let part = self.right.heaviest(question, answer)?;
                Ok(product(self.left.peak(), part))
            }
            None => Err(Refusal::NotCarried),
        }
    }

    fn revise(&mut self, question: &[u8], answer: u8) -> Result<(), Refusal> {
        match self.side_of(question)? {
            Some(Side::Left) => self.left.revise(question, answer),
            Some(Side::Right) => self.right.revise(question, answer),
            None => Err(Refusal::NotCarried),
        }
    }
}

impl<L: Belief, R: Belief> Pair<L, R> {
    // The side whose fields are all that a question reads, the left one first; 9 or 10.
    fn side_of(&self, question: &[u8]) -> Result<Option<Side>, Refusal>
        ensures { (paired (L.Belief.means self.now.left) (R.Belief.means self.now.right)).sound ≡ true →
            reply result ≡ mapped (λ e. side_of (L.Belief.means self.now.left) (R.Belief.means self.now.right) question.now) (reading question.now) }
    {
        let question = Question::read(question)?;
        if reads_only(&self.left, &question) {
            return Ok(Some(Side::Left));
        }
        if reads_only(&self.right, &question) {
            return Ok(Some(Side::Right));
        }
        Ok(None)
    }
}

// The product of two weights or totals, which is exact where the pair is sound.
fn product(left: u64, right: u64) -> u64
    ensures { result ≡ min (left * right) 18446744073709551615 }
{
    left.saturating_mul(right)
}

// Whether all fields that a question reads are those of a sound belief.
fn reads_only<B: Belief>(belief: &B, question: &Question) -> bool
    ensures { (B.Belief.means belief.now).sound ≡ true → result ≡ within (B.Belief.means belief.now) (text question.now) }
{
    question.reads_in(belief.first(), belief.count())
}
