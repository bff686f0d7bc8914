// The walks over the weights of a table, and over its sheets. That a table is shaped is a premise here and no type: the empty one, of
// which memory is filled, is not. Question and answer come as the interface of beliefs has them, and are held once, in `Shares`.
ghost use Rattle.std.specs.Prelude.{◌≡◌, ◌^◌, ◌<◌, ◌≤◌, min, length, take, sum, if◌then◌else◌, nat_eq};
ghost use Rattle.refusal.specs.Replies.{reply, mapped};
ghost use Rattle.question.specs.Questions.{answers};
ghost use Rattle.question.specs.Texts.{text};
ghost use Rattle.belief.specs.Meaning.{kept, total_of, mass_of, heaviest_of};
ghost use Rattle.belief.specs.Calls.{replied};
ghost use Rattle.table.specs.Places.{in_order, size_of};
ghost use Rattle.table.specs.Tables.{shaped, meaning};
ghost use Rattle.std.specs.Iterator.{YieldsFirst, item_count};
ghost use Rattle.table.specs.Walks.{Shaped, Kept, first_sheet, shares_from, shares_left};

use crate::held::{PLACES, Table};
use crate::places::{next, size_of};
use question::Question;
use refusal::Refusal;

impl Table {
    // Whether span and tops are those of a table.
    pub(crate) fn is_shaped(&self) -> bool
        ensures { result ≡ shaped self.now.span.first self.now.span.count self.now.span.tops }
    {
        self.span.is_good() && size_of(self.span.tops) <= PLACES
    }

    // How many weights are looked at: one for each sheet, as far as there is room.
    fn places(&self) -> usize
        ensures { result ≡ min (size_of self.now.span.tops) 1024 }
    {
        size_of(self.span.tops).min(PLACES)
    }

    // The weights of the sheets.
    pub(crate) fn held(&self) -> &[u32]
        ensures are { result.now ≡ take (min (size_of self.now.span.tops) 1024) self.now.weights }
        ensures few { length result.now ≤ 1024 }
        ensures ordered { Shaped self.now → result.now ≡ in_order self.now.span.tops (meaning self.now).weight }
    {
        &self.weights[0..self.places()]
    }

    // The sum of all weights.
    pub(crate) fn sum(&self) -> u64
        ensures { Shaped self.now → result ≡ total_of (meaning self.now) }
    {
        self.held().iter().map(|w| u64::from(*w)).sum()
    }

    // The question that the bytes are, if it is carried.
    pub(crate) fn carried(&self, question: &[u8]) -> Result<Question, Refusal>
        ensures { mapped text (reply result) ≡ replied (meaning self.now) question.now question.now }
    {
        let question = Question::read(question)?;
        if !question.reads_in(self.span.first, self.span.count) {
            return Err(Refusal::NotCarried);
        }
        Ok(question)
    }

    // The weights of the sheets that give the answer, 0 for all others.
    fn shares<'a>(&'a self, question: &'a Question, answer: u8) -> Shares<'a>
        ensures ordered { Shaped self.now → shares_left result ≡ in_order self.now.span.tops (kept (text question.now) answer (meaning self.now).weight) }
        ensures small { sum (shares_left result) < 2 ^ 64 }
    {
        let weights = self.held();
        Shares {
            question,
            answer,
            tops: self.span.tops,
            sheet: [0; 4],
            weights,
        }
    }

    // The sum of the weights of the sheets that give the answer.
    pub(crate) fn mass_of(&self, question: &Question, answer: u8) -> u64
        ensures { Shaped self.now → result ≡ mass_of (meaning self.now) (text question.now) answer }
    {
        self.shares(question, answer).sum()
    }

    // The greatest of those weights.
    pub(crate) fn heaviest_of(&self, question: &Question, answer: u8) -> u64
        ensures { Shaped self.now → result ≡ heaviest_of (meaning self.now) (text question.now) answer }
    {
        self.shares(question, answer).max().unwrap_or(0)
    }

    // Sets to 0 the weight of each sheet that does not give the answer.
    pub(crate) fn keep(&mut self, question: &Question, answer: u8)
        ensures { Kept (text question.now) answer self.old self.new }
    {
        // By index and in place: the checker lends no field that stands beside ghost fields, and a copy of all places costs more than
        // the walk over a small table. It steps from sheet to sheet itself, since shares lend the weights that are written here.
        let mut sheet = [0; 4];
        for i in 0..self.places() {
            self.weights[i] = share(question, answer, sheet, self.weights[i]);
            let after = next(self.span.tops, sheet);
            sheet = after;
        }
    }
}

// The weight of a sheet if it gives the answer, else 0. A sheet that weighs 0 is not asked.
fn share(question: &Question, answer: u8, sheet: [u8; 4], weight: u32) -> u32
    ensures { result ≡ (if nat_eq (answers (text question.now) sheet) answer then weight else 0) }
{
    if weight != 0 && question.answer(sheet) == answer {
        weight
    } else {
        0
    }
}

// The weights of the sheets that give an answer, 0 for all others, one sheet after another.
#[derive(Drop)]
struct Shares<'a> {
    question: &'a Question,
    answer: u8,
    tops: [u8; 4],
    sheet: [u8; 4],
    weights: &'a [u32],
}

impl<'a> Iterator for Shares<'a> {
    type Item = u64;

    ghost next_gives = { YieldsFirst shares_left };

    ghost remaining = { item_count shares_left };

    fn next(&mut self) -> Option<u64> {
        let (weight, others) = self.weights.split_first()?;
        let share = share(self.question, self.answer, self.sheet, *weight);
        self.sheet = next(self.tops, self.sheet);
        self.weights = others;
        Some(u64::from(share))
    }
}
