// What boxes make of a question.
ghost use Rattle.std.specs.Prelude.{◌≡◌, ◌^◌, ◌≤◌, true, is_some, IfSome};
ghost use Rattle.question.specs.Questions.{is_stepped};
ghost use Rattle.question.specs.Texts.{text};
ghost use Rattle.refusal.specs.Replies.{reply, mapped};
ghost use Rattle.belief.specs.Meaning.{mass_of, heaviest_of};
ghost use Rattle.belief.specs.Calls.{replied};
ghost use Rattle.ranges.specs.Boxes.{volume, entire};
ghost use Rattle.ranges.specs.Changes.{revised_boxes};
ghost use Rattle.boxes.specs.Holding.{good_boxes, held, meaning, carried};
ghost use Rattle.boxes.specs.Takers.{Weighed, Holds};

use crate::cuts::hand_all;
use crate::holding::Boxes;
use crate::lists::BoxList;
use crate::measures::{entire_of, volume_of};
use crate::sums::{all_apart, all_fit, total_of};
use crate::takers::{Sieve, Tally, Wanted};
use belief::good_total;
use question::Question;
use ranges::WeightedBox;
use refusal::Refusal;

impl Boxes {
    // The boxes that are kept.
    pub(crate) fn held(&self) -> &[WeightedBox]
        ensures { result.now ≡ held self.now }
    {
        &self.kept.boxes[..self.kept.len]
    }

    // Whether the boxes fit the tops, are apart, and weigh neither nothing nor too much.
    pub(crate) fn is_boxed(&self) -> bool
        ensures { result ≡ good_boxes self.now.span.tops (held self.now) }
    {
        let boxes = self.held();
        all_fit(self.span.tops, boxes) & (all_apart(boxes) & good_total(total_of(boxes)))
    }

    // How many sheets the span has.
    pub(crate) fn sheets(&self) -> u64
        ensures is { result ≡ volume (entire self.now.span.tops) }
        ensures small { result ≤ 2 ^ 32 }
    {
        volume_of(entire_of(self.span.tops))
    }

    // What the pieces under a question come to, if it is carried.
    pub(crate) fn tally(&self, wanted: Wanted) -> Option<Tally>
        ensures carries { is_some result ≡ carried self.now.span.first self.now.span.count (held self.now) (text wanted.question) }
        ensures weighs { IfSome result (λ t. Weighed t (revised_boxes (text wanted.question) wanted.answer (held self.now))) }
    {
        let steps = wanted.question.steps()?;
        if !wanted.question.reads_in(self.span.first, self.span.count) {
            return None;
        }
        let mut tally = Tally::new(wanted);
        hand_all(steps.as_slice(), self.held(), &mut tally);
        if !tally.is_few() {
            return None;
        }
        Some(tally)
    }

    // The tally of a question that is carried; 9, 10 or 12.
    pub(crate) fn asked(&self, question: &[u8], answer: u8) -> Result<Tally, Refusal>
        ensures mass { (meaning self.now).sound ≡ true →
            mapped (λ t. t.mass) (reply result) ≡ replied (meaning self.now) question.now (mass_of (meaning self.now) question.now answer) }
        ensures heaviest { (meaning self.now).sound ≡ true →
            mapped (λ t. t.heaviest) (reply result) ≡ replied (meaning self.now) question.now (heaviest_of (meaning self.now) question.now answer) }
    {
        let question = Question::read(question)?;
        let wanted = Wanted { question, answer };
        self.tally(wanted).ok_or(Refusal::NotCarried)
    }

    // The pieces under a stepped question that give the answer.
    pub(crate) fn sifted(&self, wanted: Wanted) -> BoxList
        ensures { is_stepped (text wanted.question) ≡ true → Holds result (revised_boxes (text wanted.question) wanted.answer (held self.now)) }
    {
        let Some(steps) = wanted.question.steps() else {
            return BoxList::none();
        };
        let mut sieve = Sieve {
            wanted,
            kept: BoxList::none(),
        };
        hand_all(steps.as_slice(), self.held(), &mut sieve);
        sieve.kept
    }
}
