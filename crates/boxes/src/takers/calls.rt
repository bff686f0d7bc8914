// What each taker does with a piece.
ghost use Rattle.std.specs.Prelude.{◌≡◌, ◌≤◌, suc, ◌==◌, nat_le, slice_index};
ghost use Rattle.question.specs.Expressions.{greatest};
ghost use Rattle.question.specs.Questions.{all_below};
ghost use Rattle.question.specs.Texts.{text};
ghost use Rattle.boxes.specs.Holding.{most_boxes};
ghost use Rattle.boxes.specs.Takers.{answer_of, untallied, tallied, sifted, pressed, capped_piece};

use crate::lists::calls::may_keep;
use crate::measures::{corner_of, is_inside, mass_of};
use crate::takers::{ANSWERS, Press, Sieve, Tally, Wanted};
use crate::taking::Taker;
use ranges::WeightedBox;

impl Wanted {
    // The answer that a piece gives.
    fn given_by(&self, piece: WeightedBox) -> u8
        ensures is { result ≡ answer_of (text self.now.question) piece }
        ensures small { result ≤ greatest }
    {
        self.question.answer(corner_of(piece.sides))
    }
}

impl Tally {
    // Nothing counted and weighed yet.
    pub(crate) fn new(wanted: Wanted) -> Tally
        ensures { result ≡ untallied wanted }
    {
        Tally {
            wanted,
            pieces: [0; ANSWERS],
            mass: 0,
            heaviest: 0,
        }
    }

    // Whether for each answer no more pieces give it than boxes may be kept.
    pub(crate) fn is_few(&self) -> bool
        ensures { result ≡ all_below (suc greatest) (λ a. nat_le (slice_index self.now.pieces a) most_boxes) }
    {
        self.pieces.iter().all(|n| may_keep(usize::from(*n)))
    }
}

impl Taker for Tally {
    ghost taken = { tallied };

    fn take(&mut self, piece: WeightedBox) {
        let given = self.wanted.given_by(piece);
        let place = usize::from(given);
        self.pieces[place] = self.pieces[place].saturating_add(1);
        if is_wanted(given, self.wanted.answer) {
            self.mass = self.mass.saturating_add(mass_of(piece));
            self.heaviest = self.heaviest.max(piece.weight);
        }
    }
}

impl Taker for Sieve {
    ghost taken = { sifted };

    fn take(&mut self, piece: WeightedBox) {
        if is_wanted(self.wanted.given_by(piece), self.wanted.answer) {
            self.kept.push(piece);
        }
    }
}

impl Press {
    // A piece, its weight multiplied inside the box.
    fn press(&self, piece: WeightedBox) -> WeightedBox
        ensures { result ≡ capped_piece self.now.around self.now.factor piece }
    {
        let mut pressed = piece;
        if is_inside(self.around, corner_of(piece.sides)) {
            pressed.weight = piece.weight.saturating_mul(self.factor);
        }
        pressed
    }
}

impl Taker for Press {
    ghost taken = { pressed };

    fn take(&mut self, piece: WeightedBox) {
        let pressed = self.press(piece);
        self.kept.push(pressed);
    }
}

// Whether the answer that was given is the one asked for.
fn is_wanted(given: u8, answer: u8) -> bool
    ensures { result ≡ (given == answer) }
{
    given == answer
}
