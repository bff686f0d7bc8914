// How boxes lean: all are cut at the edges of one box, and the weights inside it are multiplied.
ghost use Rattle.std.specs.Prelude.{◌≡◌, ◌≤◌, true, ◌&&◌, map, OnOk, nat_le};
ghost use Rattle.refusal.specs.Replies.{reply, refused};
ghost use Rattle.belief.specs.Spans.{most_total};
ghost use Rattle.ranges.specs.Boxes.{total_in};
ghost use Rattle.ranges.specs.Pieces.{cut_all};
ghost use Rattle.ranges.specs.Changes.{edges};
ghost use Rattle.boxes.specs.Holding.{most_boxes, held, meaning, between, good_edges, good_factor, leaning, leaned_to, Leaned};
ghost use Rattle.boxes.specs.Takers.{listed, capped_piece, Holds};

use crate::cuts::{edges_of, hand_all};
use crate::holding::Boxes;
use crate::lists::BoxList;
use crate::lists::calls::may_keep;
use crate::measures::{box_fits, sides_between};
use crate::sums::total_of;
use crate::takers::Press;
use belief::MOST_TOTAL;
use ranges::Side;
use refusal::Refusal;

impl Boxes {
    // Multiplies the weights of the sheets from a lowest to a highest value for each field.
    pub fn lean(&mut self, lowest: [u8; 4], highest: [u8; 4], factor: u32) -> Result<(), Refusal>
        ensures replies { (meaning self.old).sound ≡ true → reply result ≡ leaning self.old lowest highest factor }
        ensures leaves { (meaning self.old).sound ≡ true → meaning self.new ≡ leaned_to result self.old lowest highest factor }
        ensures leans { (meaning self.old).sound ≡ true →
            OnOk result (Leaned (meaning self.old) (meaning self.new) (between lowest highest) factor) }
        ensures keeps { refused result ≡ true → self.new ≡ self.old }
    {
        if !self.good_edges(lowest, highest) {
            return Err(Refusal::Value);
        }
        if !good_factor(factor) {
            return Err(Refusal::Amount);
        }
        let list = self.pressed(sides_between(lowest, highest), u64::from(factor));
        if !has_room(&list) {
            return Err(Refusal::Excess);
        }
        self.kept = list;
        Ok(())
    }

    // Whether the values from the lowest to the highest are those of a box of the span.
    fn good_edges(&self, lowest: [u8; 4], highest: [u8; 4]) -> bool
        ensures { result ≡ good_edges self.now.span.first self.now.span.count self.now.span.tops lowest highest }
    {
        let span = self.span;
        box_fits(span.tops, sides_between(lowest, highest))
            & (span.is_zero_outside(lowest) & span.is_zero_outside(highest))
    }

    // The pieces of all boxes at the edges of a box, with the weights inside it multiplied.
    fn pressed(&self, around: [Side; 4], factor: u64) -> BoxList
        ensures { Holds result (map (capped_piece around factor) (cut_all (edges 0 around) (held self.now))) }
    {
        let mut press = Press {
            around,
            factor,
            kept: BoxList::none(),
        };
        hand_all(&edges_of(around), self.held(), &mut press);
        press.kept
    }
}

// Whether a factor is 2 to 255.
fn good_factor(factor: u32) -> bool
    ensures { result ≡ good_factor factor }
{
    (2..=255).contains(&factor)
}

// Whether boxes are few enough, and light enough together.
fn has_room(list: &BoxList) -> bool
    ensures is { result ≡ (nat_le list.now.len most_boxes && nat_le (total_in (listed list.now)) most_total) }
    ensures few { result ≡ true → list.now.len ≤ most_boxes }
{
    if !may_keep(list.len) {
        return false;
    }
    total_of(&list.boxes[..list.len]) <= MOST_TOTAL
}
