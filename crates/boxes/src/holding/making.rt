// How boxes are made.
ghost use Rattle.std.specs.Prelude.{◌≡◌, IfOk};
ghost use Rattle.refusal.specs.Replies.{reply};
ghost use Rattle.belief.specs.Calls.{seen};
ghost use Rattle.boxes.specs.Holding.{meaning, making, Fresh, Blank};

use crate::holding::Boxes;
use crate::lists::BoxList;
use crate::measures::single_of;
use belief::Span;
use refusal::Refusal;

impl Boxes {
    // One box over the whole span, of weight 1. The span comes as its numbers, since it is here that they are tested.
    pub fn fresh(first: u8, count: u8, tops: [u8; 4]) -> Result<Boxes, Refusal>
        ensures makes { seen meaning (reply result) ≡ making first count tops }
        ensures fresh { IfOk result (λ b. Fresh (meaning b)) }
    {
        let span = Span::make(first, count, tops)?;
        let mut kept = BoxList::none();
        kept.push(single_of(span.tops));
        Ok(Boxes { span, kept })
    }
}

// No boxes, so they are not sound: a value to fill memory with. Its span is written out, since an empty span is good for nothing else.
impl Default for Boxes {
    ghost is_default = { Blank };

    fn default() -> Boxes {
        Boxes {
            span: Span {
                first: 0,
                count: 0,
                tops: [0; 4],
            },
            kept: BoxList::none(),
        }
    }
}
