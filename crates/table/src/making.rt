// How a table is made.
ghost use Rattle.std.specs.Prelude.{◌≡◌, false, IfOk};
ghost use Rattle.refusal.specs.Replies.{reply};
ghost use Rattle.belief.specs.Calls.{seen};
ghost use Rattle.table.specs.Tables.{good_weight, good_weights, good_list, table_made, meaning, Filled};

use crate::held::{PLACES, Table};
use crate::places::size_of;
use belief::Span;
use question::padded;
use refusal::Refusal;

impl Table {
    // A table over a span, from one weight for each sheet, the last field moving fastest. The span comes as its numbers, since
    // it is here that they are tested.
    pub fn make(first: u8, count: u8, tops: [u8; 4], weights: &[u32]) -> Result<Table, Refusal>
        ensures makes { seen meaning (reply result) ≡ table_made first count tops weights.now }
        ensures filled { IfOk result (λ t. Filled weights.now (meaning t)) }
    {
        let span = Span::make(first, count, tops)?;
        if !good_list(tops, weights) {
            return Err(Refusal::Amount);
        }
        Ok(Table {
            span,
            weights: padded(0, weights),
        })
    }
}

// An empty table, which is not sound. Its span is written out, since an empty span is good for nothing else.
impl Default for Table {
    ghost is_default = { λ t. (meaning t).sound ≡ false };

    fn default() -> Table {
        Table {
            span: Span {
                first: 0,
                count: 0,
                tops: [0; 4],
            },
            weights: [0; PLACES],
        }
    }
}

// Whether the sheets are few enough, and the list has one starting weight for each.
fn good_list(tops: [u8; 4], list: &[u32]) -> bool
    ensures { result ≡ good_list tops list.now }
{
    let size = size_of(tops);
    (size <= PLACES) & ((list.len() == size) & good_weights(list))
}

// Whether each weight is a starting weight, 1 to 65,535.
fn good_weights(list: &[u32]) -> bool
    ensures { result ≡ good_weights list.now }
{
    list.iter().all(|w| (1..=65_535).contains(w))
}
