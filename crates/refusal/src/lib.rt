// Why a call is declined. Every call of the product that declines returns one of these fourteen refusals; where several
// apply, the first in their order. This crate promises the number of each refusal, the place that 9 and 10 bring with
// them, and what is printed of each, by the definitions in specs/, through which every contract speaks of refusals. It rests
// on nothing.
#![tactic(auto)]

ghost use Rattle.std.specs.Prelude.{◌≡◌};
ghost use Rattle.refusal.specs.Replies.{number_of, place_of};

use std::fmt;

mod list;

pub use list::Refusal;

impl Refusal {
    // Its number, 1 to 14.
    pub fn number(self) -> u8
        ensures { result ≡ number_of self }
    {
        match self {
            Refusal::Span => 1,
            Refusal::Value => 2,
            Refusal::Amount => 3,
            Refusal::Sides => 4,
            Refusal::Excess => 5,
            Refusal::Code => 6,
            Refusal::Full => 7,
            Refusal::Unfit => 8,
            Refusal::Unreadable(_) => 9,
            Refusal::Bound(_) => 10,
            Refusal::Short => 11,
            Refusal::NotCarried => 12,
            Refusal::NoMass => 13,
            Refusal::TooTelling => 14,
        }
    }

    // The place that 9 and 10 bring with them.
    pub fn place(self) -> Option<usize>
        ensures { result ≡ place_of self }
    {
        match self {
            Refusal::Unreadable(at) | Refusal::Bound(at) => Some(at),
            _ => None,
        }
    }
}

// `refused 7`, or `refused 9 at 3` where a place comes with it.
impl fmt::Display for Refusal {
    ghost use Rattle.std.specs.Prelude.{Some};
    ghost use Rattle.refusal.specs.Printed.{refusal_text};

    ghost output = { λ r. Some (refusal_text r) };

    fn fmt<W: fmt::Write>(&self, f: &mut fmt::Formatter<W>) -> fmt::Result {
        let number = self.number();
        match self.place() {
            Some(at) => write!(f, "refused {number} at {at}"),
            None => write!(f, "refused {number}"),
        }
    }
}
