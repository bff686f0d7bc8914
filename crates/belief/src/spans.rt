// Spans of fields, four values over one, and the totals of sound beliefs.
ghost use Rattle.std.specs.Prelude.{◌≡◌, ◌&&◌, ◌||◌, if◌then◌else◌, ◌==◌};
ghost use Rattle.refusal.specs.Replies.{reply};
ghost use Rattle.question.specs.Questions.{in_span};
ghost use Rattle.belief.specs.Spans.{good_span, zero_outside, span_only, span_made, good_total};

use question::{FIELDS, in_span};
use refusal::Refusal;

// The most that the total of a sound belief may be.
pub const MOST_TOTAL: u64 = 1 << 40;

// Whether a total is that of a sound belief.
pub fn good_total(total: u64) -> bool
    ensures { result ≡ good_total total }
{
    (1..=MOST_TOTAL).contains(&total)
}

// A first field and a count of fields, and the greatest value of each of the four fields.
#[derive(Clone, Copy)]
pub struct Span {
    pub first: u8,
    pub count: u8,
    pub tops: [u8; 4],
}

impl Span {
    // The span of these fields with these tops; 1 or 2.
    pub fn make(first: u8, count: u8, tops: [u8; 4]) -> Result<Span, Refusal>
        ensures { reply result ≡ span_made first count tops }
    {
        let span = Span { first, count, tops };
        if !span.has_good_fields() {
            return Err(Refusal::Span);
        }
        if !span.is_zero_outside(tops) {
            return Err(Refusal::Value);
        }
        Ok(span)
    }

    // Whether it has a field, and ends with the last field at most, and the tops are 0 outside.
    pub fn is_good(self) -> bool
        ensures { result ≡ (good_span self.first self.count && zero_outside self.first self.count self.tops) }
    {
        self.has_good_fields() && self.is_zero_outside(self.tops)
    }

    // Whether field k belongs to it.
    pub fn has(self, k: u8) -> bool
        ensures { result ≡ in_span self.first self.count k }
    {
        in_span(self.first, self.count, k)
    }

    // Whether the values outside it are 0.
    pub fn is_zero_outside(self, values: [u8; 4]) -> bool
        ensures { result ≡ zero_outside self.first self.count values }
    {
        self.only(values) == values
    }

    // The four values with 0 outside it.
    pub fn only(self, values: [u8; 4]) -> [u8; 4]
        ensures { result ≡ span_only self.first self.count values }
    {
        let [v, w, x, y] = values;
        [
            self.value(0, v),
            self.value(1, w),
            self.value(2, x),
            self.value(3, y),
        ]
    }

    // A value of it, 0 outside.
    fn value(self, k: u8, value: u8) -> u8
        ensures { result ≡ (if in_span self.first self.count k then value else 0) }
    {
        if self.has(k) { value } else { 0 }
    }

    // Whether it has a field, and ends with the last field at most.
    fn has_good_fields(self) -> bool
        ensures { result ≡ good_span self.first self.count }
    {
        (1 <= self.count) & (u16::from(self.first) + u16::from(self.count) <= u16::from(FIELDS))
    }
}
