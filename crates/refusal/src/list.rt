// The refusals, in their order.
#[derive(Clone, Copy, PartialEq, Eq, Debug)]
pub enum Refusal {
    // 1: a count of fields is 0, or a span passes the last field.
    Span,
    // 2: a value lies above its top, a lowest value above its highest, or a byte outside the span is not 0.
    Value,
    // 3: a table, a starting weight, a factor or a threshold is not of the size that is asked for.
    Amount,
    // 4: a side of a pair is not sound, or the right one does not begin where the left one ends.
    Sides,
    // 5: too many boxes, or too great a total.
    Excess,
    // 6: a code is 0, has a folder already, or has none.
    Code,
    // 7: no place of the register is free.
    Full,
    // 8: a belief is not sound, or not one about the cabinet's fields.
    Unfit,
    // 9: the bytes are no question, or no audit entry, at this place.
    Unreadable(usize),
    // 10: a bound passes the limit, at this place.
    Bound(usize),
    // 11: the audit has fewer free bytes than the entry needs.
    Short,
    // 12: the belief does not carry the question.
    NotCarried,
    // 13: the answer has mass 0, or the belief is not whole.
    NoMass,
    // 14: the question is too telling, or a sheet is held above the threshold already.
    TooTelling,
}
