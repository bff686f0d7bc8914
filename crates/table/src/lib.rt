// A belief as a table: one weight for each sheet of its span, at most 1,024 of them, the last field moving fastest. It
// promises what every kind of belief does: a weight is the one that was handed in for the sheet, or 0 once the sheet has not
// given an answer that was heard; totals, masses and heaviest weights are those of these weights over all sheets of the span;
// and it carries every question that reads only fields of its span. Whether a table is sound is worked out from what it
// holds. It rests on the question language and on what beliefs mean.
#![tactic(auto)]

mod held;
mod kind;
mod making;
mod places;
mod walks;

pub use held::Table;
