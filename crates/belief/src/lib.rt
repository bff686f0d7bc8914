// What every kind of belief offers. A belief is a weight on every sheet of a span of fields, and the questions that it
// carries, now and after each list of revisings to come; revising is conditioning (Mardziel, Magill, Hicks and Srivatsa,
// Dynamic Enforcement of Knowledge-Based Security Policies, CSF 2011). The trait promises nothing itself: its ghost member
// says what a belief means, its law what is owed of sound ones, and its contracts what each function returns in those
// terms. Spans of fields and the test of a total, which the kinds share, are a type and a function of this crate. It rests on
// the question language. The kinds of belief stand in crates of their own above it.
#![tactic(auto)]

mod kind;
mod spans;

pub use kind::Belief;
pub use spans::{MOST_TOTAL, Span, good_total};
