// Worked cases of a cabinet with tables, as theorems: a table of ones over ten values at 1/4, and weights 5, 3, 1, 1 at 1/2
// and below. It rests on what is stated for the calls of a cabinet, and on what a table means.
#![tactic(auto)]

ghost use Rattle.cases.specs.Cases.{Cases};

// The cases stand. The number is there to be printed, so that a program shows that it was called.
pub fn cases_stand() -> u8
    ensures { Cases }
{
    0
}
