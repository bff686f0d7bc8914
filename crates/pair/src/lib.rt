// Two beliefs as one, the right one beginning at the field after the left one's last; any two kinds, pairs too. It promises
// what every kind of belief does: a sheet weighs its left weight times its right weight, and totals, masses and heaviest
// weights are those of these weights over all sheets of both spans. It carries a question of the left's fields as the left
// does, else one of the right's fields as the right does, and no other. It rests on what beliefs mean, and on tables for a
// worked case.
#![tactic(auto)]

ghost use Rattle.pair.specs.Cases.{Worked};

mod joint;
mod kind;
mod making;

pub use joint::Pair;

// The worked case holds of the definitions. The number is there to be printed, so that a program shows that it was called.
pub fn cases_stand() -> u8
    ensures { Worked }
{
    0
}
