// What the programs `weigh`, `serve` and `readback` do with a script. They decide nothing: they read the words of a line, make one
// call of the proved library, and print what it returned. No contract can say what is printed; the scripts under
// crates/examples are run and compared. It rests on every crate below.
#![tactic(auto)]

mod choosing;
mod kinds;
mod listing;
mod noted;
mod plans;
mod reading;
mod serving;
mod weighing;

pub use listing::readback_script;
pub use serving::serve_script;
pub use weighing::weigh_script;
