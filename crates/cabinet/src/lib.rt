// The sealed cabinet: a sheet, the folders of the restorers who ask about it, and the audit of what they were told. It
// promises of making, enrolling, asking and looking, for whatever is handed in, the reply and all memory afterwards
// (specs/Memory.antt and specs/Calls.antt, over any kind of belief), and of every list of such calls the law of histories:
// memory stands for what happened (specs/Standing.antt), and what happened is lawful (the crate history). It rests on
// refusal, question, belief, register, audit and history. `session` makes a cabinet and serves a list of calls, and its
// contract has the whole law.
#![tactic(auto)]

mod asking;
mod cabinets;
mod checks;
mod enrolling;
mod folders;
mod judging;
mod looking;
mod making;
mod requests;
mod sessions;
mod thresholds;
mod views;
mod writing;

pub use cabinets::Cabinet;
pub use folders::Folder;
pub use requests::{Call, Return};
pub use sessions::session;
pub use thresholds::Threshold;
pub use views::View;
