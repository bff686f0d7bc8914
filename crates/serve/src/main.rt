// One cabinet from its making to its audit: reads a script of enrolments, questions and looks, from the file that the
// first argument names or from standard input, and prints what each call returned and the audit. It decides nothing; crate
// programs has what it does.
#![tactic(auto)]

use std::io;

// Two lines, which each program has for itself.
fn main(rt: HostRuntime) -> io::Result<()> {
    let text = script::input(&rt)?;
    programs::serve_script(&rt, text.as_slice())
}
