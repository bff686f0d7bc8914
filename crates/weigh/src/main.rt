// What a question would tell: reads a script about one belief, from the file that the first argument names or from
// standard input, and prints the mass and the heaviest sheet of each possible answer. It decides nothing; crate programs
// has what it does.
#![tactic(auto)]

use std::io;

// Two lines, which each program has for itself.
fn main(rt: HostRuntime) -> io::Result<()> {
    let text = script::input(&rt)?;
    programs::weigh_script(&rt, text.as_slice())
}
