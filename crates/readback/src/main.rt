// Reads audits back: each line of the input is an audit in hexadecimal, `-` being one of no bytes. It prints the entries
// one by one, or where the bytes are no entry, and whether the entries written again are the same bytes. It decides
// nothing; crate programs has what it does.
#![tactic(auto)]

use std::io;

// Two lines, which each program has for itself.
fn main(rt: HostRuntime) -> io::Result<()> {
    let text = script::input(&rt)?;
    programs::readback_script(&rt, text.as_slice())
}
