// Runs the scripts under data/, one after another, as the programs `weigh` and `serve` would, and prints what they print.
// It is there to be compared with the file stdout, which holds what a model of the programs printed.
#![tactic(auto)]

use std::{fs, io};

const WEIGHED: [&str; 28] = [
    "weigh-table",
    "weigh-boxes",
    "weigh-boxes-four",
    "weigh-pair-tables",
    "weigh-pair-table-boxes",
    "weigh-pair-boxes-table",
    "weigh-pair-boxes",
    "weigh-pair-of-pair",
    "weigh-refused-table-no-fields",
    "weigh-refused-table-past-the-last-field",
    "weigh-refused-table-top-outside",
    "weigh-refused-table-too-large",
    "weigh-refused-table-another-length",
    "weigh-refused-table-weight-nought",
    "weigh-refused-table-weight-too-great",
    "weigh-refused-boxes-no-fields",
    "weigh-refused-boxes-top-outside",
    "weigh-refused-lean-above-top",
    "weigh-refused-lean-upside-down",
    "weigh-refused-lean-outside",
    "weigh-refused-lean-by-one",
    "weigh-refused-lean-too-many",
    "weigh-refused-lean-too-heavy",
    "weigh-refused-pair-apart",
    "weigh-refused-pair-too-heavy",
    "weigh-kind-unknown",
    "weigh-belief-not-understood",
    "weigh-no-belief",
];

const SERVED: [&str; 12] = [
    "serve-refusals",
    "serve-thresholds",
    "serve-again",
    "serve-boxes",
    "serve-pair",
    "serve-pair-of-pair",
    "serve-no-places",
    "serve-short",
    "serve-refused-no-fields",
    "serve-refused-sheet-above",
    "serve-refused-top-outside",
    "serve-head-not-understood",
];

// The contracts of these calls are the theorems on the worked cases and on the pieces of boxes.
fn theorems() -> u8 {
    boxes::cases_stand() | boxes::laws_stand() | pair::cases_stand() | cases::cases_stand()
}

fn main(rt: HostRuntime) -> io::Result<()> {
    let theorems = theorems();
    println!(rt; "theorems: {theorems}")?;
    run_each(&rt, &WEIGHED, programs::weigh_script)?;
    run_each(&rt, &SERVED, programs::serve_script)
}

// Runs a program on each script that is named.
fn run_each<P: Fn(&HostRuntime, &[u8]) -> io::Result<()>>(
    rt: &HostRuntime,
    names: &[&str],
    program: P,
) -> io::Result<()>
    requires { P.IsAlwaysCallable program }
{
    for name in names {
        println!(rt; "== {name}")?;
        program(rt, &fs::read(rt, *name)?)?;
    }
    Ok(())
}
