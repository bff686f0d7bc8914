use crate::noted::Noted;
use crate::reading::Script;
use boxes::Boxes;
use pair::Pair;
use script::{LineError, NotUnderstood};
use std::io;
use table::Table;

// The kinds of belief that a script can choose.
#[derive(Clone, Copy)]
enum Kind {
    Table,
    Boxes,
    TableTable,
    TableBoxes,
    BoxesTable,
    BoxesBoxes,
    TableTableBoxes,
}

impl TryFrom<&[u8]> for Kind {
    type Error = NotUnderstood;

    fn try_from(name: &[u8]) -> Result<Kind, NotUnderstood> {
        match name {
            b"T" => Ok(Kind::Table),
            b"B" => Ok(Kind::Boxes),
            b"PTT" => Ok(Kind::TableTable),
            b"PTB" => Ok(Kind::TableBoxes),
            b"PBT" => Ok(Kind::BoxesTable),
            b"PBB" => Ok(Kind::BoxesBoxes),
            b"PPTTB" => Ok(Kind::TableTableBoxes),
            _ => Err(NotUnderstood),
        }
    }
}

// What a program does with the lines that follow the choice of a kind.
pub(crate) trait Program {
    fn run<B: Noted>(rt: &HostRuntime, script: &mut Script<'_>) -> Result<(), LineError>;
}

// Works through a script, with the kind of belief that it chooses.
pub(crate) fn run_script<P: Program>(rt: &HostRuntime, text: &[u8]) -> io::Result<()> {
    let mut script = Script::new(text);
    match run_kind::<P>(rt, &mut script) {
        Ok(()) => Ok(()),
        Err(error) => error.report(rt, script.number),
    }
}

// Reads the choice of a kind, and hands the lines that follow to the program.
fn run_kind<P: Program>(rt: &HostRuntime, script: &mut Script<'_>) -> Result<(), LineError> {
    match chosen_kind(script)? {
        Kind::Table => P::run::<Table>(rt, script),
        Kind::Boxes => P::run::<Boxes>(rt, script),
        Kind::TableTable => P::run::<Pair<Table, Table>>(rt, script),
        Kind::TableBoxes => P::run::<Pair<Table, Boxes>>(rt, script),
        Kind::BoxesTable => P::run::<Pair<Boxes, Table>>(rt, script),
        Kind::BoxesBoxes => P::run::<Pair<Boxes, Boxes>>(rt, script),
        Kind::TableTableBoxes => P::run::<Pair<Pair<Table, Table>, Boxes>>(rt, script),
    }
}

// kind KIND
fn chosen_kind(script: &mut Script<'_>) -> Result<Kind, NotUnderstood> {
    let mut words = script.head(b"kind")?;
    let kind = Kind::try_from(words.word()?)?;
    words.end()?;
    Ok(kind)
}
