use crate::choosing::{Program, run_script};
use crate::listing::print_audit;
use crate::noted::{Noted, Unmade};
use crate::reading::Script;
use belief::Belief;
use cabinet::{Call, Folder, Return, Threshold, session};
use refusal::Refusal;
use script::{LineError, NotUnderstood, Words};
use std::alloc::Global;
use std::io;

// The program `serve`.
struct Serving;

// Works through a script about one cabinet, from its making to its audit.
pub fn serve_script(rt: &HostRuntime, text: &[u8]) -> io::Result<()> {
    run_script::<Serving>(rt, text)
}

impl Program for Serving {
    fn run<B: Noted>(rt: &HostRuntime, script: &mut Script<'_>) -> Result<(), LineError> {
        let head = Head::read(script)?;
        let lines = read_lines::<B>(rt.alloc(), script)?;
        serve_lines(rt, &head, &lines)?;
        Ok(())
    }
}

// The cabinet and the memory that a script asks for, as its three lines have them.
#[derive(Clone, Copy)]
struct Head {
    count: u8,
    tops: [u8; 4],
    sheet: [u8; 4],
    places: usize,
    bytes: usize,
}

impl Head {
    // cabinet COUNT T0 T1 T2 T3 S0 S1 S2 S3
    // folders PLACES
    // audit BYTES
    fn read(script: &mut Script<'_>) -> Result<Head, NotUnderstood> {
        let mut words = script.head(b"cabinet")?;
        let count = words.number()?;
        let tops = words.four_bytes()?;
        let sheet = words.four_bytes()?;
        words.end()?;
        let places = read_size(script, b"folders", 1024)?;
        let bytes = read_size(script, b"audit", 65536)?;
        Ok(Head {
            count,
            tops,
            sheet,
            places,
            bytes,
        })
    }
}

// NAME SIZE, where the size is at most `most`.
fn read_size(script: &mut Script<'_>, name: &[u8], most: usize) -> Result<usize, NotUnderstood> {
    let mut words = script.head(name)?;
    let size = words.number()?;
    words.end()?;
    if size > most {
        return Err(NotUnderstood);
    }
    Ok(size)
}

// What a line of the script says after the head. It owns what a call borrows, and tells of lines that make no call.
#[derive(Drop)]
enum Line<B> {
    Enrol(Folder<B>),
    Ask { code: u16, question: Vec<u8> },
    Look { code: u16 },
    // an enrolment whose belief could not be made
    Unmade { code: u16, unmade: Unmade },
    NotUnderstood { number: usize },
}

// The lines after the head, each with its call or why it makes none.
fn read_lines<B: Noted>(heap: Global, script: &mut Script<'_>) -> Result<Vec<Line<B>>, LineError> {
    let mut lines = Vec::new(heap);
    for line in script {
        let number = line.number;
        lines.push(match read_line(heap, line.words()) {
            Err(LineError::NotUnderstood) => Line::NotUnderstood { number },
            read => read?,
        })?;
    }
    Ok(lines)
}

// One line: a call, or an enrolment whose belief could not be made.
fn read_line<B: Noted>(heap: Global, mut words: Words<'_>) -> Result<Line<B>, LineError> {
    match words.word()? {
        b"enrol" => read_enrol(heap, words),
        b"ask" => read_ask(heap, words),
        b"look" => read_look(words),
        _ => Err(LineError::NotUnderstood),
    }
}

// enrol CODE N D BELIEF
fn read_enrol<B: Noted>(heap: Global, mut words: Words<'_>) -> Result<Line<B>, LineError> {
    let code = words.number()?;
    let n = words.number()?;
    let d = words.number()?;
    let plan = B::plan(heap, &mut words)?;
    words.end()?;
    Ok(match B::made(&plan) {
        Ok(belief) => Line::Enrol(Folder {
            code,
            threshold: Threshold { n, d },
            belief,
        }),
        Err(unmade) => Line::Unmade { code, unmade },
    })
}

// ask CODE HEX
fn read_ask<B: Noted>(heap: Global, mut words: Words<'_>) -> Result<Line<B>, LineError> {
    let code = words.number()?;
    let question = words.bytes(heap)?;
    words.end()?;
    Ok(Line::Ask { code, question })
}

// look CODE
fn read_look<B: Noted>(mut words: Words<'_>) -> Result<Line<B>, LineError> {
    let code = words.number()?;
    words.end()?;
    Ok(Line::Look { code })
}

// Makes the cabinet, makes the calls, and prints what they returned and the audit.
fn serve_lines<B: Noted>(rt: &HostRuntime, head: &Head, lines: &[Line<B>]) -> io::Result<()> {
    let free = Folder {
        code: 0,
        threshold: Threshold { n: 0, d: 0 },
        belief: B::default(),
    };
    let mut folders = vec![in rt.alloc(); free; head.places]?;
    let mut audit = vec![in rt.alloc(); 0u8; head.bytes]?;
    let calls = lines
        .iter()
        .filter_map(|line| line.call())
        .collect::<Vec<Call<'_, B>>>(rt.alloc())?;
    // `session` takes the calls and what they return as two slices, place by place.
    let mut returns = vec![in rt.alloc(); Return::Looked(Err(Refusal::Code)); calls.len()]?;
    match session(
        head.count,
        head.tops,
        head.sheet,
        &mut folders,
        &mut audit,
        &calls,
        &mut returns,
    ) {
        Err(refusal) => println!(rt; "cabinet: {refusal}"),
        Ok(cabinet) => {
            println!(rt; "cabinet: made")?;
            print_lines(rt, lines, &returns)?;
            print_audit(rt, &audit, cabinet.used())
        }
    }
}

impl<B: Belief> Line<B> {
    // The call that the line makes, if it makes one.
    fn call(&self) -> Option<Call<'_, B>> {
        match self {
            Line::Enrol(folder) => Some(Call::Enrol(*folder)),
            Line::Ask { code, question } => Some(Call::Ask {
                code: *code,
                question,
            }),
            Line::Look { code } => Some(Call::Look { code: *code }),
            Line::Unmade { .. } | Line::NotUnderstood { .. } => None,
        }
    }
}

// Prints what became of each line; those that made a call take what it returned, one after another.
fn print_lines<B: Belief>(
    rt: &HostRuntime,
    lines: &[Line<B>],
    returns: &[Return],
) -> io::Result<()> {
    let mut returns = returns.iter();
    for line in lines {
        match line {
            Line::NotUnderstood { number } => LineError::NotUnderstood.report(rt, *number)?,
            Line::Unmade { code, unmade } => println!(rt; "enrol {code}: {unmade}")?,
            Line::Enrol(Folder { code, .. }) | Line::Ask { code, .. } | Line::Look { code } => {
                if let Some(returned) = returns.next() {
                    print_return(rt, *code, *returned)?;
                }
            }
        }
    }
    Ok(())
}

// Prints what the call about this code returned.
fn print_return(rt: &HostRuntime, code: u16, returned: Return) -> io::Result<()> {
    match returned {
        Return::Enrolled(Ok(place)) => println!(rt; "enrol {code}: place {place}"),
        Return::Enrolled(Err(refusal)) => println!(rt; "enrol {code}: {refusal}"),
        Return::Asked(Ok(answer)) => println!(rt; "ask {code}: answer {answer}"),
        Return::Asked(Err(refusal)) => println!(rt; "ask {code}: {refusal}"),
        Return::Looked(Ok(view)) => {
            println!(rt;
                "look {code}: total {}, peak {}, threshold {}/{}",
                view.total, view.peak, view.threshold.n, view.threshold.d
            )
        }
        Return::Looked(Err(refusal)) => println!(rt; "look {code}: {refusal}"),
    }
}
