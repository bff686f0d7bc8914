// What a sheet answers. Each line of the script is a sheet, four values of 0 to 255, and the bytes of a question in
// hexadecimal, `-` being no bytes. It prints the answer, or why and where the bytes are refused. The script is the file
// named by the first argument, or standard input. Empty lines and lines that begin with `#` are passed over, and of any
// other line it says that it is not understood. It decides nothing: it rests on question and script.
#![tactic(auto)]

ghost use Rattle.std.specs.Prelude.{◌≡◌};
ghost use Rattle.refusal.specs.Replies.{reply, mapped};
ghost use Rattle.question.specs.Reading.{reading};
ghost use Rattle.question.specs.Questions.{answers};

use question::Question;
use refusal::Refusal;
use script::{LineError, Lines, Words, hex, passed_over};
use std::alloc::{AllocError, Global};
use std::io;

fn main(rt: HostRuntime) -> anyhow::Result<()> {
    run(&rt)
}

fn run(rt: &HostRuntime) -> anyhow::Result<()> {
    let text = script::input(rt)?;
    let lines = Lines { rest: &text };
    for (number, line) in (1..).zip(lines) {
        if passed_over(line) {
            continue;
        }
        match Trial::read(rt.alloc(), line) {
            Ok(trial) => show(rt, answer(&trial.bytes, trial.sheet))?,
            Err(LineError::NotUnderstood) => LineError::NotUnderstood.report(rt, number)?,
            // a reading fails of nothing but memory, which is told as the library tells it
            Err(LineError::Failed(_)) => return Err(AllocError.into()),
        }
    }
    Ok(())
}

// A line of the script: the bytes of a question, and the sheet on which they are tried.
#[derive(Drop)]
struct Trial {
    sheet: [u8; 4],
    bytes: Vec<u8>,
}

impl Trial {
    // S0 S1 S2 S3 HEX
    fn read(heap: Global, line: &[u8]) -> Result<Trial, LineError> {
        let mut words = Words { rest: line };
        let sheet = words.four_bytes()?;
        let word = words.word()?;
        words.end()?;
        let bytes = hex(heap, word)?;
        Ok(Trial { sheet, bytes })
    }
}

// The answer of the question that the bytes are.
fn answer(bytes: &[u8], sheet: [u8; 4]) -> Result<u8, Refusal>
    ensures { reply result ≡ mapped (λ e. answers bytes.now sheet) (reading bytes.now) }
{
    Ok(Question::read(bytes)?.answer(sheet))
}

// Prints an answer, or why there is none.
fn show(rt: &HostRuntime, answer: Result<u8, Refusal>) -> io::Result<()> {
    match answer {
        Ok(answer) => println!(rt; "answer {answer}"),
        Err(refusal) => println!(rt; "{refusal}"),
    }
}
