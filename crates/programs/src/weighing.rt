use crate::choosing::{Program, run_script};
use crate::noted::Noted;
use crate::reading::Script;
use belief::Belief;
use question::GREATEST;
use refusal::Refusal;
use script::{LineError, Words};
use std::io;

// The program `weigh`.
struct Weighing;

// Works through a script about one belief, and prints what a question would tell.
pub fn weigh_script(rt: &HostRuntime, text: &[u8]) -> io::Result<()> {
    run_script::<Weighing>(rt, text)
}

impl Program for Weighing {
    fn run<B: Noted>(rt: &HostRuntime, script: &mut Script<'_>) -> Result<(), LineError> {
        let plan = belief_plan::<B>(rt, script)?;
        match B::made(&plan) {
            Err(unmade) => println!(rt; "belief: {unmade}")?,
            Ok(belief) => {
                print_belief(rt, "belief", &belief)?;
                weigh_lines(rt, belief, script)?;
            }
        }
        Ok(())
    }
}

// belief BELIEF
fn belief_plan<B: Noted>(rt: &HostRuntime, script: &mut Script<'_>) -> Result<B::Plan, LineError> {
    let mut words = script.head(b"belief")?;
    let plan = B::plan(rt.alloc(), &mut words)?;
    words.end()?;
    Ok(plan)
}

// Prints what a belief says of itself.
fn print_belief<B: Belief>(rt: &HostRuntime, name: &str, belief: &B) -> io::Result<()> {
    let total = belief.total();
    let peak = belief.peak();
    let whole = if belief.whole() { "yes" } else { "no" };
    println!(rt; "{name}: total {total}, peak {peak}, whole {whole}")
}

// The lines after the head, one by one.
fn weigh_lines<B: Belief>(
    rt: &HostRuntime,
    mut belief: B,
    script: &mut Script<'_>,
) -> io::Result<()> {
    for line in script {
        if let Err(error) = weigh_line(rt, &mut belief, line.words()) {
            error.report(rt, line.number)?;
        }
    }
    Ok(())
}

// One line.
fn weigh_line<B: Belief>(
    rt: &HostRuntime,
    belief: &mut B,
    mut words: Words<'_>,
) -> Result<(), LineError> {
    match words.word()? {
        b"weight" => weight(rt, belief, words),
        b"weigh" => weigh(rt, belief, words),
        b"revise" => revise(rt, belief, words),
        _ => Err(LineError::NotUnderstood),
    }
}

// weight S0 S1 S2 S3
fn weight<B: Belief>(rt: &HostRuntime, belief: &B, mut words: Words<'_>) -> Result<(), LineError> {
    let sheet = words.four_bytes()?;
    words.end()?;
    let weight = belief.weight(sheet);
    println!(rt; "weight: {weight}")?;
    Ok(())
}

// weigh HEX
fn weigh<B: Belief>(rt: &HostRuntime, belief: &B, mut words: Words<'_>) -> Result<(), LineError> {
    let question = words.bytes(rt.alloc())?;
    words.end()?;
    print_answers(rt, belief, &question)?;
    Ok(())
}

// Prints each answer that is possible, or why the question is refused.
fn print_answers<B: Belief>(rt: &HostRuntime, belief: &B, question: &[u8]) -> io::Result<()> {
    let mut left = belief.total();
    for answer in 0..=GREATEST {
        // Once the answers so far have all the weight, no further one is possible.
        if left == 0 {
            break;
        }
        match told(belief, question, answer) {
            Err(refusal) => return println!(rt; "weigh: {refusal}"),
            Ok(None) => {}
            Ok(Some((mass, heaviest))) => {
                left = left.saturating_sub(mass);
                println!(rt; "weigh: answer {answer}, mass {mass}, heaviest {heaviest}")?;
            }
        }
    }
    Ok(())
}

// The mass of an answer and its heaviest sheet, if it is possible. Judging has the like with a contract, which asks for a carried
// question; here that is still to be told.
fn told<B: Belief>(belief: &B, question: &[u8], answer: u8) -> Result<Option<(u64, u64)>, Refusal> {
    let mass = belief.mass(question, answer)?;
    if mass == 0 {
        return Ok(None);
    }
    Ok(Some((mass, belief.heaviest(question, answer)?)))
}

// revise HEX ANSWER
fn revise<B: Belief>(
    rt: &HostRuntime,
    belief: &mut B,
    mut words: Words<'_>,
) -> Result<(), LineError> {
    let question = words.bytes(rt.alloc())?;
    let answer = words.number()?;
    words.end()?;
    match belief.revise(&question, answer) {
        Ok(_) => print_belief(rt, "revise", belief)?,
        Err(refusal) => println!(rt; "revise: {refusal}")?,
    }
    Ok(())
}
