// What is asked of a question.
ghost use Rattle.std.specs.Prelude.{◌≡◌, ◌≤◌, unsigned_abs};
ghost use Rattle.std.specs.Option.{option_map as seen};
ghost use Rattle.refusal.specs.Replies.{reply, mapped};
ghost use Rattle.question.specs.Expressions.{limit, clamped};
ghost use Rattle.question.specs.Reading.{reading};
ghost use Rattle.question.specs.Laws.{Only, Unique};
ghost use Rattle.question.specs.Steps.{Simply};
ghost use Rattle.question.specs.Questions.{bound_of, value_of, answers, reads_field, reads_in, simple_as, stepped_as};
ghost use Rattle.question.specs.Texts.{text, taken};
ghost use Rattle.question.specs.Cases.{Worked};

use crate::checked::Question;
use crate::listed::Steps;
use crate::padding::padded;
use crate::spans::in_span;
use crate::steps::Step;
use crate::walks::{bound, gather, mentions, read, step_at, value};
use crate::{FIELDS, GREATEST, LONGEST};
use refusal::Refusal;

impl Question {
    // The question that the bytes are: these very bytes, or why and where they are none.
    pub fn read(bytes: &[u8]) -> Result<Question, Refusal>
        ensures gives { mapped text (reply result) ≡ mapped (λ e. bytes.now) (reading bytes.now) }
        ensures law { Only bytes.now (reading bytes.now) }
        ensures unique { Unique }
        ensures cases { Worked }
    {
        check(bytes)?;
        Ok(Question {
            bytes: padded(0, bytes),
            len: bytes.len(),
        })
    }

    // Its bytes.
    #[tactic(auto, unfolding(crate::specs::Texts::text))]
    pub fn text(&self) -> &[u8]
        ensures { result.now ≡ text self.now }
    {
        &self.bytes[..self.len]
    }

    // The bound of the whole.
    pub fn bound(&self) -> u64
        ensures is { result ≡ bound_of (text self.now) }
        ensures low { result ≤ limit }
    {
        match bound(self.text()) {
            Ok((n, _)) => n,
            Err(_) => unreachable(),
        }
    }

    // Its value on a sheet.
    pub fn value(&self, sheet: [u8; 4]) -> i64
        ensures is { result ≡ value_of (text self.now) sheet }
        ensures within { unsigned_abs result ≤ bound_of (text self.now) }
    {
        value(self.text(), sheet).0
    }

    // The answer that a sheet gives.
    pub fn answer(&self, sheet: [u8; 4]) -> u8
        ensures { result ≡ answers (text self.now) sheet }
    {
        clamp(self.value(sheet))
    }

    // Whether field k is read.
    #[tactic(auto, using(crate::proofs::Asked::scan_held))]
    pub fn reads(&self, k: u8) -> bool
        ensures { result ≡ reads_field (text self.now) k }
    {
        mentions(self.text(), k)
    }

    // Whether all fields that are read lie in a span; it is walked through for the fields outside the span alone. A span's tops are
    // nothing to a question, so the two numbers come alone.
    pub fn reads_in(&self, first: u8, count: u8) -> bool
        ensures { result ≡ reads_in first count (text self.now) }
    {
        (0..FIELDS).all(|k| in_span(first, count, k) || !self.reads(k))
    }

    // The step that it is, if it is one and nothing more.
    pub fn simple(&self) -> Option<Step>
        ensures is { result ≡ simple_as (text self.now) }
        ensures bytes { Simply (text self.now) result }
    {
        step_at(self.text())
    }

    // Its steps, if every field that is read belongs to one.
    #[tactic(auto, using(crate::proofs::Questions::text_fits, crate::proofs::Asked::walk_held))]
    pub fn steps(&self) -> Option<Steps>
        ensures { seen taken result ≡ stepped_as (text self.now) }
    {
        gather(self.text(), Steps::none())
    }
}

// Whether bytes are a question: by their length, then by their commands, then by the bounds of these.
fn check(bytes: &[u8]) -> Result<(), Refusal>
    ensures { reply result ≡ mapped (λ e. tt) (reading bytes.now) }
{
    if bytes.len() > LONGEST {
        return Err(Refusal::Unreadable(LONGEST));
    }
    match read(bytes) {
        Ok([]) => match bound(bytes) {
            Ok(_) => Ok(()),
            Err(left) => Err(Refusal::Bound(bytes.len() - left)),
        },
        Ok(rest) => Err(Refusal::Unreadable(bytes.len() - rest.len())),
        Err(left) => Err(Refusal::Unreadable(bytes.len() - left)),
    }
}

// The greatest answer as a value, by a cast: `From` makes no constant.
const MOST: i64 = GREATEST as i64;

// A value as an answer; by a cast, which is proved to fit.
fn clamp(value: i64) -> u8
    ensures { result ≡ clamped value }
{
    match value {
        v if v < 0 => 0,
        0..=MOST => value as u8,
        _ => GREATEST,
    }
}
