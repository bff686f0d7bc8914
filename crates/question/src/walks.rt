// Walks over the bytes of a question, each from a command to its operands. A command is the character of its byte, told apart by
// literals; by a cast, since with `char::from` the proofs of most walks did not close. What must begin at the bytes is asked of each walk:
// a type for it would be made anew at each operand, of bytes that the one before it leaves. Where a walk stops short it tells how many
// bytes are left; its one caller makes the place and the refusal of that, which an error made here would have to be taken apart for.
ghost use Rattle.std.specs.Prelude.{◌≡◌, ℕ, ◌+◌, ◌*◌, ◌<◌, ◌≤◌, List, length, IfSome, if◌then◌else◌, MatchResult, slice_index};
ghost use Rattle.std.specs.Option.{option_map as seen};
ghost use Rattle.question.specs.Expressions.{longest, limit, is_zero, applied, limited};
ghost use Rattle.question.specs.Reading.{a_field, a_number, command as command_of};
ghost use Rattle.question.specs.Fronts.{Reads, Stuck, Begins, Any, Each, Small, Worth, Bounded, Passes, Signs, is_sign, op, Both, scan, front_step, prefixed, walk};
ghost use Rattle.question.specs.Texts.{taken};

use crate::LIMIT;
use crate::listed::{STEP_BYTES, Steps};
use crate::steps::Step;

// The expression at the front of the bytes is passed over: the bytes after it, or how many are left at the first that cannot stand there.
pub(crate) fn read(bytes: &[u8]) -> Result<&[u8], usize>
    ensures { MatchResult result (λ rest. Reads bytes.now rest.now) (λ left. Stuck bytes.now left) }
{
    let [b, rest @ ..] = bytes else {
        return Err(0);
    };
    let command = *b as char;
    match command {
        'f' => match rest {
            [k, rest @ ..] if *k <= 3 => Ok(rest),
            _ => Err(rest.len()),
        },
        'c' => match rest {
            [_, _, rest @ ..] => Ok(rest),
            _ => Err(0),
        },
        '!' => read(rest),
        '?' => read(read(read(rest)?)?),
        _ if takes_two(command) => read(read(rest)?),
        _ => Err(bytes.len()),
    }
}

// The bound of the expression at the front, and the bytes after it; or how many bytes are left
// at the command that was completed first of those whose bound passes the limit.
pub(crate) fn bound(bytes: &[u8]) -> Result<(u64, &[u8]), usize>
    requires { Begins Any bytes.now }
    ensures { MatchResult result (λ x. Each (Bounded x.0) bytes.now x.1.now) (λ left. Passes bytes.now left) }
{
    let [b, rest @ ..] = bytes else { unreachable() };
    let command = *b as char;
    match command {
        'f' => match rest {
            [_, rest @ ..] => Ok((255, rest)),
            _ => unreachable(),
        },
        'c' => match rest {
            [hi, lo, rest @ ..] => Ok((u64::from(u16::from_be_bytes([*hi, *lo])), rest)),
            _ => unreachable(),
        },
        '!' => {
            let (_, rest) = bound(rest)?;
            Ok((1, rest))
        }
        '?' => {
            let (_, rest) = bound(rest)?;
            let (y, rest) = bound(rest)?;
            let (z, rest) = bound(rest)?;
            Ok((y.max(z), rest))
        }
        _ if takes_two(command) => {
            let (x, rest) = bound(rest)?;
            let (y, rest) = bound(rest)?;
            let n = bound_by(command, x, y);
            if n > LIMIT {
                return Err(bytes.len());
            }
            Ok((n, rest))
        }
        _ => unreachable(),
    }
}

// The value of the expression at the front, and the bytes after it.
#[cycle(operand_value)]
pub(crate) fn value(bytes: &[u8], sheet: [u8; 4]) -> (i64, &[u8])
    requires { Begins Small bytes.now }
    ensures { Each (Worth sheet result.0) bytes.now result.1.now }
{
    let [b, rest @ ..] = bytes else { unreachable() };
    let command = *b as char;
    if takes_two(command) {
        let (x, rest) = operand(rest, sheet);
        let (y, rest) = operand(rest, sheet);
        return (apply(command, x, y), rest);
    }
    match command {
        'f' => field_value(bytes, sheet),
        'c' => number_value(bytes),
        '!' => {
            let (x, rest) = operand(rest, sheet);
            (i64::from(x == 0), rest)
        }
        '?' => {
            let (x, rest) = operand(rest, sheet);
            let (y, rest) = operand(rest, sheet);
            let (z, rest) = operand(rest, sheet);
            (pick(x, y, z), rest)
        }
        _ => unreachable(),
    }
}

// The same for an operand. Most are fields and numbers, and those need no call of `value`: without this function evaluation took
// 1.9 times as long when that was measured. What `value`
// returns is taken apart, so that the compiler keeps a field's or a number's value out of memory.
#[cycle(operand_value)]
fn operand(bytes: &[u8], sheet: [u8; 4]) -> (i64, &[u8])
    requires { Begins Small bytes.now }
    ensures { Each (Worth sheet result.0) bytes.now result.1.now }
{
    match bytes {
        [b'f', ..] => field_value(bytes, sheet),
        [b'c', ..] => number_value(bytes),
        _ => {
            let (x, rest) = value(bytes, sheet);
            (x, rest)
        }
    }
}

// The same for a field.
fn field_value(bytes: &[u8], sheet: [u8; 4]) -> (i64, &[u8])
    requires begins { Begins Small bytes.now }
    requires field { command_of (slice_index bytes.now 0) ≡ a_field }
    ensures { Each (Worth sheet result.0) bytes.now result.1.now }
{
    match bytes {
        [_, k, rest @ ..] if *k <= 3 => (i64::from(sheet[usize::from(*k)]), rest),
        _ => unreachable(),
    }
}

// The same for a number, whatever the sheet.
fn number_value(bytes: &[u8]) -> (i64, &[u8])
    requires begins { Begins Small bytes.now }
    requires number { command_of (slice_index bytes.now 0) ≡ a_number }
    ensures { (s : List ℕ) → Each (Worth s result.0) bytes.now result.1.now }
{
    match bytes {
        [_, hi, lo, rest @ ..] => (i64::from(u16::from_be_bytes([*hi, *lo])), rest),
        _ => unreachable(),
    }
}

// Whether a command is followed by two operands.
fn takes_two(command: char) -> bool
    ensures { result ≡ is_sign (command_of command) }
{
    matches!(command, '+' | '-' | '*' | '<' | '=' | '&' | '|')
}

// What a command of two operands makes of their bounds.
fn bound_by(command: char, x: u64, y: u64) -> u64
    requires signs { Signs command }
    requires first { x ≤ limit }
    requires second { y ≤ limit }
    ensures { result ≡ limited (op command) x y }
{
    match command {
        '+' | '-' => x + y,
        '*' => x * y,
        _ => 1,
    }
}

// What a command of two operands makes of their values.
fn apply(command: char, x: i64, y: i64) -> i64
    requires signs { Signs command }
    requires small { Both x y }
    ensures { result ≡ applied (op command) x y }
{
    match command {
        '+' => x + y,
        '-' => x - y,
        '*' => x * y,
        '<' => i64::from(x < y),
        '=' => i64::from(x == y),
        '&' => i64::from(x != 0 && y != 0),
        _ => i64::from(x != 0 || y != 0),
    }
}

// The second unless the first is 0, else the third.
fn pick(x: i64, y: i64, z: i64) -> i64
    ensures { result ≡ (if is_zero x then z else y) }
{
    if x == 0 { z } else { y }
}

// Whether f k stands among the commands.
pub(crate) fn mentions(bytes: &[u8], k: u8) -> bool
    ensures { result ≡ scan k bytes.now }
{
    let [b, rest @ ..] = bytes else {
        return false;
    };
    match *b as char {
        'f' => match rest {
            [j, rest @ ..] => *j == k || mentions(rest, k),
            _ => false,
        },
        'c' => match rest {
            [_, _, rest @ ..] => mentions(rest, k),
            _ => false,
        },
        _ => mentions(rest, k),
    }
}

// The step at the front of the bytes, if there is one.
pub(crate) fn step_at(bytes: &[u8]) -> Option<Step>
    ensures is { result ≡ front_step bytes.now }
    ensures low { IfSome result (λ t. slice_index bytes.now 5 < 256) }
{
    let [less, f, k, c, hi, lo, ..] = bytes else {
        return None;
    };
    match (*less as char, *f as char, *c as char) {
        ('<', 'f', 'c') => Some(Step {
            field: *k,
            bound: u16::from_be_bytes([*hi, *lo]),
        }),
        _ => None,
    }
}

// The steps among the commands, after those so far; nothing if a field stands outside a step.
pub(crate) fn gather(bytes: &[u8], so_far: Steps) -> Option<Steps>
    requires { 6 * so_far.len + length bytes.now ≤ longest }
    ensures { seen taken result ≡ prefixed (taken so_far) (walk 0 bytes.now) }
{
    if let Some(step) = step_at(bytes) {
        return gather(&bytes[STEP_BYTES..], so_far.with(step));
    }
    let [b, rest @ ..] = bytes else {
        return Some(so_far);
    };
    match *b as char {
        'f' => None,
        'c' => match rest {
            [_, _, rest @ ..] => gather(rest, so_far),
            _ => Some(so_far),
        },
        _ => gather(rest, so_far),
    }
}
