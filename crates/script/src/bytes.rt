ghost use Rattle.std.specs.Prelude.{◌≡◌};
ghost use Rattle.std.specs.Result.{result_ok};
ghost use Rattle.script.specs.Text.{nibble, pairs, is_sized, bytes_of, HexReadsBack};
ghost use Rattle.script.specs.Read.{IsReadBy};

use crate::{LineError, NotUnderstood};
use std::alloc::Global;

// The most bytes that a word may write.
pub const MOST_BYTES: usize = 200;

// The bytes that a word writes in hexadecimal, two digits of either case for each; a hyphen stands for none.
#[tactic(auto, using(crate::proofs::Pairs::reads_back))]
pub fn hex(heap: Global, word: &[u8]) -> Result<Vec<u8>, LineError>
    ensures bytes { IsReadBy (λ v. v.items) result (bytes_of word.now) }
    ensures back { HexReadsBack }
{
    match word {
        [b'-'] => Ok(Vec::new(heap)),
        _ if is_sized(word) => hex_digits(heap, word),
        _ => Err(LineError::NotUnderstood),
    }
}

fn is_sized(word: &[u8]) -> bool
    ensures { result ≡ is_sized word.now }
{
    (1..=2 * MOST_BYTES).contains(&word.len())
}

// The bytes that pairs of hexadecimal digits write, of any number.
#[tactic(auto, using(crate::proofs::Pairs::front, crate::proofs::Pairs::end, crate::proofs::Pairs::odd))]
pub fn hex_digits(heap: Global, word: &[u8]) -> Result<Vec<u8>, LineError>
    ensures { IsReadBy (λ v. v.items) result (pairs word.now) }
{
    // Before anything is asked for, since a line of any length may be handed in.
    if word.len() % 2 != 0 {
        return Err(LineError::NotUnderstood);
    }
    // a loop, since a push may fail, and two digits make one byte
    let mut bytes = Vec::new(heap);
    let mut rest = word;
    while let [high, low, others @ ..] = rest {
        bytes.push(digit(*high)? * 16 + digit(*low)?)?;
        rest = others;
    }
    Ok(bytes)
}

// The value of a hexadecimal digit.
fn digit(b: u8) -> Result<u8, NotUnderstood>
    ensures { result_ok result ≡ nibble b }
{
    match b {
        b'0'..=b'9' => Ok(b - b'0'),
        b'A'..=b'F' => Ok(b - b'A' + 10),
        b'a'..=b'f' => Ok(b - b'a' + 10),
        _ => Err(NotUnderstood),
    }
}
