ghost use Rattle.std.specs.Prelude.{◌≡◌, ◌+◌, ◌-◌, ◌*◌, ◌<◌, ◌≤◌, ◌↔◌, ◌&&◌, length, IsOk, OnOk, option_and_then, if◌then◌else◌, Some, None, nat_le};
ghost use Rattle.script.specs.Text.{before, run, passed_over, word, after_word, next_number, next_byte, next_bytes, after_bytes, is_digit, number, decimal_from, bytes_of};
ghost use Rattle.std.specs.Result.{result_ok};
ghost use Rattle.script.specs.Views.{shown};
ghost use Rattle.script.specs.Read.{IsReadBy, IsReadInto};

use crate::{LineError, NotUnderstood, hex};
use std::alloc::Global;

// How many bytes stand before the first that is b.
fn count_before(text: &[u8], b: u8) -> usize
    ensures is { result ≡ before b text.now }
    ensures within { result ≤ length text.now }
{
    text.iter().take_while(|x| **x != b).count()
}

// How many spaces a text begins with. In their callers the chains did not prove, and one function for both would take a test, so that
// its contract spoke of closures.
fn count_spaces(text: &[u8]) -> usize
    ensures is { result ≡ run 32 text.now }
    ensures within { result ≤ length text.now }
{
    text.iter().take_while(|x| **x == b' ').count()
}

// The lines of a text.
#[derive(Clone, Copy)]
pub struct Lines<'a> {
    pub rest: &'a [u8],
}

impl<'a> Iterator for Lines<'a> {
    ghost use Rattle.std.specs.Prelude.{length};
    ghost use Rattle.std.specs.Iterator.{at_most};
    ghost use Rattle.script.specs.Views.{TakesLine};

    type Item = &'a [u8];

    ghost next_gives = { λ s r t. TakesLine s.rest.now r t.rest.now };

    ghost remaining = { λ s. at_most (length s.rest.now) };

    // The next line, without its newline, or nothing at the end.
    fn next(&mut self) -> Option<&'a [u8]> {
        let text = self.rest;
        if text.is_empty() {
            return None;
        }
        let end = count_before(text, b'\n');
        let next = end.saturating_add(1).min(text.len());
        self.rest = &text[next..];
        Some(&text[..end])
    }
}

// Whether a line is passed over: it is empty, or begins with #.
pub fn passed_over(line: &[u8]) -> bool
    ensures { result ≡ passed_over line.now }
{
    matches!(line, [] | [b'#', ..])
}

// The words of a line, parted by spaces.
#[derive(Clone, Copy)]
pub struct Words<'a> {
    pub rest: &'a [u8],
}

impl<'a> Iterator for Words<'a> {
    ghost use Rattle.std.specs.Prelude.{length};
    ghost use Rattle.std.specs.Iterator.{at_most};
    ghost use Rattle.script.specs.Views.{TakesWord};

    type Item = &'a [u8];

    ghost next_gives = { λ s r t. TakesWord s.rest.now r t.rest.now };

    ghost remaining = { λ s. at_most (length s.rest.now) };

    // The next word, or nothing where only spaces are left.
    fn next(&mut self) -> Option<&'a [u8]> {
        let text = &self.rest[count_spaces(self.rest)..];
        let end = count_before(text, b' ');
        self.rest = &text[end..];
        if text.is_empty() {
            return None;
        }
        Some(&text[..end])
    }
}

impl<'a> Words<'a> {
    // The next word, which has to be there.
    pub fn word(&mut self) -> Result<&'a [u8], NotUnderstood>
        ensures word { shown (result_ok result) ≡ word self.old.rest.now }
        ensures rest { self.new.rest.now ≡ after_word self.old.rest.now }
        ensures shorter { OnOk result (length self.new.rest.now < length self.old.rest.now) }
    {
        self.next().ok_or(NotUnderstood)
    }

    // The next word, which has to be this one.
    pub fn expect(&mut self, name: &[u8]) -> Result<(), NotUnderstood>
        ensures word { IsOk result ↔ (word self.old.rest.now ≡ Some name.now) }
        ensures rest { self.new.rest.now ≡ after_word self.old.rest.now }
        ensures shorter { OnOk result (length self.new.rest.now < length self.old.rest.now) }
    {
        if self.word()? == name {
            Ok(())
        } else {
            Err(NotUnderstood)
        }
    }

    // No further word, which has to be so.
    pub fn end(&mut self) -> Result<(), NotUnderstood>
        ensures word { IsOk result ↔ (word self.old.rest.now ≡ None) }
        ensures rest { self.new.rest.now ≡ after_word self.old.rest.now }
    {
        match self.next() {
            None => Ok(()),
            Some(_) => Err(NotUnderstood),
        }
    }

    // The next word as a number that the type holds.
    pub fn number<T: TryFrom<u32>>(&mut self) -> Result<T, NotUnderstood>
    where
        T: Drop,
        T::Error: Drop,
        ensures number { IsReadInto T.try_from_gives (result_ok result) (next_number self.old.rest.now) }
        ensures rest { self.new.rest.now ≡ after_word self.old.rest.now }
        ensures shorter { OnOk result (length self.new.rest.now < length self.old.rest.now) }
    {
        let number = decimal(self.word()?, u32::MAX).ok_or(NotUnderstood)?;
        T::try_from(number).ok().ok_or(NotUnderstood)
    }

    // The next four words as bytes.
    pub fn four_bytes(&mut self) -> Result<[u8; 4], NotUnderstood>
        ensures bytes { result_ok result ≡ next_bytes 4 self.old.rest.now }
        ensures rest { self.new.rest.now ≡ after_bytes 4 self.old.rest.now }
        ensures shorter { OnOk result (length self.new.rest.now < length self.old.rest.now) }
    {
        Ok([self.byte()?, self.byte()?, self.byte()?, self.byte()?])
    }

    fn byte(&mut self) -> Result<u8, NotUnderstood>
        ensures byte { result_ok result ≡ next_byte self.old.rest.now }
        ensures rest { self.new.rest.now ≡ after_word self.old.rest.now }
        ensures shorter { OnOk result (length self.new.rest.now < length self.old.rest.now) }
    {
        self.number()
    }

    // The bytes that the next word writes in hexadecimal.
    pub fn bytes(&mut self, heap: Global) -> Result<Vec<u8>, LineError>
        ensures bytes { IsReadBy (λ v. v.items) result (option_and_then bytes_of (word self.old.rest.now)) }
        ensures rest { self.new.rest.now ≡ after_word self.old.rest.now }
        ensures shorter { OnOk result (length self.new.rest.now < length self.old.rest.now) }
    {
        hex(heap, self.word()?)
    }
}

// The decimal number that the word is, at most `most`.
pub fn decimal(word: &[u8], most: u32) -> Option<u32>
    ensures { result ≡ number most word.now }
{
    if word.is_empty() {
        return None;
    }
    digits(word, most)
}

#[tactic(auto, using(crate::proofs::Text::digits_more), unfolding(crate::specs::Text::decimal_from))]
fn digits(word: &[u8], most: u32) -> Option<u32>
    ensures { result ≡ decimal_from most 0 word.now }
{
    // not by `try_fold`, of which the library has no lemma
    let mut n = 0;
    for b in word {
        n = longer(n, *b, most)?;
    }
    Some(n)
}

// One digit more.
fn longer(n: u32, b: u8, most: u32) -> Option<u32>
    ensures { result ≡ (if is_digit b && nat_le (n * 10 + (b - 48)) most then Some (n * 10 + (b - 48)) else None) }
{
    if !b.is_ascii_digit() {
        return None;
    }
    let x = u64::from(n) * 10 + u64::from(b - b'0');
    if x > u64::from(most) {
        return None;
    }
    // a cast, which is proved to fit: `try_from` would tell of an error that cannot come
    Some(x as u32)
}
