ghost use Rattle.std.specs.Prelude.{◌<◌, length, OnOk};

use belief::Span;
use script::{LineError, NotUnderstood, Words};
use std::alloc::Global;

// FIRST COUNT T0 T1 T2 T3
fn read_span(words: &mut Words<'_>) -> Result<Span, NotUnderstood> {
    Ok(Span {
        first: words.number()?,
        count: words.number()?,
        tops: words.four_bytes()?,
    })
}

// What a plan has any number of.
pub(crate) trait Item: Drop + Sized {
    // Reads one, of a word at least.
    fn read(words: &mut Words<'_>) -> Result<Self, NotUnderstood>
        ensures { OnOk result (length words.new.rest.now < length words.old.rest.now) };
}

// A weight: W
impl Item for u32 {
    fn read(words: &mut Words<'_>) -> Result<u32, NotUnderstood> {
        words.number()
    }
}

// A leaning, as a line writes it.
#[derive(Clone, Copy)]
pub(crate) struct Leaning {
    pub(crate) lowest: [u8; 4],
    pub(crate) highest: [u8; 4],
    pub(crate) factor: u8,
}

// lean L0 L1 L2 L3 H0 H1 H2 H3 FACTOR
impl Item for Leaning {
    fn read(words: &mut Words<'_>) -> Result<Leaning, NotUnderstood> {
        words.expect(b"lean")?;
        Ok(Leaning {
            lowest: words.four_bytes()?,
            highest: words.four_bytes()?,
            factor: words.number()?,
        })
    }
}

// A table or boxes, as a line writes them.
#[derive(Drop)]
pub(crate) struct Plan<T> {
    pub(crate) span: Span,
    pub(crate) items: Vec<T>,
}

impl<T: Item> Plan<T> {
    // NAME FIRST COUNT T0 T1 T2 T3 ITEM .. ITEM
    pub(crate) fn read(
        heap: Global,
        words: &mut Words<'_>,
        name: &[u8],
    ) -> Result<Plan<T>, LineError> {
        words.expect(name)?;
        let span = read_span(words)?;
        let mut items = Vec::new(heap);
        while !part_ends(words) {
            items.push(T::read(words)?)?;
        }
        Ok(Plan { span, items })
    }
}

// Whether the part of a belief ends here: no word is left, or the next one parts it from the next part.
fn part_ends(words: &Words<'_>) -> bool {
    let mut ahead = *words;
    matches!(ahead.next(), None | Some(b";"))
}
