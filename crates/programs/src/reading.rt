ghost use Rattle.std.specs.Prelude.{length};
ghost use Rattle.std.specs.Iterator.{at_most};

use script::{Lines, NotUnderstood, Words, passed_over};

// A line of a script, with its number among all lines.
#[derive(Clone, Copy)]
pub(crate) struct NumberedLine<'a> {
    pub(crate) number: usize,
    pub(crate) text: &'a [u8],
}

impl<'a> NumberedLine<'a> {
    pub(crate) fn words(self) -> Words<'a> {
        Words { rest: self.text }
    }
}

// The lines of a script that are not passed over.
#[derive(Clone, Copy)]
pub(crate) struct Script<'a> {
    lines: Lines<'a>,
    // the number of the line that was read last; at the end, that of the line that is missing, which `enumerate` has not
    pub(crate) number: usize,
}

impl<'a> Iterator for Script<'a> {
    type Item = NumberedLine<'a>;

    ghost remaining = { λ s. at_most (length s.lines.rest.now) };

    fn next(&mut self) -> Option<NumberedLine<'a>> {
        while let Some(text) = self.lines.next() {
            self.number = self.number.saturating_add(1);
            if !passed_over(text) {
                return Some(NumberedLine {
                    number: self.number,
                    text,
                });
            }
        }
        self.number = self.number.saturating_add(1);
        None
    }
}

impl<'a> Script<'a> {
    pub(crate) fn new(text: &'a [u8]) -> Script<'a> {
        Script {
            lines: Lines { rest: text },
            number: 0,
        }
    }

    // The words after the name of the next line, which has to have this name.
    pub(crate) fn head(&mut self, name: &[u8]) -> Result<Words<'a>, NotUnderstood> {
        let line = self.next().ok_or(NotUnderstood)?;
        let mut words = line.words();
        words.expect(name)?;
        Ok(words)
    }
}
