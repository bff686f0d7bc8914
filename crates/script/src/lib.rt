// The text that the programs read and print: lines, words parted by spaces, decimal numbers and bytes in hexadecimal. It
// promises what each of these is read as, by the definitions in specs/Text.antt, and that bytes printed in hexadecimal and
// read again are the same bytes. It rests on nothing.
#![tactic(auto)]

mod bytes;
mod error;
mod print;
mod source;
mod words;

pub use bytes::{hex, hex_digits};
pub use error::{LineError, NotUnderstood};
pub use print::Hex;
pub use source::input;
pub use words::{Lines, Words, decimal, passed_over};

#[cfg(test)]
mod tests {
    use super::*;
    use std::test::Fail;

    // Where there is memory, the bytes are read.
    #[test]
    fn bytes_of_words(rt: HostRuntime) -> Result<(), Fail> {
        let mut words = Words { rest: b"0a0B - xy" };
        let Ok(two) = words.bytes(rt.alloc()) else {
            return Err(Fail::new("two bytes are refused"));
        };
        assert!(rt; two.as_slice() == b"\x0a\x0b".as_slice());
        let Ok(none) = words.bytes(rt.alloc()) else {
            return Err(Fail::new("no bytes are refused"));
        };
        assert_eq!(rt; none.len(), 0);
        assert!(rt; words.bytes(rt.alloc()).is_err());
        Ok(())
    }
}
