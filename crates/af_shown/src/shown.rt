// Text that others gave, as it is shown to a person.
use crate::piece::Piece;
use std::fmt;
use std::fmt::{Formatter, Write};

/// How many characters of a text are shown.
const MOST_SHOWN: u32 = 100;

/// The first 100 characters of a text, and `..` if there are more. What is not plain is shown by its number, so that no text
/// can steer a terminal: `\xNN` for a character of ASCII and for a byte that is no text, and `\u{N}` for other characters.
#[derive(Clone, Copy)]
pub struct Shown<'a> {
    text: &'a [u8],
}

impl<'a> Shown<'a> {
    /// This text.
    pub fn new(text: &'a [u8]) -> Shown<'a> {
        Shown { text }
    }
}

impl fmt::Display for Shown<'_> {
    fn fmt<W: Write>(&self, f: &mut Formatter<W>) -> fmt::Result {
        let mut rest = self.text;
        for _shown in 0..MOST_SHOWN {
            let Some((piece, after)) = Piece::first_of(rest) else {
                return Ok(());
            };
            write!(f, "{piece}")?;
            rest = after;
        }
        if rest.is_empty() {
            Ok(())
        } else {
            f.write_str("..")
        }
    }
}
