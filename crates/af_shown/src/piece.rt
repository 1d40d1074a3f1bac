// The pieces of a text: its characters, and the bytes that belong to none.
use crate::plain::is_plain;
use std::fmt;
use std::fmt::{Formatter, Write};

/// How many bytes a character has at most.
const LONGEST_CHARACTER: usize = 4;

/// A character of a text, or a byte that belongs to none.
#[derive(Clone, Copy)]
pub(crate) enum Piece {
    Character(char),
    Byte(u8),
}

impl Piece {
    /// The first piece of a text, and the text after it. None if the text is empty.
    pub fn first_of(text: &[u8]) -> Option<(Piece, &[u8])> {
        let (first, after) = text.split_first()?;
        match first_character(text) {
            Some(character) => {
                let rest = text.get(character.len_utf8()..).unwrap_or(&[]);
                Some((Piece::Character(character), rest))
            }
            None => Some((Piece::Byte(*first), after)),
        }
    }
}

/// The character that a text begins with, if it begins with one in UTF-8.
fn first_character(text: &[u8]) -> Option<char> {
    let near = &text[..text.len().min(LONGEST_CHARACTER)];
    near.utf8_chunks().next()?.valid().chars().next()
}

/// A plain character is written as it is. Another one of ASCII, and a byte, is written as `\xNN`, and any other as `\u{N}`, in
/// hexadecimal digits.
impl fmt::Display for Piece {
    fn fmt<W: Write>(&self, f: &mut Formatter<W>) -> fmt::Result {
        match *self {
            Piece::Character(character) if is_plain(character) => f.write_char(character),
            Piece::Character(character) => {
                let code = u32::from(character);
                if character.is_ascii() {
                    write!(f, "\\x{code:02x}")
                } else {
                    write!(f, "\\u{{{code:x}}}")
                }
            }
            Piece::Byte(byte) => write!(f, "\\x{byte:02x}"),
        }
    }
}
