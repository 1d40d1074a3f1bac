// Why the system refused a call, in its own words.
use arrayvec::ArrayString;
use std::fmt;
use std::fmt::{Formatter, Write};
use std::io::{Error, ErrorKind};

// A system's error has at most 256 bytes of text, and its number after them at most 24.
const LONGEST_TEXT: usize = 288;

/// Why the system refused a call. It is written in the system's words, as `Address already in use`, without the number of
/// the error.
#[derive(Clone, Copy)]
pub struct Reason {
    error: Error,
}

impl Reason {
    /// The reason that this error has.
    pub fn new(error: Error) -> Reason {
        Reason { error }
    }

    /// A write that took nothing.
    pub fn nothing_taken() -> Reason {
        Reason {
            error: Error::new(ErrorKind::WriteZero, "a write took nothing"),
        }
    }
}

impl fmt::Display for Reason {
    fn fmt<W: Write>(&self, f: &mut Formatter<W>) -> fmt::Result {
        let error = self.error;
        let mut text = ArrayString::<LONGEST_TEXT>::new();
        write!(text, "{error}")?;
        match text.as_str().split_once(" (os error ") {
            Some((words, _)) => f.write_str(words),
            None => f.write_str(text.as_str()),
        }
    }
}
