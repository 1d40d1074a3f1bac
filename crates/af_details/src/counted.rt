// Numbers of things, in words.
use std::fmt;
use std::fmt::{Formatter, Write};

/// A number of things, by the word for one.
#[derive(Clone, Copy)]
pub struct Counted<'a>(pub u64, pub &'a str);

impl<'a> fmt::Display for Counted<'a> {
    fn fmt<W: Write>(&self, f: &mut Formatter<W>) -> fmt::Result {
        let count = self.0;
        let word = self.1;
        if count == 1 {
            write!(f, "1 {word}")
        } else {
            write!(f, "{count} {word}s")
        }
    }
}
