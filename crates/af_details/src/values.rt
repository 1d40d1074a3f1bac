// The values that an option takes, in words.
use af_cli::{LONGEST_COMMAND, MOST_DIGITS, Values};
use std::fmt;
use std::fmt::{Formatter, Write};

/// What a value may be, in words.
#[derive(Clone, Copy)]
pub struct Wanted(pub Values);

impl fmt::Display for Wanted {
    fn fmt<W: Write>(&self, f: &mut Formatter<W>) -> fmt::Result {
        let values = self.0;
        match values {
            Values::Command => write!(f, "a command of 1 to {LONGEST_COMMAND} bytes"),
            Values::Digits => write!(f, "1 to {MOST_DIGITS} digits of 0123456789*#ABCD"),
            Values::EventKinds => write!(f, "one or more of {values}"),
            _ => write!(f, "{values}"),
        }
    }
}
