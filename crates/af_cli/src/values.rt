// The values of arguments: which texts they are, and how they are shown to a person.
ghost use Rattle.std.specs.Prelude.{◌≡◌};
ghost use Rattle.af_cli.specs.Words.{has_value, number_by};

use crate::argument::{Argument, Values};
use crate::digits::states_digits;
use crate::events::{choice_in, kinds_in};
use crate::number::{form_in, gain_in, number_in, order_in, switch_in};
use af_limits::{LONGEST_ADDRESS, MOST_DEVICES};
use af_text::sample_type;
use std::fmt;
use std::fmt::{Formatter, Write};

/// The most bytes of a text for a shell.
pub const LONGEST_COMMAND: usize = 200;

impl Values {
    /// The number that a text states, if the argument takes numbers and this is one.
    pub fn number(self, text: &str) -> Option<u32>
        ensures { result ≡ number_by self text.now }
    {
        match self {
            Values::Number(low, high) => number_in(low, high, text.as_bytes()),
            _ => None,
        }
    }

    /// Whether a text is such a value.
    pub fn has(self, text: &str) -> bool
        ensures { result ≡ has_value self text.now }
    {
        let bytes = text.as_bytes();
        match self {
            Values::Address => 1 <= text.len() && text.len() <= LONGEST_ADDRESS,
            Values::Device => number_in(0, MOST_DEVICES as u32 - 1, bytes).is_some(),
            Values::Number(low, high) => number_in(low, high, bytes).is_some(),
            Values::Decibels => gain_in(bytes).is_some(),
            Values::SampleType => sample_type(bytes).is_some(),
            Values::Form => form_in(text).is_some(),
            Values::Order => order_in(text).is_some(),
            Values::Switch => switch_in("on", "off", text).is_some(),
            Values::DeviceChoice => choice_in(text).is_some(),
            Values::EventKinds => kinds_in(text).is_some(),
            Values::Digits => states_digits(bytes),
            Values::Command => 1 <= text.len() && text.len() <= LONGEST_COMMAND,
            Values::Flag => true,
        }
    }
}

impl fmt::Display for Values {
    fn fmt<W: Write>(&self, f: &mut Formatter<W>) -> fmt::Result {
        match self {
            Values::Address => f.write_str("HOST:PORT"),
            Values::Device => {
                let last = MOST_DEVICES - 1;
                write!(f, "0..{last}")
            }
            Values::Number(low, high) => write!(f, "{low}..{high}"),
            Values::Decibels => f.write_str("-30..30"),
            Values::SampleType => f.write_str("mu255|alaw|lin16|lin32"),
            Values::Form => f.write_str("raw|au|wave"),
            Values::Order => f.write_str("big|little"),
            Values::Switch => f.write_str("on|off"),
            Values::DeviceChoice => {
                let last = MOST_DEVICES - 1;
                write!(f, "0..{last}|all")
            }
            Values::EventKinds => f.write_str("ring,digit,loop,hook"),
            Values::Digits => f.write_str("DIGITS"),
            Values::Command => f.write_str("COMMAND"),
            Values::Flag => Ok(()),
        }
    }
}

impl<'a> fmt::Display for Argument<'a> {
    fn fmt<W: Write>(&self, f: &mut Formatter<W>) -> fmt::Result {
        let name = self.name;
        let values = self.values;
        match values {
            Values::Address => f.write_str(name),
            Values::Flag => write!(f, "--{name}"),
            _ => write!(f, "--{name}={values}"),
        }
    }
}
