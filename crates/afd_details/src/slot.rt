// What may stand at a place of a line of a configuration or of a script.
use crate::stated::DeviceSet;
use af_config::{MOST_CARD_RESTARTS, MOST_RESTARTS};
use af_limits::{LONGEST_SEND, LONGEST_TICK, MOST_LINKS};
use af_phone::is_digit;
use af_text::{is_word, listed_rate, number, number_between, sample_type};

/// Links are numbered from 0 to this.
const LAST_LINK: u32 = MOST_LINKS as u32 - 1;

/// What may stand at a place.
#[derive(Clone, Copy)]
pub(crate) enum Slot {
    /// The first word of a line of a configuration.
    Device,
    /// The first word of a line of a script.
    Statement,
    Type,
    Rate,
    Start,
    /// The backend of a device, and before it, as far as they may come, `line` and `stereo`.
    Kind { stereo: bool, line: bool },
    /// `stereo` or `line`, or nothing, at the end of a device of a script.
    Ending { stereo: bool },
    Input,
    Output,
    CodecRestarts,
    CardRestarts,
    /// The name of a program, of at most so many bytes.
    Program(usize),
    /// Another word of a program, of at most so many bytes.
    Argument(usize),
    Link,
    Bytes,
    Room,
    /// One of so many devices.
    DeviceNumber(usize),
    /// One of these devices.
    LineNumber(DeviceSet),
    Frames,
    /// So many bytes, or nothing.
    Captured(usize),
    Switch,
    Digit,
    /// Nothing more, after a whole line.
    End,
    /// Nothing more, after the eight words of a program.
    NinthWord,
    /// No device line, since there are eight before it.
    NinthDevice,
    /// No device line, since there is a step before it.
    LateDevice,
    /// No step, since there is no device line before it.
    EarlyStep,
    /// No codec, since there is one before it.
    SecondCodec,
    /// Nothing but `phone`, since there is a phone line before it.
    Phone,
    /// No device line, since there is a phone line before it.
    DeviceAfterPhone,
    /// No phone line, since there is no device line before it.
    PhoneBeforeDevice,
    /// Another device, since this one has no telephone line.
    DeviceWithoutLine(u64),
    /// Another device, since the telephone line of this one has a program.
    SecondProgram(u64),
}

impl Slot {
    /// Whether a word may stand there.
    pub fn takes(self, word: &[u8]) -> bool {
        match self {
            Slot::Device => is_word(word, b"device"),
            Slot::Type => sample_type(word).is_some(),
            Slot::Rate => listed_rate(word).is_some(),
            Slot::Start => number_between(0, u32::MAX, word).is_some(),
            Slot::Kind { .. } => names_kind(word),
            Slot::Input | Slot::Output => true,
            Slot::CodecRestarts => number_between(0, MOST_RESTARTS, word).is_some(),
            Slot::CardRestarts => number_between(0, MOST_CARD_RESTARTS, word).is_some(),
            Slot::Program(longest) | Slot::Argument(longest) => word.len() <= longest,
            Slot::Link => number_between(0, LAST_LINK, word).is_some(),
            Slot::Bytes => matches!(hex_bytes(word), Some(1..=LONGEST_SEND)),
            Slot::Room => is_word(word, b"all") || number_between(0, u32::MAX, word).is_some(),
            Slot::DeviceNumber(count) => is_below(word, count),
            Slot::LineNumber(lines) => lines.has(word),
            Slot::Frames => number_between(1, LONGEST_TICK, word).is_some(),
            Slot::Captured(count) => hex_bytes(word) == Some(count),
            Slot::Switch => is_word(word, b"on") || is_word(word, b"off"),
            Slot::Digit => is_one_digit(word),
            _ => false,
        }
    }
}

/// Whether a word names the backend of a device.
fn names_kind(word: &[u8]) -> bool {
    is_word(word, b"silent")
        || is_word(word, b"files")
        || is_word(word, b"loop")
        || is_word(word, b"codec")
        || is_word(word, b"speaker")
        || is_word(word, b"microphone")
        || is_word(word, b"card")
        || is_word(word, b"encoder")
}

/// How many bytes a word in hexadecimal states.
fn hex_bytes(word: &[u8]) -> Option<usize> {
    if word.len() % 2 == 0 && word.iter().all(|digit| digit.is_ascii_hexdigit()) {
        Some(word.len() / 2)
    } else {
        None
    }
}

/// Whether a word is a number below a count.
fn is_below(word: &[u8], count: usize) -> bool {
    match number(word) {
        Some(number) => number < count as u64,
        None => false,
    }
}

/// Whether a word is a digit of a telephone.
fn is_one_digit(word: &[u8]) -> bool {
    match word {
        [code] => is_digit(*code),
        _ => false,
    }
}
