// The first word of a line that is wrong at its place, and what may stand there.
use crate::slot::Slot;
use af_config::{MOST_CARD_RESTARTS, MOST_RESTARTS};
use af_limits::{LONGEST_SEND, LONGEST_TICK};
use af_shown::Shown;
use std::fmt;
use std::fmt::{Formatter, Write};

/// The first word that may not stand where it stands, counted from 1, or that the line ends there; and what may stand there.
#[derive(Clone, Copy)]
pub(crate) struct Finding<'a> {
    pub place: u32,
    pub word: Option<&'a [u8]>,
    pub slot: Slot,
}

impl fmt::Display for Finding<'_> {
    fn fmt<W: Write>(&self, f: &mut Formatter<W>) -> fmt::Result {
        let place = self.place;
        match self.word {
            Some(word) => write!(f, "word {place} is '{}': ", Shown::new(word))?,
            None => write!(f, "the line has no word {place}: ")?,
        }
        match self.slot {
            Slot::DeviceNumber(count) => write_device_number(count, f),
            Slot::Program(longest) => write!(
                f,
                "the name of a program was expected, of at most {longest} bytes"
            ),
            Slot::Argument(longest) => {
                write!(f, "a word of a program has at most {longest} bytes")
            }
            Slot::Captured(count) => write!(
                f,
                "the {count} bytes of so many frames were expected, two hexadecimal digits each, or nothing"
            ),
            Slot::LineNumber(lines) if lines.are_none() => f.write_str("no device has a line"),
            Slot::DeviceWithoutLine(device) => write!(f, "device {device} has no line"),
            Slot::SecondProgram(device) => {
                write!(f, "the line of device {device} has a program already")
            }
            slot => f.write_str(expectation(slot)),
        }
    }
}

/// Writes that the number of one of so many devices was expected.
fn write_device_number<W: Write>(count: usize, f: &mut Formatter<W>) -> fmt::Result {
    match count.saturating_sub(1) {
        0 => f.write_str("the number of a device was expected: there is 0 alone"),
        last => write!(f, "the number of a device was expected: 0 to {last}"),
    }
}

/// What was expected, or why nothing may stand there.
fn expectation(slot: Slot) -> &'static str {
    match slot {
        Slot::Device => "each line of a configuration begins with device or phone",
        Slot::Statement => {
            "a line of a script begins with device, open, send, end, room, tick, ring, loop, digit, failread, failwrite, \
             failcapture, failemit, failhook or idle"
        }
        Slot::NinthWord => "a program has at most 8 words: a script can hold a longer command",
        Slot::NinthDevice => "there are at most 8 devices",
        Slot::LateDevice => "device lines come before all steps",
        Slot::EarlyStep => "a script begins with a device line",
        Slot::SecondCodec => "at most one device has a codec",
        Slot::Phone => "each line after a phone line begins with phone",
        Slot::DeviceAfterPhone => "device lines come before all phone lines",
        Slot::PhoneBeforeDevice => "phone lines come after all device lines",
        Slot::End => "nothing more was expected",
        _ => word_expected(slot),
    }
}

/// Which word was expected.
fn word_expected(slot: Slot) -> &'static str {
    match slot {
        Slot::Type => "a sample type was expected: mu255, alaw, lin16 or lin32",
        Slot::Rate => { "a rate was expected: 8000, 11025, 16000, 22050, 32000, 44100 or 48000" }
        Slot::Start => "the device time of the start was expected: 0 to 4294967295",
        Slot::Kind { stereo, line } => kind_expected(stereo, line),
        Slot::Ending { stereo: true } => "stereo, line or nothing was expected",
        Slot::Ending { stereo: false } => "line or nothing was expected",
        Slot::Input => "the name of the file to capture from was expected",
        Slot::Output => "the name of the file to add sound to was expected",
        Slot::CodecRestarts => "how often the program may be started again was expected: 0 to 100",
        Slot::CardRestarts => {
            "how often the program may be started again was expected: 0 to 1000000"
        }
        Slot::Link => "the number of a link was expected: 0 to 31",
        Slot::Bytes => "1 to 16384 bytes were expected, two hexadecimal digits each",
        Slot::Room => "a number of bytes was expected, 0 to 4294967295, or all",
        Slot::Frames => "a number of frames was expected: 1 to 4096",
        Slot::Switch => "on or off was expected",
        Slot::Digit => "a digit was expected: one of 0123456789*#ABCD",
        _ => "the number of a device with a line was expected",
    }
}

/// What was expected where a kind may stand.
fn kind_expected(stereo: bool, line: bool) -> &'static str {
    match (stereo, line) {
        (true, _) => {
            "stereo, line or a kind of device was expected: silent, files, loop, codec, speaker, microphone, card or encoder"
        }
        (false, true) => {
            "line or a kind of device was expected: silent, files, loop, codec, speaker, microphone, card or encoder"
        }
        (false, false) => {
            "a kind of device was expected: silent, files, loop, codec, speaker, microphone, card or encoder"
        }
    }
}

// These texts state what the limits are.
const _: () = prove!(MOST_RESTARTS == 100);

const _: () = prove!(MOST_CARD_RESTARTS == 1000000);

const _: () = prove!(LONGEST_SEND == 16384);

const _: () = prove!(LONGEST_TICK == 4096);
