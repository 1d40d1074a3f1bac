// What is wrong with a line of a configuration.
use crate::finding::Finding;
use crate::line_words::LineWords;
use crate::slot::Slot;
use crate::stated::Stated;
use af_config::{LONGEST_CODEC_WORD, LONGEST_WORD};
use af_limits::MOST_DEVICES;
use af_text::{is_word, number};

/// How many words a program may have after its name.
const MOST_ARGUMENTS: u32 = 7;

/// The first word of a line that may not stand where it stands, after lines that state this.
pub(crate) fn config_finding<'a>(line: &'a [u8], before: &Stated) -> Option<Finding<'a>> {
    match check_line(line, before) {
        Ok(()) => None,
        Err(finding) => Some(finding),
    }
}

/// A device line, or a phone line.
fn check_line<'a>(line: &'a [u8], before: &Stated) -> Result<(), Finding<'a>> {
    let first = LineWords::new(line);
    let mut words = first;
    if words.skip(b"phone") {
        if before.devices == 0 {
            return Err(first.finding(Slot::PhoneBeforeDevice));
        }
        return check_phone(words, before);
    }
    if before.programs.are_none() {
        check_device(first, before)
    } else if words.skip(b"device") {
        Err(first.finding(Slot::DeviceAfterPhone))
    } else {
        Err(first.finding(Slot::Phone))
    }
}

/// `device TYPE RATE START`, then `stereo` or nothing, then `line` or nothing, then the backend of the device.
fn check_device<'a>(mut words: LineWords<'a>, before: &Stated) -> Result<(), Finding<'a>> {
    if before.devices >= MOST_DEVICES {
        return Err(words.finding(Slot::NinthDevice));
    }
    words.take(Slot::Device)?;
    words.take(Slot::Type)?;
    words.take(Slot::Rate)?;
    words.take(Slot::Start)?;
    let stereo = !words.skip(b"stereo");
    let line = !words.skip(b"line");
    check_kind(
        words,
        Slot::Kind {
            stereo: stereo && line,
            line,
        },
        before.has_codec,
    )
}

/// `DEVICE RESTARTS WORD ..`, after `phone`
fn check_phone<'a>(mut words: LineWords<'a>, before: &Stated) -> Result<(), Finding<'a>> {
    let first = words;
    let device = words.take(Slot::DeviceNumber(before.devices))?;
    let place = number(device).unwrap_or(0);
    if !before.lines.has(device) {
        return Err(first.finding(Slot::DeviceWithoutLine(place)));
    }
    if before.programs.has(device) {
        return Err(first.finding(Slot::SecondProgram(place)));
    }
    check_program(words, Slot::CardRestarts, LONGEST_WORD)
}

/// `silent`, `loop`, `files INPUT OUTPUT`, or one of `codec`, `speaker`, `microphone`, `card` and `encoder` with
/// `RESTARTS WORD ..`
fn check_kind<'a>(
    mut words: LineWords<'a>,
    slot: Slot,
    has_codec: bool,
) -> Result<(), Finding<'a>> {
    let finding = words.finding(Slot::SecondCodec);
    let kind = words.take(slot)?;
    if is_word(kind, b"files") {
        words.take(Slot::Input)?;
        words.take(Slot::Output)?;
        return words.end(Slot::End);
    }
    if is_word(kind, b"silent") || is_word(kind, b"loop") {
        return words.end(Slot::End);
    }
    if !is_word(kind, b"codec") {
        return check_program(words, Slot::CardRestarts, LONGEST_WORD);
    }
    if has_codec {
        return Err(finding);
    }
    check_program(words, Slot::CodecRestarts, LONGEST_CODEC_WORD)
}

/// `RESTARTS WORD ..`, of words of at most so many bytes
fn check_program<'a>(
    mut words: LineWords<'a>,
    restarts: Slot,
    longest: usize,
) -> Result<(), Finding<'a>> {
    words.take(restarts)?;
    words.take(Slot::Program(longest))?;
    for _number in 0..MOST_ARGUMENTS {
        if words.peek().is_none() {
            return Ok(());
        }
        words.take(Slot::Argument(longest))?;
    }
    words.end(Slot::NinthWord)
}
