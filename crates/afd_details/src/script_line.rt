// What is wrong with a line of a script.
use crate::finding::Finding;
use crate::line_words::LineWords;
use crate::slot::Slot;
use crate::stated::Stated;
use af_limits::MOST_DEVICES;
use af_text::{is_word, number_between};

/// The first word of a line that may not stand where it stands, after lines that state this.
pub(crate) fn script_finding<'a>(line: &'a [u8], before: &Stated) -> Option<Finding<'a>> {
    match check_line(line, before) {
        Ok(()) => None,
        Err(finding) => Some(finding),
    }
}

/// A device, or a step.
fn check_line<'a>(line: &'a [u8], before: &Stated) -> Result<(), Finding<'a>> {
    let mut words = LineWords::new(line);
    let first = words;
    let name = words.next();
    if let Some(name) = name {
        if is_word(name, b"device") {
            if before.has_steps {
                return Err(first.finding(Slot::LateDevice));
            }
            if before.devices >= MOST_DEVICES {
                return Err(first.finding(Slot::NinthDevice));
            }
            return check_device(words);
        }
        if !is_step(name) {
            return Err(first.finding(Slot::Statement));
        }
        if before.devices == 0 {
            return Err(first.finding(Slot::EarlyStep));
        }
        check_step(name, words, before)
    } else {
        Err(first.finding(Slot::Statement))
    }
}

/// Whether a line that begins with this word is a step.
fn is_step(name: &[u8]) -> bool {
    match name {
        b"open" | b"send" | b"end" | b"room" | b"tick" | b"ring" | b"loop" | b"digit" => true,
        b"failread" | b"failwrite" | b"failcapture" | b"failemit" | b"failhook" | b"idle" => true,
        _ => false,
    }
}

/// `TYPE RATE START`, then `stereo` or nothing, then `line` or nothing
fn check_device<'a>(mut words: LineWords<'a>) -> Result<(), Finding<'a>> {
    words.take(Slot::Type)?;
    words.take(Slot::Rate)?;
    words.take(Slot::Start)?;
    let stereo = !words.skip(b"stereo");
    if words.skip(b"line") {
        return words.end(Slot::End);
    }
    words.end(Slot::Ending { stereo })
}

/// What follows the name of a step.
fn check_step<'a>(
    name: &[u8],
    mut words: LineWords<'a>,
    before: &Stated,
) -> Result<(), Finding<'a>> {
    let device = Slot::DeviceNumber(before.devices);
    let line = Slot::LineNumber(before.lines);
    match name {
        b"open" | b"end" | b"failread" | b"failwrite" => check_one(words, Slot::Link),
        b"send" => check_two(words, Slot::Link, Slot::Bytes),
        b"room" => check_two(words, Slot::Link, Slot::Room),
        b"tick" => check_tick(words, before),
        b"ring" | b"loop" => check_two(words, line, Slot::Switch),
        b"digit" => check_two(words, line, Slot::Digit),
        b"failcapture" | b"failemit" => check_one(words, device),
        b"failhook" => check_one(words, line),
        _ => words.end(Slot::End),
    }
}

/// One word, and no more.
fn check_one<'a>(mut words: LineWords<'a>, first: Slot) -> Result<(), Finding<'a>> {
    words.take(first)?;
    words.end(Slot::End)
}

/// Two words, and no more.
fn check_two<'a>(mut words: LineWords<'a>, first: Slot, second: Slot) -> Result<(), Finding<'a>> {
    words.take(first)?;
    words.take(second)?;
    words.end(Slot::End)
}

/// `D N`, or `D N HEX`
fn check_tick<'a>(mut words: LineWords<'a>, before: &Stated) -> Result<(), Finding<'a>> {
    let device = words.take(Slot::DeviceNumber(before.devices))?;
    let frames = words.take(Slot::Frames)?;
    if words.peek().is_none() {
        return Ok(());
    }
    let frames = number_between(0, u32::MAX, frames).unwrap_or(0);
    let count = before.frame_bytes(device).saturating_mul(frames as usize);
    words.take(Slot::Captured(count))?;
    words.end(Slot::End)
}
