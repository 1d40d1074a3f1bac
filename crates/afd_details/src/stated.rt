// What the lines before a faulty one state, as far as that one depends on it.
use crate::line_words::LineWords;
use af_limits::MOST_DEVICES;
use af_text::{channel_count, is_word, next_line, next_word, number, passes_over, sample_type};

/// Some of the devices.
#[derive(Clone, Copy)]
pub(crate) struct DeviceSet {
    members: [bool; MOST_DEVICES],
}

impl DeviceSet {
    /// None of them.
    fn none() -> DeviceSet {
        DeviceSet {
            members: [false; MOST_DEVICES],
        }
    }

    /// Adds the device whose number a word is.
    fn add(&mut self, word: &[u8]) {
        if let Some(number) = number(word)
            && number < MOST_DEVICES as u64
        {
            self.members[number as usize] = true;
        }
    }

    /// Whether a word is the number of one of them.
    pub fn has(&self, word: &[u8]) -> bool {
        match number(word) {
            Some(number) if number < MOST_DEVICES as u64 => self.members[number as usize],
            _ => false,
        }
    }

    /// Whether there is none.
    pub fn are_none(&self) -> bool {
        !self.members.contains(&true)
    }
}

/// The devices, the programs of telephone lines and the steps that lines state.
#[derive(Clone, Copy)]
pub(crate) struct Stated {
    pub devices: usize,
    /// The devices with a telephone line.
    pub lines: DeviceSet,
    /// The devices whose telephone line has a program.
    pub programs: DeviceSet,
    pub has_steps: bool,
    pub has_codec: bool,
    frame_bytes: [usize; MOST_DEVICES],
}

impl Stated {
    /// Nothing so far.
    fn nothing() -> Stated {
        Stated {
            devices: 0,
            lines: DeviceSet::none(),
            programs: DeviceSet::none(),
            has_steps: false,
            has_codec: false,
            frame_bytes: [0; MOST_DEVICES],
        }
    }

    /// How many bytes a frame of a device has.
    pub fn frame_bytes(&self, word: &[u8]) -> usize {
        match number(word) {
            Some(number) if number < MOST_DEVICES as u64 => self.frame_bytes[number as usize],
            _ => 0,
        }
    }

    /// Adds what a line states that is at no fault.
    fn add(&mut self, line: &[u8]) {
        if passes_over(line) {
            return;
        }
        match next_word(line) {
            Some((name, arguments)) if is_word(name, b"device") => self.add_device(arguments),
            Some((name, arguments)) if is_word(name, b"phone") => self.add_program(arguments),
            _ => self.has_steps = true,
        }
    }

    /// Adds the device of `TYPE RATE START` and what follows.
    fn add_device(&mut self, arguments: &[u8]) {
        let place = self.devices;
        if place >= MOST_DEVICES {
            return;
        }
        let mut words = LineWords::new(arguments);
        let ty = words.next();
        let _rate = words.next();
        let _start = words.next();
        let (channels, rest) = channel_count(words.rest());
        if let Some(ty) = ty
            && let Some(ty) = sample_type(ty)
        {
            self.frame_bytes[place] = ty.frame_bytes(channels);
        }
        let mut words = LineWords::new(rest);
        self.lines.members[place] = words.skip(b"line");
        self.has_codec |= words.skip(b"codec");
        self.devices = place + 1;
    }

    /// Adds the program of `DEVICE RESTARTS WORD ..`.
    fn add_program(&mut self, arguments: &[u8]) {
        if let Some((device, _)) = next_word(arguments) {
            self.programs.add(device);
        }
    }
}

/// The line of a text with a number, which counts from 1, and what those before it state. None where there are not so many.
pub(crate) fn line_numbered(text: &[u8], wanted: u32) -> (Option<&[u8]>, Stated) {
    let mut stated = Stated::nothing();
    let mut rest = text;
    for _number in 1..wanted {
        if rest.is_empty() {
            return (None, stated);
        }
        let (line, after) = next_line(rest);
        stated.add(line);
        rest = after;
    }
    if rest.is_empty() {
        return (None, stated);
    }
    let (line, _) = next_line(rest);
    (Some(line), stated)
}
