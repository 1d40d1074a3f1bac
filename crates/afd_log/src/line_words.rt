// What a telephone line does, and the program of one, in words.
use crate::device_words::write_words;
use crate::{Level, Log};
use af_phone::LineChange;
use af_world::LineProgram;
use std::fmt;
use std::fmt::{Display, Formatter, Write};

/// The program of the telephone line of a device.
#[derive(Clone, Copy)]
pub(crate) struct LineWords<'a> {
    pub number: u8,
    pub program: LineProgram<'a>,
}

impl Display for LineWords<'_> {
    fn fmt<W: Write>(&self, f: &mut Formatter<W>) -> fmt::Result {
        let number = self.number;
        let restarts = self.program.restarts;
        write!(
            f,
            "device {number}: phone, started again at most {restarts} times:"
        )?;
        write_words(self.program.words, f)
    }
}

/// Tells what changed on a line. A digit may be one of a secret, and is not told.
pub(crate) fn tell_change(log: &Log<'_>, device: u8, change: LineChange) {
    let what = match change {
        LineChange::Ring(true) => "its line rings",
        LineChange::Ring(false) => "its line rings no more",
        LineChange::Current(true) => "its line has loop current",
        LineChange::Current(false) => "its line has no loop current",
        LineChange::Digit(_) => "a digit was dialed on its line",
    };
    log.line(Level::Information, format_args!("device {device}: {what}"));
}

/// Tells how the hook of a line is.
pub(crate) fn tell_hook(log: &Log<'_>, device: u8, off: bool) {
    let how = if off { "off the hook" } else { "on the hook" };
    log.line(
        Level::Information,
        format_args!("device {device}: its phone is {how}"),
    );
}
