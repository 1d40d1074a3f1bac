// The lines of the log: at most 50 in a second, 25 of them on connections, and none that standard error does not take at once.
use crate::level::{Fronts, Level};
use crate::outlet::Outlet;
use crate::quota::Quota;
use crate::refusal::Refusal;
use af_io::Reason;
use af_process::{Finished, Started};
use af_shown::Shown;
use af_world::Kind;
use std::cell::{Cell, RefCell};
use std::fmt;
use std::fmt::{Display, Formatter, Write};
use std::time::Clock;

const NANOS_A_SECOND: u64 = 1_000_000_000;

/// How many lines are written in a second, and how many of them on connections: many clients hide nothing of a device.
const MOST_LINES: u32 = 50;

const MOST_CONNECTION_LINES: u32 = 25;

/// The log of a server. It is written where details are wanted, by whoever holds a reference to it; and it keeps why the system
/// refused something last, wanted or not.
#[derive(Drop)]
pub struct Log<'a> {
    rt: &'a HostRuntime,
    outlet: RefCell<Outlet>,
    is_wanted: bool,
    fronts: Fronts,
    /// All lines of a second, and those on connections.
    lines: Cell<Quota>,
    connection_lines: Cell<Quota>,
    /// How many lines were left out since the last that says so, and a second of the clock: in a later one that is to be told.
    left_out: Cell<u64>,
    left_out_second: Cell<u64>,
    reason: Cell<Option<Reason>>,
    refusal: RefCell<Option<Refusal>>,
    /// The device that is attached now, the one with a codec, and how many starts its program has left.
    attaching: Cell<u8>,
    codec: Cell<u8>,
    starts: Cell<u32>,
    /// How many pieces of sound that program did not take in time, since it was told of last.
    late: Cell<u64>,
    /// The second of the clock in which it was told last that device time is late.
    late_second: Cell<u64>,
}

impl<'a> Log<'a> {
    /// A log without lines, each of which will have such a front. All its memory is taken here. If there is none, lines are
    /// written nevertheless.
    pub fn new(rt: &'a HostRuntime, is_wanted: bool, fronts: Fronts) -> Log<'a> {
        let outlet = if is_wanted {
            Outlet::new(rt)
        } else {
            Outlet::Plain
        };
        Log {
            rt,
            outlet: RefCell::new(outlet),
            is_wanted,
            fronts,
            lines: Cell::new(Quota::new(MOST_LINES)),
            connection_lines: Cell::new(Quota::new(MOST_CONNECTION_LINES)),
            left_out: Cell::new(0),
            left_out_second: Cell::new(0),
            reason: Cell::new(None),
            refusal: RefCell::new(None),
            attaching: Cell::new(0),
            codec: Cell::new(0),
            starts: Cell::new(0),
            late: Cell::new(0),
            late_second: Cell::new(0),
        }
    }

    /// Whether lines are wanted.
    pub fn is_wanted(&self) -> bool {
        self.is_wanted
    }

    /// Writes a line, if lines are wanted. One for which this second or standard error has no room is left out, and counted.
    pub fn line<D: Display + Drop>(&self, level: Level, text: D) {
        if self.is_wanted && !self.try_line(level, text) {
            self.leave_out();
        }
    }

    /// Writes a line on a connection, as `line` does.
    pub(crate) fn connection_line<D: Display + Drop>(&self, text: D) {
        if self.is_wanted && !self.try_connection_line(text) {
            self.leave_out();
        }
    }

    /// Writes a line, if this second and standard error have room for it. Whether it was written. One that was not is to be told
    /// later by who wanted it.
    pub(crate) fn try_line<D: Display + Drop>(&self, level: Level, text: D) -> bool {
        let second = self.second();
        self.tell_left_out(second);
        let mut quota = self.lines.get();
        if !quota.has_room(second) || !self.put(level, text) {
            return false;
        }
        quota.count(second);
        self.lines.set(quota);
        true
    }

    /// Writes a line on connections, as `try_line` does.
    pub(crate) fn try_connection_line<D: Display + Drop>(&self, text: D) -> bool {
        let second = self.second();
        let mut quota = self.connection_lines.get();
        if !quota.has_room(second) || !self.try_line(Level::Notice, text) {
            return false;
        }
        quota.count(second);
        self.connection_lines.set(quota);
        true
    }

    /// Writes the rest of a line of which a part was taken, and says how many lines were left out.
    pub fn catch_up(&self) {
        if let Ok(mut outlet) = self.outlet.try_borrow_mut() {
            outlet.catch_up();
        }
        if self.left_out.get() > 0 {
            self.tell_left_out(self.second());
        }
    }

    /// A device is attached now. If it has a codec, its program has as many starts as it may be started again, and one.
    pub(crate) fn attaches(&self, device: u8, kind: Kind<'_>) {
        self.attaching.set(device);
        if let Kind::Codec { restarts, words: _ } = kind {
            self.codec.set(device);
            self.starts.set(restarts.saturating_add(1));
        }
    }

    /// A file is opened now, for the device that is attached.
    pub(crate) fn opens(&self, name: &str) {
        let device = self.attaching.get();
        if name.ends_with("\r") {
            self.line(
                Level::Warning,
                format_args!(
                    "device {device}: the name ends in a carriage return, as Windows ends lines"
                ),
            );
        }
        let name = Shown::new(name.as_bytes());
        self.line(
            Level::Information,
            format_args!("device {device}: opening {name}"),
        );
    }

    /// Notes why the system refused a call.
    pub(crate) fn note(&self, reason: Reason) {
        self.reason.set(Some(reason));
    }

    /// Why the system refused a call last, which is forgotten then.
    pub(crate) fn take_reason(&self) -> Option<Reason> {
        self.reason.take()
    }

    /// Notes that the system refused to open a file, and why.
    pub(crate) fn note_refusal(&self, name: &str, reason: Reason) {
        if let Ok(name) = String::from_str(self.rt.alloc(), name) {
            let _ = self.refusal.try_replace(Some(Refusal { name, reason }));
        }
    }

    /// The file that the system refused to open last, if there is one, which is forgotten then.
    pub fn take_refusal(&self) -> Option<Refusal> {
        match self.refusal.try_replace(None) {
            Ok(refusal) => refusal,
            Err(_) => None,
        }
    }

    /// The count of the pieces of sound that a program did not take in time.
    pub(crate) fn late(&self) -> &Cell<u64> {
        &self.late
    }

    /// Tells that the program of a codec was started, or could not be.
    pub(crate) fn tell_start(&self, started: Started) {
        let device = self.codec.get();
        match started {
            Started::Child(_) => {
                self.starts.set(self.starts.get().saturating_sub(1));
                self.line(
                    Level::Notice,
                    format_args!("device {device}: its program was started"),
                );
            }
            Started::Failed => {
                self.starts.set(self.starts.get().saturating_sub(1));
                let next = self.next_start();
                match self.take_reason() {
                    Some(reason) => self.line(
                        Level::Warning,
                        format_args!(
                            "device {device}: its program could not be started: {reason}; {next}"
                        ),
                    ),
                    None => self.line(
                        Level::Warning,
                        format_args!("device {device}: its program could not be started; {next}"),
                    ),
                }
            }
            Started::OutOfMemory => self.line(
                Level::Warning,
                format_args!("device {device}: there was no memory to start its program"),
            ),
        }
    }

    /// Tells that the program of a codec has ended.
    pub(crate) fn tell_end(&self, finished: Finished) {
        let device = self.codec.get();
        let next = self.next_start();
        let was_late = self.late.take() > 0;
        match finished {
            Finished::Ended(status) if was_late => self.line(
                Level::Warning,
                format_args!(
                    "device {device}: its program did not take its sound in time, and ended with status {status}; {next}"
                ),
            ),
            Finished::Ended(status) => self.line(
                Level::Warning,
                format_args!("device {device}: its program ended with status {status}; {next}"),
            ),
            Finished::Failed => self.line(
                Level::Warning,
                format_args!("device {device}: its program took no sound any more; {next}"),
            ),
        }
    }

    /// Tells how late device time is, at most once a second.
    pub(crate) fn tell_late(&self, millis: u64) {
        let second = self.second();
        if second != self.late_second.get() {
            self.late_second.set(second);
            self.line(
                Level::Warning,
                format_args!("late by {millis} milliseconds"),
            );
        }
    }

    /// When the program of the codec is started again.
    fn next_start(&self) -> NextStart {
        NextStart {
            left: self.starts.get(),
        }
    }

    /// What the clock shows, in nanoseconds, or zero if it cannot be read.
    pub(crate) fn nanos(&self) -> u64 {
        match self.rt.monotonic() {
            Ok(shown) => u64::try_from(shown.as_nanos()).unwrap_or(0),
            Err(_) => 0,
        }
    }

    /// The second of the clock that it is, or zero if it cannot be read.
    fn second(&self) -> u64 {
        self.nanos() / NANOS_A_SECOND
    }

    /// Says how many lines were left out, at most once in a second. If that finds no room, they are still to be told.
    fn tell_left_out(&self, second: u64) {
        let count = self.left_out.get();
        if count > 0 && second != self.left_out_second.get() {
            self.left_out_second.set(second);
            if self.put(Level::Warning, format_args!("{count} lines left out")) {
                self.left_out.set(0);
            }
        }
    }

    /// Writes a line, if standard error takes it. Whether it did.
    fn put<D: Display + Drop>(&self, level: Level, text: D) -> bool {
        match self.outlet.try_borrow_mut() {
            Ok(mut outlet) => outlet.put(self.rt, self.fronts.front(level), text),
            Err(_) => false,
        }
    }

    /// A line is left out. That is told in a later second.
    fn leave_out(&self) {
        let count = self.left_out.get();
        if count == 0 {
            self.left_out_second.set(self.second());
        }
        self.left_out.set(count.saturating_add(1));
    }
}

/// When a program is started again, by how many starts it has left.
#[derive(Clone, Copy)]
struct NextStart {
    left: u32,
}

impl fmt::Display for NextStart {
    fn fmt<W: Write>(&self, f: &mut Formatter<W>) -> fmt::Result {
        match self.left {
            0 => f.write_str("it has no start left"),
            1 => f.write_str("the next sound starts it again, for the last time"),
            left => write!(f, "the next sound starts it again; {left} starts are left"),
        }
    }
}
