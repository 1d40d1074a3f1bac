// The lines of the log on the programs of devices and of telephone lines.
use crate::watched_programs::WatchedProgram;
use crate::{Level, Log};
use af_card::Card;
use af_exchange::Exchange;
use af_limits::MOST_DEVICES;
use std::fmt;
use std::fmt::{Display, Formatter, Write};

const NANOS_A_SECOND: u64 = 1_000_000_000;

/// Whose program it is: that of a device whose time it is, or of the telephone line of one.
#[derive(Clone, Copy)]
enum Owner {
    Device(u8),
    Line(u8),
}

impl Display for Owner {
    fn fmt<W: Write>(&self, f: &mut Formatter<W>) -> fmt::Result {
        match self {
            Owner::Device(device) => write!(f, "device {device}: its program"),
            Owner::Line(device) => write!(f, "device {device}: the program of its line"),
        }
    }
}

/// How a program stands now: how many starts were tried, whether it runs, when the next start may come, and how many are left.
#[derive(Clone, Copy)]
struct Standing {
    starts: u32,
    runs: bool,
    next: Option<u64>,
    left: u32,
}

/// What was told of the program of each device, and of that of each line.
#[derive(Clone, Copy)]
pub struct ProgramLines {
    cards: [ToldProgram; MOST_DEVICES],
    lines: [ToldProgram; MOST_DEVICES],
    losses: [ToldLoss; MOST_DEVICES],
}

/// How many starts of a program were told, and whether its end is to be told still.
#[derive(Clone, Copy)]
struct ToldProgram {
    starts: u32,
    runs: bool,
}

impl ProgramLines {
    /// Nothing was told.
    pub fn new() -> ProgramLines {
        let nothing = ToldProgram {
            starts: 0,
            runs: false,
        };
        ProgramLines {
            cards: [nothing; MOST_DEVICES],
            lines: [nothing; MOST_DEVICES],
            losses: [ToldLoss::NONE; MOST_DEVICES],
        }
    }

    /// Tells what the program of a device has done since the last time, and what sound it had no room for.
    pub fn tell_card(&mut self, log: &Log<'_>, device: u8, card: &Card<WatchedProgram<'_>>) {
        let standing = Standing {
            starts: card.tried(),
            runs: card.runs(),
            next: card.next_start(),
            left: card.starts_left(),
        };
        if let Some(told) = self.cards.get_mut(device as usize) {
            tell(log, Owner::Device(device), standing, card.program(), told);
        }
        if let Some(told) = self.losses.get_mut(device as usize) {
            told.tell(log, device, card);
        }
    }

    /// Tells what the program of a telephone line has done since the last time.
    pub fn tell_line(
        &mut self,
        log: &Log<'_>,
        device: u8,
        exchange: &Exchange<WatchedProgram<'_>>,
    ) {
        let standing = Standing {
            starts: exchange.tried(),
            runs: exchange.runs(),
            next: exchange.next_start(),
            left: exchange.starts_left(),
        };
        if let Some(told) = self.lines.get_mut(device as usize) {
            tell(log, Owner::Line(device), standing, exchange.program(), told);
        }
    }
}

/// What was told of the sound that a card did not take.
#[derive(Clone, Copy)]
struct ToldLoss {
    /// How many lost frames were told, and from which moment on more may be told.
    frames: u64,
    next: u64,
    /// When its input was seen closed while it goes on, and whether that was told.
    closed_at: Option<u64>,
    is_closed_told: bool,
}

impl ToldLoss {
    /// Nothing was told.
    const NONE: ToldLoss = ToldLoss {
        frames: 0,
        next: 0,
        closed_at: None,
        is_closed_told: false,
    };

    /// Tells how many frames a card had no room for since the last time, and that it takes no sound any more.
    fn tell(&mut self, log: &Log<'_>, device: u8, card: &Card<WatchedProgram<'_>>) {
        let frames = card.lost();
        if frames != self.frames {
            self.tell_frames(log, device, frames);
        }
        if card.runs() && !card.takes() {
            self.tell_closed(log, device);
        } else {
            self.closed_at = None;
            self.is_closed_told = false;
        }
    }

    /// Tells how many frames were lost since the last time, unless that was less than a second ago. Those for which the log has
    /// no room now are told with the next ones.
    fn tell_frames(&mut self, log: &Log<'_>, device: u8, frames: u64) {
        let now = log.nanos();
        if now < self.next {
            return;
        }
        let lost = frames.saturating_sub(self.frames);
        if log.try_line(
            Level::Warning,
            format_args!("device {device}: its program had no room, and {lost} frames were lost"),
        ) {
            self.frames = frames;
            self.next = now.saturating_add(NANOS_A_SECOND);
        }
    }

    /// Tells that a program takes no sound any more, a second after that was seen: one that ends meanwhile is told of by its end.
    fn tell_closed(&mut self, log: &Log<'_>, device: u8) {
        if self.is_closed_told {
            return;
        }
        let now = log.nanos();
        match self.closed_at {
            None => self.closed_at = Some(now),
            Some(at) if now.saturating_sub(at) >= NANOS_A_SECOND => {
                self.is_closed_told = true;
                log.line(
                    Level::Warning,
                    format_args!("device {device}: its program takes no more sound"),
                );
            }
            Some(_) => {}
        }
    }
}

/// Tells what a program has done since the last time.
fn tell(
    log: &Log<'_>,
    owner: Owner,
    standing: Standing,
    program: &WatchedProgram<'_>,
    told: &mut ToldProgram,
) {
    if standing.starts != told.starts {
        told.starts = standing.starts;
        told.runs = standing.runs;
        tell_start(log, owner, standing, program);
    } else if told.runs
        && !standing.runs
        && let Some(status) = program.ended()
    {
        told.runs = false;
        let next = NextStart::of(log, standing);
        log.line(
            Level::Warning,
            format_args!("{owner} ended with status {status}; {next}"),
        );
    }
}

/// Tells that a program was started, or could not be.
fn tell_start(log: &Log<'_>, owner: Owner, standing: Standing, program: &WatchedProgram<'_>) {
    if standing.runs {
        log.line(Level::Notice, format_args!("{owner} was started"));
        return;
    }
    let _ = log.take_reason();
    let next = NextStart::of(log, standing);
    match program.reason() {
        Some(reason) => log.line(
            Level::Warning,
            format_args!("{owner} could not be started: {reason}; {next}"),
        ),
        None => log.line(
            Level::Warning,
            format_args!("{owner} could not be started; {next}"),
        ),
    }
}

/// When a program is started again: in so many seconds, if a start is left, and of how many.
#[derive(Clone, Copy)]
struct NextStart {
    seconds: Option<u64>,
    left: u32,
}

impl NextStart {
    fn of(log: &Log<'_>, standing: Standing) -> NextStart {
        let now = log.nanos();
        NextStart {
            seconds: standing
                .next
                .map(|next| next.saturating_sub(now).div_ceil(NANOS_A_SECOND)),
            left: standing.left,
        }
    }
}

impl Display for NextStart {
    fn fmt<W: Write>(&self, f: &mut Formatter<W>) -> fmt::Result {
        match (self.seconds, self.left) {
            (None, _) => f.write_str("it has no start left"),
            (Some(0), _) => f.write_str("it is started again now"),
            (Some(seconds), 1) => write!(
                f,
                "it is started again in {seconds} s, for the last time"
            ),
            (Some(seconds), left) => write!(
                f,
                "it is started again in {seconds} s; {left} starts are left"
            ),
        }
    }
}
