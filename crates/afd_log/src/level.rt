// How much a line of the log matters, as a journal has it, and what a line begins with.
use jiff::Timestamp;
use std::env::Env;
use std::fmt::{Display, Formatter, Write};
use std::time::Clock;
use std::{env, fmt};

/// How much a line matters. The numbers are those of sd-daemon(3).
#[derive(Clone, Copy)]
pub enum Level {
    /// A device is dead, or the server has ended.
    Error,
    /// Sound is lost or late, or a program has to be started again.
    Warning,
    /// A connection, or a program that was started.
    Notice,
    /// Anything else.
    Information,
}

/// What the lines begin with, beside the name of the program.
#[derive(Clone, Copy)]
pub struct Fronts {
    /// Whether a journal takes the lines, and wants the level of each.
    has_levels: bool,
}

impl Fronts {
    /// What the environment asks for: levels, if `AUDIOFILE_LEVELS` is set to anything but nothing or 0.
    pub fn of_environment(rt: &HostRuntime) -> Fronts {
        Fronts {
            has_levels: is_set(rt, "AUDIOFILE_LEVELS"),
        }
    }

    /// No levels.
    pub const PLAIN: Fronts = Fronts { has_levels: false };

    /// What a line of this level begins with.
    pub fn front(self, level: Level) -> Front {
        Front {
            level: if self.has_levels { Some(level) } else { None },
        }
    }
}

/// What a line begins with: its level, if a journal wants it, and the name of the program.
#[derive(Clone, Copy)]
pub struct Front {
    level: Option<Level>,
}

impl Front {
    /// The same with the time that it is, for a file. A journal has times of its own.
    pub(crate) fn with_time(self, rt: &HostRuntime) -> TimedFront {
        TimedFront {
            front: self,
            time: if self.level.is_some() {
                None
            } else {
                time_of_day(rt)
            },
        }
    }
}

impl Display for Front {
    fn fmt<W: Write>(&self, f: &mut Formatter<W>) -> fmt::Result {
        f.write_str(match self.level {
            None => "afd: ",
            Some(Level::Error) => "<3>afd: ",
            Some(Level::Warning) => "<4>afd: ",
            Some(Level::Notice) => "<5>afd: ",
            Some(Level::Information) => "<6>afd: ",
        })
    }
}

/// What a line of a file begins with.
#[derive(Clone, Copy)]
pub(crate) struct TimedFront {
    front: Front,
    time: Option<Timestamp>,
}

impl Display for TimedFront {
    fn fmt<W: Write>(&self, f: &mut Formatter<W>) -> fmt::Result {
        let front = self.front;
        match self.time {
            Some(time) => write!(f, "{front}{time} "),
            None => write!(f, "{front}"),
        }
    }
}

/// The date and the time of day in UTC, to the second, if the clock can be read.
fn time_of_day(rt: &HostRuntime) -> Option<Timestamp> {
    let shown = rt.since_1970().ok()?;
    let second = i64::try_from(shown.as_secs()).ok()?;
    Timestamp::from_second(second).ok()
}

/// Whether a variable of the environment is set to anything but nothing or 0.
fn is_set(rt: &HostRuntime, name: &str) -> bool {
    match env::var(rt, name) {
        Ok(value) => value.as_str() != "" && value.as_str() != "0",
        Err(env::VarError::NotPresent) => false,
        Err(_) => true,
    }
}
