// The tools of `af`, as they are shown to a person.
ghost use Rattle.std.specs.Prelude.{◌≡◌};
ghost use Rattle.af_details.specs.Pages.{command_named};

use af_attendant::attendant_arguments;
use af_cli::{Absent, Argument, Tool, tool_named};
use af_events::events_arguments;
use af_logger::log_arguments;
use af_meter::meter_arguments;
use std::fmt;
use std::fmt::{Formatter, Write};

/// A tool of `af`.
#[derive(Clone, Copy, Debug, PartialEq, Eq)]
pub enum Command {
    Tool(Tool),
    Answer,
    Events,
    Meter,
    Log,
}

impl Command {
    /// The tool of a name.
    pub fn named(name: &str) -> Option<Command>
        ensures { result ≡ command_named name.now }
    {
        if name == "answer" {
            return Some(Command::Answer);
        }
        if name == "events" {
            return Some(Command::Events);
        }
        if name == "meter" {
            return Some(Command::Meter);
        }
        if name == "log" {
            return Some(Command::Log);
        }
        let tool = tool_named(name)?;
        Some(Command::Tool(tool))
    }

    /// Its name.
    pub fn name<'a>(self) -> &'a str {
        match self {
            Command::Tool(tool) => tool.name(),
            Command::Answer => "answer",
            Command::Events => "events",
            Command::Meter => "meter",
            Command::Log => "log",
        }
    }

    /// What it does.
    pub fn what<'a>(self) -> &'a str {
        match self {
            Command::Tool(tool) => tool.what(),
            Command::Answer => "takes calls of a telephone line, greets and records messages",
            Command::Events => "tells what happens on a telephone line, a line for each event",
            Command::Meter => "tells how loud a device is, a line for each interval or change",
            Command::Log => "records without an end, and hands each piece to a command",
        }
    }

    /// Its arguments.
    pub fn arguments<'a>(self) -> &'a [Argument<'a>] {
        match self {
            Command::Tool(tool) => tool.arguments(),
            Command::Answer => attendant_arguments(),
            Command::Events => events_arguments(),
            Command::Meter => meter_arguments(),
            Command::Log => log_arguments(),
        }
    }

    /// Two options of which exactly one has to be there, if it has such.
    pub fn choice<'a>(self) -> Option<(Argument<'a>, Argument<'a>)> {
        let mut first = None;
        for argument in self.arguments() {
            if matches!(argument.absent, Absent::Either) {
                match first {
                    None => first = Some(*argument),
                    Some(one) => return Some((one, *argument)),
                }
            }
        }
        None
    }
}

impl fmt::Display for Command {
    fn fmt<W: Write>(&self, f: &mut Formatter<W>) -> fmt::Result {
        let name = self.name();
        write!(f, "af {name}")?;
        let choice = self.choice();
        for argument in self.arguments() {
            match argument.absent {
                Absent::Missing | Absent::Unless(_) => write!(f, " {argument}")?,
                Absent::Either => {
                    if let Some((one, other)) = choice
                        && argument.name == one.name
                    {
                        write!(f, " ({one} | {other})")?;
                    }
                }
                Absent::Default(_) | Absent::Otherwise(_) => write!(f, " [{argument}]")?,
            }
        }
        Ok(())
    }
}
