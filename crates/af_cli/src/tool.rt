// The tools: their names and their arguments.
ghost use Rattle.std.specs.Prelude.{◌≡◌, map};
ghost use Rattle.af_cli.specs.Arguments.{as_listed, tool_arguments};
ghost use Rattle.af_cli.specs.Words.{tool_name, tool_named};

use crate::argument::Argument;
use crate::arguments::{LIST, PASS, PLAY, RECORD, SET};

/// A tool.
#[derive(Clone, Copy, Debug, PartialEq, Eq)]
pub enum Tool {
    Play,
    Record,
    Set,
    Pass,
    List,
}

impl Tool {
    /// Its name.
    pub fn name<'a>(self) -> &'a str
        ensures { result.now ≡ tool_name self }
    {
        match self {
            Tool::Play => "aplay",
            Tool::Record => "arecord",
            Tool::Set => "aset",
            Tool::Pass => "apass",
            Tool::List => "list",
        }
    }

    /// What it does.
    pub fn what<'a>(self) -> &'a str {
        match self {
            Tool::Play => "plays what standard input gives",
            Tool::Record => "records to standard output",
            Tool::Set => "sets the controls of a device, and tells how they stand",
            Tool::Pass => "passes sound from one server to another",
            Tool::List => "tells what devices a server has, and how they stand",
        }
    }

    /// Its arguments: servers first, then what has to be there.
    #[tactic(auto, unfolding(crate::specs::Arguments::play_arguments, crate::specs::Arguments::record_arguments, crate::specs::Arguments::set_arguments, crate::specs::Arguments::pass_arguments, crate::specs::Arguments::list_arguments))]
    pub fn arguments<'a>(self) -> &'a [Argument<'a>]
        ensures { map as_listed result.now ≡ tool_arguments self }
    {
        match self {
            Tool::Play => PLAY.as_slice(),
            Tool::Record => RECORD.as_slice(),
            Tool::Set => SET.as_slice(),
            Tool::Pass => PASS.as_slice(),
            Tool::List => LIST.as_slice(),
        }
    }
}

/// The tool with a name.
pub fn tool_named(name: &str) -> Option<Tool>
    ensures { result ≡ tool_named name.now }
{
    if name == Tool::Play.name() {
        Some(Tool::Play)
    } else if name == Tool::Record.name() {
        Some(Tool::Record)
    } else if name == Tool::Set.name() {
        Some(Tool::Set)
    } else if name == Tool::Pass.name() {
        Some(Tool::Pass)
    } else if name == Tool::List.name() {
        Some(Tool::List)
    } else {
        None
    }
}
