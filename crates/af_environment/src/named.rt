// Which tool words name.
ghost use Rattle.std.specs.Prelude.{◌≡◌};
ghost use Rattle.af_environment.specs.Completed.{named_tool};

use af_answer::names_answer;
use af_attendant::names_attendant;
use af_events::names_events;
use af_io::Args;
use af_logger::names_log;
use af_meter::names_meter;

/// What words name: a tool that reads its words itself, or another, whose words are read by `af_cli`.
#[derive(Clone, Copy, PartialEq, Eq)]
pub enum Named {
    /// The answering machine that hears its caller.
    Attendant,
    /// The answering machine.
    Answer,
    Events,
    Meter,
    Log,
    /// Another tool, or none.
    Other,
}

/// What these words name.
pub fn named_tool(words: &Args) -> Named
    ensures { result ≡ named_tool words.now }
{
    if names_attendant(words) {
        Named::Attendant
    } else if names_answer(words) {
        Named::Answer
    } else if names_events(words) {
        Named::Events
    } else if names_meter(words) {
        Named::Meter
    } else if names_log(words) {
        Named::Log
    } else {
        Named::Other
    }
}
