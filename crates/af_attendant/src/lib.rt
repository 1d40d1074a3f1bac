//! The answering machine that hears its caller: digits and the end of the current end its commands, and each call has a line.
#![tactic(auto)]

mod attend;
mod attendant;
mod call;
mod commands;
mod drain;
mod environment;
mod job;
mod line;
mod options;
mod ran;
mod report;
mod rings;
mod run;
mod tally;
mod watch;

pub use attendant::attend_line;
pub use commands::HeldCommands;
pub use job::AttendantJob;
pub use options::{AttendantCall, attendant_arguments, call_of, names_attendant};
pub use run::attendant_run;
