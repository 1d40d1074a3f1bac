//! The tool `log`: it records a device without an end, in pieces, and hands each piece to a command.
#![tactic(auto)]

mod block;
mod commands;
mod hand;
mod job;
mod laws;
mod line;
mod logger;
mod logging;
mod mem_commands;
mod options;
mod plan;
mod progress;
mod pump;
mod run;
mod sound;
mod std_commands;

pub use commands::{Commands, PieceTerms};
pub use job::LogJob;
pub use laws::each_frame_once;
pub use logging::log;
pub use mem_commands::{MemCommand, MemCommands, MemPlan};
pub use options::{LogCall, call_of, log_arguments, names_log};
pub use run::log_run;
pub use std_commands::StdCommands;
