//! Scripts and transcripts: a text is read as the devices and steps that it states, and a log is printed.
#![tactic(auto)]

mod fault;
mod print;
mod read;
mod run;
mod statement;
mod steps;
mod summary;

pub use fault::ScriptFault;
pub use print::print_log;
pub use read::{Script, read_script};
pub use run::run_tape;
pub use steps::Steps;
pub use summary::print_summary;
