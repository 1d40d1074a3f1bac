//! Commands that run beside something else, one at a time: they are started, asked whether they still run, ended and waited for.
#![tactic(auto)]

mod act;
mod mem_runner;
mod runner;
mod running;
mod system_runner;

pub use act::CommandAct;
pub use mem_runner::MemRunner;
pub use runner::{Begun, CommandRunner};
pub use system_runner::SystemRunner;
