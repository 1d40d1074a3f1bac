//! The log of the server: what a world of sockets, files and programs does, told line by line on standard error.
#![tactic(auto)]

mod device_words;
mod gate;
mod level;
mod line_words;
mod listening;
mod log;
mod logged;
mod logged_spawner;
mod outlet;
mod program_lines;
mod quota;
mod real_world;
mod refusal;
mod sight;
mod watched_file;
mod watched_programs;
mod watched_runtime;

pub use level::{Front, Fronts, Level};
pub use listening::ListenRefusal;
pub use log::Log;
pub use logged::Logged;
pub use logged_spawner::LoggedSpawner;
pub use program_lines::ProgramLines;
pub use real_world::{RealSight, RealWorld, logged_world};
pub use refusal::Refusal;
pub use sight::{NoSight, Sight};
pub use watched_programs::WatchedPrograms;
pub use watched_runtime::WatchedRuntime;
