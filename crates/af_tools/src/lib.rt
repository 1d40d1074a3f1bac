//! The tools: what they send, read and write, by their words.
#![tactic(auto)]

mod file;
mod fill;
pub mod laws;
mod leave;
mod memory;
mod pace;
mod play;
mod player;
mod record;
mod recorder;
mod relay;
mod report;
mod run;
mod set;
mod setter;
mod sound;

pub use af_cli::{PassJob, PlayJob, RecordJob, SetJob};
pub use af_relay::apass;
pub use af_standing::list;
pub use af_toolkit::ToolEnd;
pub use player::aplay;
pub use recorder::arecord;
pub use run::af_run;
pub use setter::aset;
