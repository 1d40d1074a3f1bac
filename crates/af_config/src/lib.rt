//! The configuration of a server on real time, read from a text: its devices, the backend of each, and the programs of
//! their telephone lines.
#![tactic(auto)]

mod command_line;
mod device;
mod fault;
mod line_program;
mod read;
mod setting;

pub use af_world::MOST_CARD_RESTARTS;
pub use command_line::{LONGEST_CODEC_WORD, LONGEST_WORD, MOST_RESTARTS, is_command_line};
pub use fault::ConfigFault;
pub use line_program::OwnedLineProgram;
pub use read::read_config;
pub use setting::Setting;
