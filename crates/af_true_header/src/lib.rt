//! A sink that keeps the header of a sound file true to what was written so far, where what was written can be corrected.
#![tactic(auto)]

mod correct;
mod extent;
mod file_output;
mod header;
mod mem_file;
mod place;
mod sound_file;
mod stage;
mod true_header;

pub use correct::Correct;
pub use file_output::{FileOutput, kept_true};
pub use mem_file::MemFile;
pub use place::{FilePlace, output_place};
pub use true_header::TrueHeader;
