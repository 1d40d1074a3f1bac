//! Sound files: the headers of .au and WAVE files, read byte by byte and written, and their sound as a server takes it.
#![tactic(auto)]

mod au;
mod head;
mod head_reader;
pub mod laws;
mod served;
mod wave;
mod writer;

pub use head::{Coding, HeadStep, SoundFault, SoundForm, SoundHead};
pub use head_reader::HeadReader;
pub use served::{to_file, to_server};
pub use writer::write_sound_head;
