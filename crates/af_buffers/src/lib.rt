//! What a device is about to play and what it has captured recently: a ring of samples each, seen as
//! the list of the next and of the last samples.
#![tactic(auto)]

mod place;
mod play;
mod record;
mod room;

pub use play::PlayBuffer;
pub use record::RecordBuffer;
