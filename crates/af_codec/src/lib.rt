//! A codec: it hands sound to a child program that may fail at any call, and is started again so many times.
#![tactic(auto)]

mod codec;
mod feeding;
pub mod laws;
mod orders;

pub use codec::Codec;
