//! The contexts of a link: how its plays and records are to be taken, under numbers that the client
//! chose (CRL 93/8).
#![tactic(auto)]

pub mod laws;
mod list;

use af_sample::{Gain, SampleType};
pub use list::Contexts;
use thiserror::Error;

/// A context: a device, the type of the samples that go to and fro, and how they are taken.
#[derive(Clone, Copy, Debug, Default, PartialEq, Eq)]
pub struct Context {
    /// The number that the client chose.
    pub ac: u32,
    pub device: u8,
    pub ty: SampleType,
    pub play_gain: Gain,
    pub record_gain: Gain,
    /// Whether a play replaces what was there before, in place of being mixed with it.
    pub preempt: bool,
}

/// Why contexts stay as they are.
#[derive(Clone, Copy, Debug, PartialEq, Eq, Error)]
pub enum ContextFault {
    #[error("no context has this number")]
    BadAc,
    #[error("the number is in use")]
    BadIdChoice,
    #[error("a link has 16 contexts at most")]
    TooMany,
}
