//! The server on real time, over any world that gives its own wakes.
#![tactic(auto)]

mod endless;
mod live;
mod serve;
mod start;
mod words;

pub use endless::Endless;
pub use live::{LiveEnd, afd_live, status_of};
