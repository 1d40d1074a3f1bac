//! A ring of samples by time: the cell of a time stays at its place, whatever was written since, so
//! that nothing is moved as time goes by.
#![tactic(auto)]

mod runs;
mod time_ring;

pub use time_ring::TimeRing;
