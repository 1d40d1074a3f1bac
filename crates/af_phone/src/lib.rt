//! Telephone lines: what changes on them, the events that tell it, and the hook.
#![tactic(auto)]

pub mod laws;
mod line;

pub use line::{Line, LineChange, event_for, is_digit};
