//! The server's core: what it keeps of its devices and links, and one turn.
#![tactic(auto)]

mod advance;
mod complete;
mod events;
mod lines;
mod serve;
mod server;
mod slot;
mod tick;
mod wanting_span;

pub use server::Core;
