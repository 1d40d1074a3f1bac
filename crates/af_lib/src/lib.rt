//! The client library: a connection to a server that sends requests and takes exactly their answers.
#![tactic(auto)]

mod asks;
mod conn;
mod exchange;
mod fault;
pub mod laws;
mod receive;
mod ring;

pub use conn::Conn;
pub use fault::{Cause, ConnFault};
