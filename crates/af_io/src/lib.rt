//! What programs read from and write to: words, bytes, sources, sinks and links, in memory, over std and over TCP.
#![tactic(auto)]

mod args;
mod bytes;
mod calls;
mod details;
mod dial;
mod faults;
mod flow;
mod keepalive;
mod link;
mod mem_dial;
mod mem_link;
mod memory;
mod notes;
mod real;
mod reason;
mod stated;
mod tcp;
mod text;

pub use args::{Args, WordsFault, program_words};
pub use bytes::{Bytes, copy_first};
pub use calls::Calls;
pub use details::{open_standard_streams, wants_details};
pub use dial::{Dial, Dialed};
pub use faults::faults_after;
pub use flow::{Got, Put, Sink, Source};
pub use keepalive::keep_alive;
pub use link::Link;
pub use mem_dial::MemDial;
pub use mem_link::MemLink;
pub use memory::{MemSink, MemSource};
pub use notes::Notes;
pub use real::{StdSink, StdSource};
pub use reason::Reason;
pub use stated::Stated;
pub use tcp::{TcpDial, TcpLink};
pub use text::{TextFault, read_text};
