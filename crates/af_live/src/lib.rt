//! The server on real time below its turns: the real world, of sockets, files, child programs and the clock of the system. The
//! configuration that it is started with, and the pace of a device, are named here again.
#![tactic(auto)]

mod counting;
mod held_links;
mod link_table;
mod links;
mod mio_world;
mod share;
mod sockets;
mod timer;
mod told_clock;
mod turned_away;
mod waking;

pub use af_clock::Pace;
pub use af_config::{ConfigFault, Setting, read_config};
pub use mio_world::MioWorld;
pub use sockets::Sockets;
pub use told_clock::{MemClock, ToldClock};
