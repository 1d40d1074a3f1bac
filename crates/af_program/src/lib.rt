//! The programs of devices: each is started, gives bytes and takes bytes without a wait, and is ended. What a caller sees of
//! one, one in memory, and one of the system.
#![tactic(auto)]

mod act;
mod acts;
mod ending;
mod handing;
mod mem_program;
mod pieces;
mod program;
mod programs;
mod queue;
mod running;
mod socket_program;
mod sockets;
mod starts;
mod ways;

pub use act::Act;
pub use handing::{give_from, take_into};
pub use mem_program::{MemProgram, Plan};
pub use program::{Gave, Launched, Program, ProgramSockets, Took};
pub use programs::{MemPrograms, NoProgram, NoPrograms, Programs, SocketPrograms};
pub use queue::Queue;
pub use socket_program::SocketProgram;
pub use starts::Starts;
pub use ways::Ways;
