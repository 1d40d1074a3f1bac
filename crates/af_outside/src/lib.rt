//! Tapes: a world in memory that plays the steps of a script. What a server lives in is named here again.
#![tactic(auto)]

mod happenings;
mod lifecycle_faults;
mod lifecycle_log;
mod links;
mod scripted_device;
mod scripted_link;
mod tape;

pub use af_io::{
    Args, Bytes, Dial, Dialed, Got, Link, MemDial, MemLink, MemSink, MemSource, Put, Sink, Source,
    StdSink, StdSource, TcpDial, TcpLink, TextFault, WordsFault, program_words, read_text,
};
pub use af_world::{
    CardKind, Config, DeviceSpec, Happening, Kind, Lifecycle, LineProgram, LinkGot, LinkTook, Live,
    ReadGot, Ready, Step, ToldKind, Waited, Wake, Why, World, laws, silent_byte,
};
pub use lifecycle_faults::LifecycleFaults;
pub use tape::Tape;
