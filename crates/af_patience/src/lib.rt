//! How long a server is waited for: a dial that the system refuses is tried again, for as long as its user wants, and the reply
//! to a setup has ten seconds.
#![tactic(auto)]

mod dial;
mod network;
mod stream;

pub use dial::PatientDial;
pub use network::{NetFaults, NoListener, ToolNet};
pub use stream::SetupStream;
