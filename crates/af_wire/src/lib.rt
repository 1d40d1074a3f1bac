//! The wire: where a client's setup and frames and a server's messages begin and end, and how the server's messages are
//! spelled.
#![tactic(auto)]

mod event;
mod front;
pub mod laws;
mod message;
mod message_front;
mod order;

pub use event::{Event, EventKind, read_event, write_event};
pub use front::{Front, SetupFront, frame_at, setup_of};
pub use message::{write_error, write_head};
pub use message_front::{MessageFront, message_at};
pub use order::Order;
