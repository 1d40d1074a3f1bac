//! The requests of clients and the replies of the server, read and written.
#![tactic(auto)]

pub mod laws;
pub mod opcode;
mod put;
mod reply;
mod reply_reader;
mod reply_writer;
mod request;
mod request_reader;
mod request_writer;

pub use reply::{Controls, DeviceInfo, Devices, Phone, Reply};
pub use reply_reader::read_reply;
pub use reply_writer::{RECORDED_AT, write_recorded, write_reply};
pub use request::Request;
pub use request_reader::read_request;
pub use request_writer::write_request;
