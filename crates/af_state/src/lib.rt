//! What the server keeps of devices, of links, and of the requests that wait; and the room that a turn works in.
#![tactic(auto)]

mod deferred_request;
mod deferred_requests;
mod device;
mod level;
mod link;
mod scratch;
mod shared_state;

pub use deferred_request::{DeferredRequest, DeferredWork, Play, Record};
pub use deferred_requests::DeferredRequests;
pub use device::Device;
pub use level::silence;
pub use link::ServedLink;
pub use scratch::{Scratch, Work};
pub use shared_state::SharedState;
