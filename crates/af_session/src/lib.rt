//! The bytes of a link: what came in and is not used yet, and what is to go out.
#![tactic(auto)]

mod session;
mod unread;

pub use session::Session;
