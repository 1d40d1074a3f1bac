//! How requests are performed: one function for each, and how those that waited complete.
#![tactic(auto)]

mod checks;
mod complete;
mod context_requests;
mod device_requests;
mod dispatch;
mod play;
mod record;

pub use complete::complete_deferred;
pub use dispatch::perform;
