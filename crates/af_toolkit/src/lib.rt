//! How a tool ends, and how it follows its trace over a connection: what all tools have in common.
#![tactic(auto)]

mod device;
mod end;
mod lost;
mod talk;
mod text;
mod time;

pub use device::device_with;
pub use end::ToolEnd;
pub use lost::{end_by, had_left, is_late, periods_before, time_before};
pub use talk::{CONTEXT, ToolContext, begin, device_time, finish, make_context};
pub use text::{put, put_gain, put_number, write_piece, write_text};
pub use time::time_after_frames;
