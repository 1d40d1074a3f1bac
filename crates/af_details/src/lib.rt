//! What a person is told of a tool that did not do what was wanted, or lost sound. The outside is watched as the tools use it,
//! and the lines are made of what was seen.
#![tactic(auto)]

mod answer;
mod asked;
mod children;
mod counted;
mod dial;
mod due;
mod events;
mod file;
mod incoming;
mod links;
mod log;
mod lost;
mod meter;
mod options;
mod page;
mod passage;
mod play;
mod reasons;
mod relay;
mod source;
mod talk;
mod tool;
mod typed;
mod usage;
mod values;

pub use answer::{as_tool_end, tell_answer};
pub use asked::Asked;
pub use children::{Calls, WatchedSpawner};
pub use dial::{Seen, WatchedDial, WatchedLink};
pub use events::tell_events;
pub use links::tell_output;
pub use log::tell_log;
pub use lost::Lost;
pub use meter::tell_meter;
pub use options::Command;
pub use page::{Page, page_asked};
pub use passage::Passage;
pub use reasons::TellsReason;
pub use source::WatchedSource;
pub use talk::{Address, Talk};
pub use tool::{Streams, tell_tool};
pub use typed::tell_typed;
pub use usage::{states_option, tell_no_text, tell_usage};
