//! The tool `events`: it writes a line for each event of a telephone line.
#![tactic(auto)]

mod during;
mod end;
mod job;
mod line;
mod options;
mod run;
mod select;
mod span;
mod tell;
mod teller;

pub use end::EventsEnd;
pub use job::EventsJob;
pub use options::{EventsCall, call_of, events_arguments, names_events};
pub use run::events_run;
pub use teller::events;
