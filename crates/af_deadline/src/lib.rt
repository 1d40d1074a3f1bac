//! Child programs that hold nobody up: a write to one fails where it is not taken in time, and one that does not end in time is
//! killed.
#![tactic(auto)]

mod deadline;
mod handed;
mod input;
mod process;
mod runtime;

pub use input::DeadlineInput;
pub use process::DeadlineProcess;
pub use runtime::DeadlineRuntime;
