//! The answering machine: it takes calls, plays a greeting, records a message, and hangs up.
#![tactic(auto)]

mod attend;
mod call;
mod child;
mod commands;
mod end;
mod job;
mod machine;
mod options;
mod report;
mod rings;
mod run;
mod tally;

pub use commands::Commands;
pub use end::AnswerEnd;
pub use job::AnswerJob;
pub use machine::answer;
pub use options::{AnswerCall, answer_arguments, call_of, names_answer};
pub use run::answer_run;
