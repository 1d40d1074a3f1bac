//! The server over scripts: a script comes in and the transcript of its log goes out, or an exercise is made, run and summed up.
#![tactic(auto)]

mod job;
mod script;

pub use script::{ScriptEnd, afd_script, status_of};
