//! The server that the environment names: it is put into the words of a tool that states none.
#![tactic(auto)]

mod completed;
mod judged;
mod named;
mod variable;

pub use completed::completed_words;
pub use named::{Named, named_tool};
pub use variable::{ServerVariable, server_variable, tell_server_variable};
