// The variable of the environment that names a server.
use crate::completed::{has_one_server, with_server};
use crate::judged::judged;
use af_io::Args;
use af_limits::LONGEST_ADDRESS;
use af_time::OutOfMemory;
use af_toolkit::ToolEnd;
use std::alloc::Global;
use std::env;
use std::env::VarError;

/// What the variable AUDIOFILE_SERVER holds.
#[derive(Drop)]
pub enum ServerVariable {
    /// It is not set, or it is empty.
    Unset,
    NotText,
    Text(String),
}

impl ServerVariable {
    /// Its text, if it has one.
    pub fn text(&self) -> Option<&str> {
        match self {
            ServerVariable::Text(text) => Some(text.as_str()),
            _ => None,
        }
    }
}

/// The variable AUDIOFILE_SERVER. What the system gives is taken as it is: no clause says more of it.
pub fn server_variable(rt: &HostRuntime) -> Result<ServerVariable, OutOfMemory> {
    match env::var(rt, "AUDIOFILE_SERVER") {
        Ok(text) if !text.as_str().is_empty() => Ok(ServerVariable::Text(text)),
        Ok(_) | Err(VarError::NotPresent) => Ok(ServerVariable::Unset),
        Err(VarError::NotUnicode) => Ok(ServerVariable::NotText),
        Err(VarError::OutOfMemory) => Err(OutOfMemory),
    }
}

/// Tells what the variable has to do with the end of a tool that was run with these words: it named the server that was dialled
/// in vain, or it is why the words are Usage.
pub fn tell_server_variable(
    rt: &impl Eprint,
    alloc: Global,
    words: &Args,
    variable: &ServerVariable,
    put_in: bool,
    end: ToolEnd,
) {
    if put_in && end == ToolEnd::DialFault {
        let _ = eprintln!(rt; "af: AUDIOFILE_SERVER has this address");
    } else if end == ToolEnd::Usage && lacks_server(alloc, words) {
        tell_fault(rt, variable);
    }
}

// Whether an address is all that these words lack.
fn lacks_server(alloc: Global, words: &Args) -> bool {
    if !has_one_server(words) {
        return false;
    }
    match with_server(alloc, words, "localhost:0") {
        Ok(run) => judged(alloc, &run) == Ok(()),
        Err(_) => false,
    }
}

// Tells why what the variable holds is no address.
fn tell_fault(rt: &impl Eprint, variable: &ServerVariable) {
    match variable {
        ServerVariable::Unset => {}
        ServerVariable::NotText => {
            let _ = eprintln!(rt; "af: AUDIOFILE_SERVER is not UTF-8");
        }
        ServerVariable::Text(text) => {
            let count = text.len();
            if count > LONGEST_ADDRESS {
                let _ = eprintln!(rt;
                    "af: AUDIOFILE_SERVER has {count} bytes; an address has at most {LONGEST_ADDRESS}"
                );
            } else {
                let _ = eprintln!(rt; "af: AUDIOFILE_SERVER is no address");
            }
        }
    }
}
