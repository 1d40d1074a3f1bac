// What both programs ask of their surroundings before anything else.
use std::env;
use std::env::Env;
use std::fs::OpenOptions;
use std::io::{IsTerminal, Lock};
use std::os::fd::{AsRawFd, IntoRawFd};

/// Whether details may follow the line that says how a program ended: standard error is a terminal, or AUDIOFILE_DETAILS is
/// set, to anything but nothing or 0.
pub fn wants_details(rt: &HostRuntime) -> bool {
    if rt.stderr().is_terminal() {
        return true;
    }
    match env::var(rt, "AUDIOFILE_DETAILS") {
        Ok(value) => value.as_str() != "" && value.as_str() != "0",
        Err(env::VarError::NotPresent) => false,
        Err(_) => true,
    }
}

/// Opens the null device on standard streams that are closed, so that nothing that is opened later, a socket above all,
/// becomes one of them.
pub fn open_standard_streams(rt: &HostRuntime) {
    for _ in 0..3 {
        // The system gives the least number that is free.
        let Ok(null) = OpenOptions::new()
            .read(true)
            .write(true)
            .open(rt, "/dev/null")
        else {
            return;
        };
        if null.as_raw_fd() > 2 {
            return;
        }
        let _ = null.into_raw_fd();
    }
}
