// Whether details and the log of a server are wanted.
use af_io::wants_details;
use std::env;
use std::env::Env;

/// Whether the server tells details, and keeps its log: as details are wanted, but on a terminal too not if AUDIOFILE_DETAILS
/// is 0.
pub fn wants_log(rt: &HostRuntime) -> bool {
    wants_details(rt) && !is_off(rt)
}

fn is_off(rt: &HostRuntime) -> bool {
    match env::var(rt, "AUDIOFILE_DETAILS") {
        Ok(value) => value.as_str() == "0",
        Err(_) => false,
    }
}
