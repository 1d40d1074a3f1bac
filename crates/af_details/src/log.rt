// Details of the end of the tool log.
use crate::dial::Seen;
use crate::links::tell_no_device;
use crate::tool::{Streams, tell_end};
use crate::usage::tell_usage;
use af_io::{Args, Reason};
use af_logger::call_of;
use af_toolkit::ToolEnd;
use std::alloc::Global;

/// Tells of the end of the tool log what its line does not.
pub fn tell_log(
    rt: &impl Eprint,
    alloc: Global,
    words: &Args,
    end: ToolEnd,
    seen: &Seen,
    output: Option<Reason>,
) {
    if end == ToolEnd::Usage {
        return tell_usage(rt, alloc, words);
    }
    let streams = Streams {
        input: None,
        output,
    };
    tell_end(rt, end, seen, streams);
    if let (ToolEnd::NoDevice { devices: _ }, Some(talk)) = (end, &seen.first)
        && let Ok(call) = call_of(alloc, words)
    {
        tell_no_device(rt, talk, call.job.device);
    }
}
