// Details of the end of the tool events.
use crate::dial::Seen;
use crate::links::{tell_no_device, tell_no_line, tell_no_lines};
use crate::talk::Talk;
use crate::tool::{Streams, tell_end};
use crate::usage::tell_usage;
use af_cli::DeviceChoice;
use af_events::{EventsEnd, call_of};
use af_io::{Args, Reason};
use af_toolkit::ToolEnd;
use std::alloc::Global;

/// Tells of the end of the tool events what its line does not.
pub fn tell_events(
    rt: &impl Eprint,
    alloc: Global,
    words: &Args,
    end: EventsEnd,
    seen: &Seen,
    output: Option<Reason>,
) {
    match end {
        EventsEnd::Tool(ToolEnd::Usage) => tell_usage(rt, alloc, words),
        EventsEnd::Tool(end) => {
            let streams = Streams {
                input: None,
                output,
            };
            tell_end(rt, end, seen, streams);
            if let (ToolEnd::NoDevice { devices: _ }, Some(talk)) = (end, &seen.first) {
                tell_missing(rt, alloc, words, talk);
            }
        }
        EventsEnd::NoLine { device: _ } => {
            if let Some(talk) = &seen.first {
                tell_lineless(rt, alloc, words, talk);
            }
        }
    }
}

// The devices that the arguments name.
fn choice_in(alloc: Global, words: &Args) -> DeviceChoice {
    match call_of(alloc, words) {
        Ok(call) => call.job.devices,
        Err(_) => DeviceChoice::All,
    }
}

// Tells of a device that is not there.
fn tell_missing(rt: &impl Eprint, alloc: Global, words: &Args, talk: &Talk) {
    if let DeviceChoice::One(device) = choice_in(alloc, words) {
        tell_no_device(rt, talk, device);
    }
}

// Tells of a device without a line, or that no device has one.
fn tell_lineless(rt: &impl Eprint, alloc: Global, words: &Args, talk: &Talk) {
    match choice_in(alloc, words) {
        DeviceChoice::One(device) => tell_no_line(rt, talk, device),
        DeviceChoice::All => tell_no_lines(rt, talk),
    }
}
