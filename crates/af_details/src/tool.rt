// Details of the end of a tool.
use crate::dial::Seen;
use crate::links::{
    tell_bad_reply, tell_dial, tell_link, tell_no_device, tell_output, tell_refusal, tell_stream,
};
use crate::play::{tell_played, tell_samples, tell_sound};
use crate::relay::{tell_pair, tell_passed};
use crate::source::WatchedSource;
use crate::talk::Talk;
use crate::usage::{states_option, tell_file_as_server, tell_usage};
use af_cli::{Call, RecordJob, Task, call_of};
use af_io::{Args, Reason, Source};
use af_toolkit::ToolEnd;
use std::alloc::Global;

/// Why a read of standard input failed last, and a write to standard output, if one did.
#[derive(Clone, Copy)]
pub struct Streams {
    pub input: Option<Reason>,
    pub output: Option<Reason>,
}

/// Tells of the end of a tool what its line does not: which word is wrong, what the system said, what was asked, what was lost.
pub fn tell_tool<S: Source + Drop>(
    rt: &impl Eprint,
    alloc: Global,
    words: &Args,
    end: ToolEnd,
    seen: &Seen,
    source: &mut WatchedSource<S>,
    streams: Streams,
) {
    if end == ToolEnd::Usage {
        return tell_usage(rt, alloc, words);
    }
    tell_end(rt, end, seen, streams);
    if end == ToolEnd::DialFault {
        tell_file_as_server(rt, words, seen.address.as_str());
    }
    match call_of(alloc, words) {
        Ok(Call::One(call)) => {
            if let Some(talk) = &seen.first {
                tell_task(rt, &call.task, end, talk, source);
                if let Task::Play(job) = &call.task
                    && !states_option(words, "file")
                {
                    tell_samples(rt, job, talk, source);
                }
            }
        }
        Ok(Call::Relay(call)) => {
            if let (Some(from), Some(to)) = (&seen.first, &seen.second) {
                tell_pair(rt, &call.job, end, from, to);
                tell_passed(rt, &call.job, from, to);
            }
        }
        Err(_) => {}
    }
}

/// Tells what every tool tells of an end.
pub fn tell_end(rt: &impl Eprint, end: ToolEnd, seen: &Seen, streams: Streams) {
    match end {
        ToolEnd::DialFault => tell_dial(rt, seen),
        ToolEnd::LinkFault | ToolEnd::LinkEnded => tell_link(rt, seen),
        ToolEnd::Refused { code, value: _ } => tell_refusal(rt, seen, code),
        ToolEnd::BadReply {
            header: _,
            first: _,
        } => tell_bad_reply(rt, seen),
        ToolEnd::ReadFault => tell_stream(rt, "standard input", streams.input),
        ToolEnd::SinkFault => tell_output(rt, streams.output),
        ToolEnd::TooLong => {
            let _ = eprintln!(rt; "af: standard input gave more than 2^40 bytes");
        }
        _ => {}
    }
}

// Tells the end of a tool that has one server.
fn tell_task<S: Source + Drop>(
    rt: &impl Eprint,
    task: &Task,
    end: ToolEnd,
    talk: &Talk,
    source: &mut WatchedSource<S>,
) {
    if let (ToolEnd::NoDevice { devices: _ }, Some(device)) = (end, device_of(task)) {
        return tell_no_device(rt, talk, device);
    }
    match task {
        Task::Play(job) => {
            tell_sound(rt, job, end, talk, source);
            tell_played(rt, job, end, talk, source);
        }
        Task::Record(job) => tell_recorded(rt, job, talk),
        Task::Set(_) | Task::List => {}
    }
}

// The device that a task names, if it names one.
fn device_of(task: &Task) -> Option<u8> {
    match task {
        Task::Play(job) => Some(job.device),
        Task::Record(job) => Some(job.device),
        Task::Set(job) => Some(job.device),
        Task::List => None,
    }
}

// Tells the frames that a recording lost.
fn tell_recorded(rt: &impl Eprint, job: &RecordJob, talk: &Talk) {
    if talk.gone.frames == 0 {
        return;
    }
    let gone = talk.gone;
    let _ = eprintln!(rt;
        "af: {gone} had left the server before they were asked for: silence stands in their place"
    );
    if job.time.is_some() {
        let _ = eprintln!(rt;
            "af: a server keeps four seconds: --time lay too far back, what takes the output was too slow, or the server stood still"
        );
    } else {
        let _ = eprintln!(rt;
            "af: a server keeps four seconds: what takes the output was too slow, or the server stood still"
        );
    }
}
