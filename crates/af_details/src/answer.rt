// Details of the end of an answering machine.
ghost use Rattle.std.specs.Prelude.{◌≡◌};
ghost use Rattle.af_details.specs.AnswerEnds.{as_tool_end};

use crate::children::Calls;
use crate::dial::Seen;
use crate::links::{tell_no_device, tell_no_line};
use crate::tool::{Streams, tell_end};
use crate::usage::{device_in, tell_usage};
use af_answer::AnswerEnd;
use af_io::{Args, Reason};
use af_toolkit::ToolEnd;
use std::alloc::Global;

/// The end of a tool that means the same, and is told in the same words. A tool needs no line.
pub fn as_tool_end(end: AnswerEnd) -> Option<ToolEnd>
    ensures { result ≡ as_tool_end end }
{
    Some(match end {
        AnswerEnd::Done => ToolEnd::Done,
        AnswerEnd::Usage => ToolEnd::Usage,
        AnswerEnd::DialFault => ToolEnd::DialFault,
        AnswerEnd::LinkFault => ToolEnd::LinkFault,
        AnswerEnd::LinkEnded => ToolEnd::LinkEnded,
        AnswerEnd::NoDevice { devices } => ToolEnd::NoDevice { devices },
        AnswerEnd::NoLine { device: _ } => return None,
        AnswerEnd::Refused { code, value } => ToolEnd::Refused { code, value },
        AnswerEnd::BadReply { header, first } => ToolEnd::BadReply { header, first },
        AnswerEnd::EventFlood => ToolEnd::EventFlood,
        AnswerEnd::SinkFault => ToolEnd::SinkFault,
        AnswerEnd::OutOfMemory => ToolEnd::OutOfMemory,
    })
}

/// Tells of the end of an answering machine what its line does not. It counts the calls so far, if they are given, and the
/// machine ended before it could write that itself.
pub fn tell_answer(
    rt: &impl Eprint,
    alloc: Global,
    words: &Args,
    end: AnswerEnd,
    seen: &Seen,
    calls: Option<Calls>,
    output: Option<Reason>,
) {
    if end == AnswerEnd::Usage {
        return tell_usage(rt, alloc, words);
    }
    if let Some(end) = as_tool_end(end) {
        let streams = Streams {
            input: None,
            output,
        };
        tell_end(rt, end, seen, streams);
    }
    if let Some(talk) = &seen.first {
        match end {
            AnswerEnd::NoDevice { devices: _ } => {
                tell_no_device(rt, talk, device_in(alloc, words));
            }
            AnswerEnd::NoLine { device } => tell_no_line(rt, talk, device),
            _ => {}
        }
    }
    if end != AnswerEnd::Done
        && let Some(calls) = calls
    {
        let _ = eprintln!(rt; "af: {calls}");
    }
}
