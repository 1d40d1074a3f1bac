//! The tools' program: it makes the real objects, calls the one function, and says how that ended, in a line and, where they are
//! wanted, in details.
#![tactic(auto)]

ghost use Rattle.std.specs.Prelude.{◌≡◌};
ghost use Rattle.af.specs.Statuses.{answer_status, events_status, tool_status};

use af_answer::{AnswerEnd, answer_run};
use af_attendant::attendant_run;
use af_cli::{Call, true_form_of};
use af_command::SystemRunner;
use af_details::{
    Page, Streams, WatchedDial, WatchedSource, WatchedSpawner, as_tool_end, page_asked,
    states_option, tell_answer, tell_events, tell_log, tell_meter, tell_no_text, tell_output,
    tell_tool, tell_typed,
};
use af_environment::{Named, completed_words, named_tool, server_variable, tell_server_variable};
use af_events::{EventsEnd, events_run};
use af_io::{
    Args, StdSink, StdSource, TcpDial, WordsFault, open_standard_streams, program_words,
    wants_details,
};
use af_logger::{StdCommands, log_run};
use af_meter::meter_run;
use af_patience::{NetFaults, PatientDial, ToolNet};
use af_process::StdSpawner;
use af_sound::SoundForm;
use af_tools::{ToolEnd, af_run};
use af_true_header::{FilePlace, kept_true, output_place};
use af_version::{PageFault, write_page, write_version};
use std::io;
use std::process::ExitCode;
use std::rc::Rc;

// The exit status of an end.
fn status_of(end: ToolEnd) -> u8
    ensures { result ≡ tool_status end }
{
    match end {
        ToolEnd::Done => 0,
        ToolEnd::Usage => 2,
        ToolEnd::TooLong => 4,
        ToolEnd::ReadFault => 5,
        ToolEnd::SinkFault => 6,
        ToolEnd::OutOfMemory => 7,
        ToolEnd::DialFault => 12,
        ToolEnd::LinkFault => 13,
        ToolEnd::LinkEnded => 14,
        ToolEnd::NoDevice { devices: _ } => 15,
        ToolEnd::RateMismatch { from: _, to: _ } => 16,
        ToolEnd::Refused { code: _, value: _ } => 17,
        ToolEnd::BadReply {
            header: _,
            first: _,
        } => 18,
        ToolEnd::EventFlood => 19,
        ToolEnd::ChannelMismatch { from: _, to: _ } => 20,
        ToolEnd::BadSound { fault: _ } => 21,
        ToolEnd::SoundCut => 22,
        ToolEnd::SoundLost => 24,
    }
}

// The exit status of an end of the answering machine.
fn answer_status_of(end: AnswerEnd) -> u8
    ensures { result ≡ answer_status end }
{
    match as_tool_end(end) {
        Some(end) => status_of(end),
        None => 23,
    }
}

// The exit status of an end of the tool events.
fn events_status_of(end: EventsEnd) -> u8
    ensures { result ≡ events_status end }
{
    match end {
        EventsEnd::Tool(end) => status_of(end),
        EventsEnd::NoLine { device: _ } => 23,
    }
}

// Says on standard error that the reply with this header is bad.
fn report_bad_reply(rt: &impl Eprint, header: [u8; 8]) -> io::Result<()> {
    let [a, b, c, d, e, f, g, h] = header;
    let head = u64::from_be_bytes([a, b, c, d, e, f, g, h]);
    eprintln!(rt; "af: bad reply {head:016x}")
}

// Says on standard error how a tool ended.
fn report(rt: &impl Eprint, end: ToolEnd) -> io::Result<()> {
    match end {
        ToolEnd::Done => Ok(()),
        ToolEnd::Usage => eprintln!(rt; "af: usage"),
        ToolEnd::TooLong => eprintln!(rt; "af: input too long"),
        ToolEnd::ReadFault => eprintln!(rt; "af: read failed"),
        ToolEnd::SinkFault => eprintln!(rt; "af: write failed"),
        ToolEnd::OutOfMemory => eprintln!(rt; "af: out of memory"),
        ToolEnd::DialFault => eprintln!(rt; "af: connect failed"),
        ToolEnd::LinkFault => eprintln!(rt; "af: link failed"),
        ToolEnd::LinkEnded => eprintln!(rt; "af: link ended"),
        ToolEnd::NoDevice { devices } => eprintln!(rt; "af: {devices} devices"),
        ToolEnd::RateMismatch { from, to } => eprintln!(rt; "af: rates {from} and {to}"),
        ToolEnd::Refused { code, value } => eprintln!(rt; "af: refused {code} value {value}"),
        ToolEnd::BadReply { header, first: _ } => report_bad_reply(rt, header),
        ToolEnd::EventFlood => eprintln!(rt; "af: too many events"),
        ToolEnd::ChannelMismatch { from, to } => eprintln!(rt; "af: channels {from} and {to}"),
        ToolEnd::BadSound { fault: _ } => eprintln!(rt; "af: bad sound file"),
        ToolEnd::SoundCut => eprintln!(rt; "af: sound file cut"),
        ToolEnd::SoundLost => eprintln!(rt; "af: sound lost"),
    }
}

// Says on standard error how the answering machine ended.
fn report_answer(rt: &impl Eprint, end: AnswerEnd) -> io::Result<()> {
    match as_tool_end(end) {
        Some(end) => report(rt, end),
        None => eprintln!(rt; "af: no line"),
    }
}

// Says on standard error how the tool events ended.
fn report_events(rt: &impl Eprint, end: EventsEnd) -> io::Result<()> {
    match end {
        EventsEnd::Tool(end) => report(rt, end),
        EventsEnd::NoLine { device: _ } => eprintln!(rt; "af: no line"),
    }
}

fn main(rt: HostRuntime) -> ExitCode {
    open_standard_streams(&rt);
    let details = wants_details(&rt);
    match program_words(rt.alloc(), &rt) {
        Ok(words) => match page_asked(&words) {
            Some(page) => ExitCode::from(status_of(show(&rt, page, details))),
            None => ExitCode::from(run_with_server(&rt, words, details)),
        },
        Err(WordsFault::NotText) => {
            let end = said(&rt, ToolEnd::Usage);
            if details {
                tell_no_text(&rt);
            }
            ExitCode::from(status_of(end))
        }
        Err(WordsFault::OutOfMemory) => {
            ExitCode::from(status_of(said(&rt, ToolEnd::OutOfMemory)))
        }
    }
}

// Writes a page of help, or the version, to standard output.
fn show(rt: &HostRuntime, page: Page, details: bool) -> ToolEnd {
    let mut sink = StdSink::new(io::writer(rt));
    let written = match page {
        Page::Version => write_version(rt, &mut sink),
        page => write_page(rt.alloc(), &page, &mut sink),
    };
    let end = match written {
        Ok(()) => ToolEnd::Done,
        Err(PageFault::SinkFault) => ToolEnd::SinkFault,
        Err(PageFault::OutOfMemory) => ToolEnd::OutOfMemory,
    };
    let end = said(rt, end);
    if details {
        tell_output(rt, sink.reason());
    }
    end
}

// Runs a tool with the arguments and, where they state none, the server that the environment names. It answers the exit status.
fn run_with_server(rt: &HostRuntime, stated: Args, details: bool) -> u8 {
    let count = stated.len();
    let Ok(variable) = server_variable(rt) else {
        return status_of(said(rt, ToolEnd::OutOfMemory));
    };
    let Ok(words) = completed_words(rt.alloc(), stated, variable.text()) else {
        return status_of(said(rt, ToolEnd::OutOfMemory));
    };
    let (status, end) = run_tool(rt, &words, details);
    if details && let Some(end) = end {
        let put_in = words.len() != count;
        tell_server_variable(rt, rt.alloc(), &words, &variable, put_in, end);
    }
    status
}

// Runs the tool that the arguments name. It answers the exit status, and the end of a tool that means the same.
fn run_tool(rt: &HostRuntime, words: &Args, details: bool) -> (u8, Option<ToolEnd>) {
    match named_tool(words) {
        Named::Attendant => {
            let end = attend_hearing(rt, words, details);
            (answer_status_of(end), as_tool_end(end))
        }
        Named::Answer => {
            let end = attend(rt, words, details);
            (answer_status_of(end), as_tool_end(end))
        }
        Named::Events => {
            let end = tell_lines(rt, words, details);
            let ended = match end {
                EventsEnd::Tool(ended) => Some(ended),
                EventsEnd::NoLine { device: _ } => None,
            };
            (events_status_of(end), ended)
        }
        Named::Meter => {
            let end = measure(rt, words, details);
            (status_of(end), Some(end))
        }
        Named::Log => {
            let end = record_pieces(rt, words, details);
            (status_of(end), Some(end))
        }
        Named::Other => {
            if details {
                tell_typed(rt, rt.alloc(), words);
            }
            let end = run(rt, words, details);
            (status_of(end), Some(end))
        }
    }
}

// For how many seconds the arguments have a refused dial tried again. Those that ask for nothing dial nobody.
fn wait_of(rt: &HostRuntime, words: &Args) -> u32 {
    match named_tool(words) {
        Named::Attendant => match af_attendant::call_of(rt.alloc(), words) {
            Ok(call) => call.wait,
            Err(_) => 0,
        },
        Named::Answer => match af_answer::call_of(rt.alloc(), words) {
            Ok(call) => call.wait,
            Err(_) => 0,
        },
        Named::Events => match af_events::call_of(rt.alloc(), words) {
            Ok(call) => call.wait,
            Err(_) => 0,
        },
        Named::Meter => match af_meter::call_of(rt.alloc(), words) {
            Ok(call) => call.wait,
            Err(_) => 0,
        },
        Named::Log => match af_logger::call_of(rt.alloc(), words) {
            Ok(call) => call.wait,
            Err(_) => 0,
        },
        Named::Other => match af_cli::call_of(rt.alloc(), words) {
            Ok(Call::One(call)) => call.wait,
            Ok(Call::Relay(call)) => call.wait,
            Err(_) => 0,
        },
    }
}

// Says how a tool ended. If standard error takes nothing, the exit status still says it.
fn said(rt: &impl Eprint, end: ToolEnd) -> ToolEnd
    ensures { result ≡ end }
{
    let _ = report(rt, end);
    end
}

// Says how the answering machine ended. If standard error takes nothing, the exit status still says it.
fn said_answer(rt: &impl Eprint, end: AnswerEnd) -> AnswerEnd
    ensures { result ≡ end }
{
    let _ = report_answer(rt, end);
    end
}

// Says how the tool events ended. If standard error takes nothing, the exit status still says it.
fn said_events(rt: &impl Eprint, end: EventsEnd) -> EventsEnd
    ensures { result ≡ end }
{
    let _ = report_events(rt, end);
    end
}

// The form of a sound file whose header is kept true, and where it will lie; neither, if no arguments ask for it or standard
// output cannot be corrected.
fn true_place(rt: &HostRuntime, words: &Args) -> (Option<SoundForm>, Option<FilePlace>) {
    let Some(form) = true_form_of(rt.alloc(), words) else {
        return (None, None);
    };
    match output_place(rt) {
        Some(place) => (Some(form), Some(place)),
        None => (None, None),
    }
}

// A dial over TCP that is tried again, and is watched.
type ServerDial = WatchedDial<PatientDial<TcpDial<ToolNet<HostRuntime>>, HostRuntime>, HostRuntime>;

// The dial of a tool with these arguments. None if memory is out. A relay that follows the clock tells of each minute.
fn dial_for(rt: &HostRuntime, words: &Args, details: bool) -> Option<ServerDial> {
    let faults = Rc::new(rt.alloc(), NetFaults::new()).ok()?;
    let met = faults.clone().ok()?;
    let tries = TcpDial::new(ToolNet::new(*rt, met));
    let dial = PatientDial::new(tries, *rt, faults, wait_of(rt, words), details);
    let teller = if details { Some(*rt) } else { None };
    let follows = words.word(0) == Some("apass") && states_option(words, "follow");
    Some(WatchedDial::new(dial, teller, follows))
}

// Runs the tool that the arguments name, over standard input, standard output and TCP.
fn run(rt: &HostRuntime, words: &Args, details: bool) -> ToolEnd {
    let Some(mut dial) = dial_for(rt, words, details) else {
        return said(rt, ToolEnd::OutOfMemory);
    };
    let mut source = WatchedSource::new(StdSource::new(rt.reader()));
    let (form, place) = true_place(rt, words);
    let mut sink = kept_true(StdSink::new(io::writer(rt)), form, place);
    let end = af_run(rt.alloc(), words, &mut source, &mut sink, &mut dial);
    sink.finish();
    let end = said(rt, end);
    if details {
        let streams = Streams {
            input: source.source().reason(),
            output: sink.sink().sink().reason(),
        };
        tell_tool(
            rt,
            rt.alloc(),
            words,
            end,
            dial.seen(),
            &mut source,
            streams,
        );
    }
    end
}

// Attends a line, over standard output, TCP, and the programs of the system.
fn attend(rt: &HostRuntime, words: &Args, details: bool) -> AnswerEnd {
    let Some(mut dial) = dial_for(rt, words, details) else {
        return said_answer(rt, AnswerEnd::OutOfMemory);
    };
    let mut sink = StdSink::new(io::writer(rt));
    let mut spawner = WatchedSpawner::new(StdSpawner::new(*rt));
    let end = answer_run(rt.alloc(), words, &mut sink, &mut dial, &mut spawner);
    let end = said_answer(rt, end);
    if details {
        let reason = sink.reason();
        tell_answer(
            rt,
            rt.alloc(),
            words,
            end,
            dial.seen(),
            Some(spawner.calls()),
            reason,
        );
    }
    end
}

// Attends a line and hears its caller, over standard output, TCP, and the programs of the system. A command that still runs where
// the connection has failed is ended here.
fn attend_hearing(rt: &HostRuntime, words: &Args, details: bool) -> AnswerEnd {
    let Some(mut dial) = dial_for(rt, words, details) else {
        return said_answer(rt, AnswerEnd::OutOfMemory);
    };
    let mut sink = StdSink::new(io::writer(rt));
    let mut runner = SystemRunner::new(*rt);
    let end = attendant_run(rt.alloc(), words, &mut sink, &mut dial, &mut runner);
    runner.close();
    let end = said_answer(rt, end);
    if details {
        let reason = sink.reason();
        tell_answer(rt, rt.alloc(), words, end, dial.seen(), None, reason);
    }
    end
}

// Tells events of telephone lines, over standard output and TCP.
fn tell_lines(rt: &HostRuntime, words: &Args, details: bool) -> EventsEnd {
    let Some(mut dial) = dial_for(rt, words, details) else {
        return said_events(rt, EventsEnd::Tool(ToolEnd::OutOfMemory));
    };
    let mut sink = StdSink::new(io::writer(rt));
    let end = events_run(rt.alloc(), words, &mut sink, &mut dial);
    let end = said_events(rt, end);
    if details {
        tell_events(rt, rt.alloc(), words, end, dial.seen(), sink.reason());
    }
    end
}

// Measures how loud a device is, over standard output and TCP.
fn measure(rt: &HostRuntime, words: &Args, details: bool) -> ToolEnd {
    let Some(mut dial) = dial_for(rt, words, details) else {
        return said(rt, ToolEnd::OutOfMemory);
    };
    let mut sink = StdSink::new(io::writer(rt));
    let end = meter_run(rt.alloc(), words, &mut sink, &mut dial);
    let end = said(rt, end);
    if details {
        tell_meter(rt, rt.alloc(), words, end, dial.seen(), sink.reason());
    }
    end
}

// Records a device in pieces, over standard output, TCP, and commands of the system.
fn record_pieces(rt: &HostRuntime, words: &Args, details: bool) -> ToolEnd {
    let Some(mut dial) = dial_for(rt, words, details) else {
        return said(rt, ToolEnd::OutOfMemory);
    };
    let mut sink = StdSink::new(io::writer(rt));
    let mut commands = StdCommands::new(*rt);
    let end = log_run(rt.alloc(), words, &mut commands, &mut sink, &mut dial);
    let end = said(rt, end);
    if details {
        tell_log(rt, rt.alloc(), words, end, dial.seen(), sink.reason());
    }
    end
}
