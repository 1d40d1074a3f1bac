//! The server's program: it makes the real objects, calls the one function that its first word names, and says how that ended,
//! and where details are wanted, why.
#![tactic(auto)]

mod details;
mod ends;

use crate::details::{tell_live, tell_script};
use crate::ends::{report_live, report_script};
use af_io::{Args, StdSink, StdSource, WordsFault, open_standard_streams, program_words};
use af_version::{PageFault, write_page, write_version};
use afd_details::{KeptSource, Page, page_asked, tell_not_text, tell_reason, wants_log};
use afd_log::{Fronts, Level, ListenRefusal, Log, logged_world};
use afd_script::{ScriptEnd, afd_script};
use afd_serve::{Endless, LiveEnd, afd_live};
use std::io;
use std::io::Read;
use std::process::ExitCode;

// The page of help, or the version, to standard output.
fn show(rt: &HostRuntime, page: Page) -> ExitCode {
    let mut sink = StdSink::new(io::writer(rt));
    let written = match page {
        Page::Version => write_version(rt, &mut sink),
        page => write_page(rt.alloc(), &page, &mut sink),
    };
    let ended = match written {
        Ok(()) => ended_script(rt, ScriptEnd::Done),
        Err(PageFault::SinkFault) => ended_script(rt, ScriptEnd::SinkFault),
        Err(PageFault::OutOfMemory) => ended_script(rt, ScriptEnd::OutOfMemory),
    };
    if wants_log(rt) {
        tell_reason(rt, "standard output", sink.reason());
    }
    ended
}

// The command that the first word names.
fn run_command(rt: &HostRuntime, endless: &dyn Endless, words: &Args) -> ExitCode {
    match page_asked(words) {
        Some(page) => show(rt, page),
        None if words.word(0) == Some("serve") => run_server(rt, endless, words),
        None => run_script(rt, words),
    }
}

// A script or an exercise, over standard input and output.
fn run_script(rt: &HostRuntime, words: &Args) -> ExitCode {
    let details = wants_log(rt);
    let mut source = KeptSource::new(rt.alloc(), StdSource::new(rt.reader()), details);
    let mut sink = StdSink::new(io::writer(rt));
    let end = afd_script(rt.alloc(), words, &mut source, &mut sink);
    let ended = ended_script(rt, end);
    if details {
        tell_script(rt, words, end, &source, &sink);
    }
    ended
}

// The server, over standard input, sockets, files, child programs and the clock.
fn run_server(rt: &HostRuntime, endless: &dyn Endless, words: &Args) -> ExitCode {
    let details = wants_log(rt);
    let fronts = Fronts::of_environment(rt);
    let log = Log::new(rt, details, fronts);
    let mut source = KeptSource::new(rt.alloc(), StdSource::new(rt.reader()), details);
    let (end, refusal) = serve(rt, endless, words, &mut source, &log);
    // if standard error takes nothing, the exit status still says how it ended
    let _ = report_live(rt, fronts.front(Level::Error), end);
    if details {
        tell_live(rt, words, end, &source, refusal, &log);
    }
    ExitCode::from(afd_serve::status_of(end))
}

// Serves. Whoever waits for standard error afterwards holds nobody up: the world is gone then, and its address free.
fn serve<R: Read + Drop>(
    rt: &HostRuntime,
    endless: &dyn Endless,
    words: &Args,
    source: &mut KeptSource<StdSource<R>>,
    log: &Log<'_>,
) -> (LiveEnd, Option<ListenRefusal>) {
    let mut world = logged_world(rt, log);
    let end = afd_live(rt.alloc(), endless, words, source, &mut world);
    (end, world.listen_refusal())
}

// Says how a script ended. If standard error takes nothing, the exit status still says it.
fn ended_script(rt: &HostRuntime, end: ScriptEnd) -> ExitCode {
    let _ = report_script(rt, end);
    ExitCode::from(afd_script::status_of(end))
}

// Says that an argument is no text.
fn ended_not_text(rt: &HostRuntime) -> ExitCode {
    let ended = ended_script(rt, ScriptEnd::Usage);
    if wants_log(rt) {
        tell_not_text(rt, rt.alloc());
    }
    ended
}

fn main(rt: HostRuntime) -> ExitCode {
    open_standard_streams(&rt);
    match program_words(rt.alloc(), &rt) {
        Ok(words) => run_command(&rt, &rt, &words),
        Err(WordsFault::NotText) => ended_not_text(&rt),
        Err(WordsFault::OutOfMemory) => ended_script(&rt, ScriptEnd::OutOfMemory),
    }
}
