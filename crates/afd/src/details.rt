// The lines after that of the end, if details are wanted.
use af_io::{Args, StdSink, StdSource};
use af_shown::Shown;
use afd_details::{
    KeptSource, tell_config_fault, tell_long_config, tell_reason, tell_script_fault, tell_usage,
};
use afd_log::{ListenRefusal, Log};
use afd_script::ScriptEnd;
use afd_serve::LiveEnd;
use std::io::{Read, Write};

/// Says why a script ended as it did.
pub(crate) fn tell_script<R: Read + Drop, W: Write + Drop>(
    rt: &HostRuntime,
    words: &Args,
    end: ScriptEnd,
    source: &KeptSource<StdSource<R>>,
    sink: &StdSink<W>,
) {
    match (end, source.kept()) {
        (ScriptEnd::Usage, _) => tell_usage(rt, rt.alloc(), words),
        (ScriptEnd::ScriptFault { line }, Some(text)) => tell_script_fault(rt, text, line),
        (ScriptEnd::ReadFault, _) => tell_reason(rt, "standard input", source.source().reason()),
        (ScriptEnd::SinkFault, _) => tell_reason(rt, "standard output", sink.reason()),
        _ => {}
    }
}

/// Says why the server ended as it did.
pub(crate) fn tell_live<R: Read + Drop>(
    rt: &HostRuntime,
    words: &Args,
    end: LiveEnd,
    source: &KeptSource<StdSource<R>>,
    refusal: Option<ListenRefusal>,
    log: &Log<'_>,
) {
    match (end, source.kept()) {
        (LiveEnd::Usage, _) => tell_usage(rt, rt.alloc(), words),
        (LiveEnd::ConfigFault { line }, Some(text)) => tell_config_fault(rt, text, line),
        (LiveEnd::TooLong, _) => tell_long_config(rt, source.first()),
        (LiveEnd::ReadFault, _) => tell_reason(rt, "standard input", source.source().reason()),
        (LiveEnd::ListenFault, _) => tell_listen(rt, words, refusal),
        (LiveEnd::AttachFault { device: _ }, _) => tell_attach(rt, log),
        _ => {}
    }
}

/// Says why it cannot be listened at the address of the words.
fn tell_listen(rt: &HostRuntime, words: &Args, refusal: Option<ListenRefusal>) {
    if let (Some(address), Some(refusal)) = (words.word(1), refusal) {
        let address = Shown::new(address.as_bytes());
        let _ = eprintln!(rt; "afd: {address}: {refusal}");
    }
}

/// Says which file the system refused, and why.
fn tell_attach(rt: &HostRuntime, log: &Log<'_>) {
    if let Some(refusal) = log.take_refusal() {
        let name = Shown::new(refusal.name.as_bytes());
        let reason = refusal.reason;
        let _ = eprintln!(rt; "afd: {name}: {reason}");
    }
}
