// The line that says how the program ended.
use afd_log::Front;
use afd_script::ScriptEnd;
use afd_serve::LiveEnd;
use std::io;

/// Says on standard error how a script ended.
pub(crate) fn report_script(rt: &impl Eprint, end: ScriptEnd) -> io::Result<()> {
    match end {
        ScriptEnd::Done => Ok(()),
        ScriptEnd::Usage => eprintln!(rt; "afd: usage"),
        ScriptEnd::ScriptFault { line } => eprintln!(rt; "afd: line {line}"),
        ScriptEnd::TooLong => eprintln!(rt; "afd: input too long"),
        ScriptEnd::ReadFault => eprintln!(rt; "afd: read failed"),
        ScriptEnd::SinkFault => eprintln!(rt; "afd: write failed"),
        ScriptEnd::OutOfMemory => eprintln!(rt; "afd: out of memory"),
    }
}

/// Says on standard error how the server ended, after this front.
pub(crate) fn report_live(rt: &impl Eprint, front: Front, end: LiveEnd) -> io::Result<()> {
    match end {
        LiveEnd::Done => Ok(()),
        LiveEnd::Usage => eprintln!(rt; "{front}usage"),
        LiveEnd::ConfigFault { line } => eprintln!(rt; "{front}line {line}"),
        LiveEnd::TooLong => eprintln!(rt; "{front}input too long"),
        LiveEnd::ReadFault => eprintln!(rt; "{front}read failed"),
        LiveEnd::OutOfMemory => eprintln!(rt; "{front}out of memory"),
        LiveEnd::ListenFault => eprintln!(rt; "{front}listen failed"),
        LiveEnd::AttachFault { device } => eprintln!(rt; "{front}device {device} failed"),
        LiveEnd::WaitFault => eprintln!(rt; "{front}wait failed"),
        LiveEnd::WaitsSpent => eprintln!(rt; "{front}waits spent"),
    }
}
