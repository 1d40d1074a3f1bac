// A play whose sound would be typed.
use af_cli::{Call, Task, call_of};
use af_io::Args;
use std::alloc::Global;
use std::io::{IsTerminal, Lock};

/// Tells that a play waits for its sound at a terminal, where nobody may know of it.
pub fn tell_typed(rt: &HostRuntime, alloc: Global, words: &Args) {
    if let Ok(Call::One(call)) = call_of(alloc, words)
        && let Task::Play(_) = call.task
        && rt.stdin().is_terminal()
    {
        let _ = eprintln!(rt;
            "af: standard input is a terminal: what is typed is played, up to Ctrl-D; a file is played by < FILE"
        );
    }
}
