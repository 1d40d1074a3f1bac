// A program of the system that runs as a command.
ghost use Rattle.std.specs.Prelude.{◌≤◌};
ghost use Rattle.arrayvec.specs.ArrayVec.{array_vec_len};

use af_process::{Words, command_of, shell_status};
use std::alloc::Global;
use std::io::{self, ErrorKind};
use std::process::{Child, OpenProcess, Processes, Stdio};

/// Starts the program of these words. It has no input, what it writes goes nowhere, and its errors go where ours go.
pub(crate) fn spawned<R: Processes>(
    rt: &R,
    alloc: Global,
    words: &Words,
) -> io::Result<Child<R::Started>>
    requires { 1 ≤ array_vec_len words.now }
{
    let mut command = command_of(alloc, words)?;
    command
        .stdin(Stdio::null())
        .stdout(Stdio::null())
        .stderr(Stdio::inherit());
    command.spawn(rt)
}

/// Whether a start failed since the machine is out of memory.
pub(crate) fn is_starved(fault: &io::Error) -> bool {
    fault.kind() == ErrorKind::OutOfMemory
}

/// Whether a program still runs. One that cannot be asked counts as ended: it is waited for then.
pub(crate) fn still_runs<P: OpenProcess + Drop>(program: &mut Child<P>) -> bool {
    matches!(program.try_wait(), Ok(None))
}

/// Waits for the end of a program, and answers its status as a shell tells it.
pub(crate) fn finished<P: OpenProcess + Drop>(mut program: Child<P>) -> Option<i32> {
    match program.wait() {
        Ok(status) => Some(shell_status(status)),
        Err(_) => None,
    }
}
