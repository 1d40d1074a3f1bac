// Child programs that run, each under its number.
ghost use Rattle.std.specs.Prelude.{◌≡◌, ◌≤◌, ◌<◌, ◌^◌, ◌-◌, ℕ, length, IfSome};
ghost use Rattle.arrayvec.specs.ArrayVec.{array_vec_len};
ghost use Rattle.af_process.specs.Memory.{shell_status, EndsAsTold};

use crate::{Finished, Started, Words, command_of};
use af_io::{Put, Sink, StdSink};
use std::alloc::Global;
use std::io::{self, ErrorKind};
use std::os::unix::process::ExitStatusExt;
use std::process::{Child, ExitStatus, OpenProcess, Processes, Stdio};

/// A child that runs: its number, what hands it bytes, and its program.
#[derive(Drop)]
pub(crate) struct RunningChild<P: OpenProcess + Drop> {
    number: u32,
    input: StdSink<P::Stdin>,
    program: Child<P>,
}

/// The place of the child with a number, if it runs.
fn place_of<P: OpenProcess + Drop>(children: &[RunningChild<P>], number: u32) -> Option<usize>
    ensures { IfSome result (λ place. place < length children.now) }
{
    for (place, child) in children.iter().enumerate() {
        if child.number == number {
            return Some(place);
        }
    }
    None
}

/// Starts the program of these words as the child with this number. No more than 2^32 - 1 are started.
pub(crate) fn start<R: Processes>(
    rt: &R,
    alloc: Global,
    words: &Words,
    number: u32,
    children: &mut Option<Vec<RunningChild<R::Started>>>,
) -> Started
    requires { 1 ≤ array_vec_len words.now }
    ensures child { (child : ℕ) → result ≡ Started.Child child → child ≡ number }
    ensures most { number ≡ 2 ^ 32 - 1 → result ≡ Started.Failed }
{
    if number == u32::MAX {
        return Started::Failed;
    }
    let mut running = match children.take() {
        Some(running) => running,
        None => Vec::new(alloc),
    };
    let started = keep_started(rt, alloc, words, number, &mut running);
    *children = Some(running);
    match started {
        Ok(()) => Started::Child(number),
        Err(e) if e.kind() == ErrorKind::OutOfMemory => Started::OutOfMemory,
        Err(_) => Started::Failed,
    }
}

/// Starts the program of these words, and keeps it with the others. What it writes goes nowhere, except its errors, which go
/// where ours go.
fn keep_started<R: Processes>(
    rt: &R,
    alloc: Global,
    words: &Words,
    number: u32,
    children: &mut Vec<RunningChild<R::Started>>,
) -> io::Result<()>
    requires { 1 ≤ array_vec_len words.now }
{
    // no child is started that could not be kept
    children.reserve(1)?;
    let mut command = command_of(alloc, words)?;
    command
        .stdin(Stdio::piped())
        .stdout(Stdio::null())
        .stderr(Stdio::inherit());
    let mut program = command.spawn(rt)?;
    let Some(input) = program.stdin.take() else {
        return Err(ErrorKind::BrokenPipe.into());
    };
    children.push_reserved(RunningChild {
        number,
        input: StdSink::new(input),
        program,
    });
    Ok(())
}

/// Hands a piece to a child, if it runs.
pub(crate) fn give<P: OpenProcess + Drop>(
    children: &mut Option<Vec<RunningChild<P>>>,
    number: u32,
    bytes: &[u8],
) -> Put {
    let Some(children) = children else {
        return Put::Failed;
    };
    match place_of(children.as_slice(), number) {
        Some(_) if bytes.is_empty() => Put::Done,
        Some(place) => children[place].input.write(bytes),
        None => Put::Failed,
    }
}

/// Takes a child, if it runs, out of the others.
fn taken<P: OpenProcess + Drop>(
    children: &mut Option<Vec<RunningChild<P>>>,
    number: u32,
) -> Option<RunningChild<P>> {
    let children = children.as_mut()?;
    let place = place_of(children.as_slice(), number)?;
    Some(children.remove(place))
}

/// Closes the input of a child, if it runs, and waits for its end.
pub(crate) fn finish<P: OpenProcess + Drop>(
    children: &mut Option<Vec<RunningChild<P>>>,
    number: u32,
) -> Finished
    ensures { EndsAsTold result }
{
    let Some(child) = taken(children, number) else {
        return Finished::Failed;
    };
    let RunningChild {
        number: _,
        input,
        mut program,
    } = child;
    drop(input);
    match program.wait() {
        Ok(status) => Finished::Ended(shell_status(status)),
        Err(_) => Finished::Failed,
    }
}

/// The status of a program as a shell tells it: of one that a signal ended, 128 and the signal.
pub fn shell_status(status: ExitStatus) -> i32
    ensures { result ≡ shell_status status }
{
    match status.code() {
        Some(code) => code,
        None => 128 + status.signal().unwrap_or(0),
    }
}
