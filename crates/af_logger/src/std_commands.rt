// Commands of the system. They are not observable.
ghost use Rattle.std.specs.Prelude.{◌≡◌, ◌≤◌, length};
ghost use Rattle.std.specs.declared.option.Option.TheVariants.{None};

use crate::commands::{Commands, PieceTerms};
use af_process::shell_status;
use libc::net as c;
use libc::types::pollfd;
use std::alloc::Global;
use std::fs::Files;
use std::io::{self, PipeWriter, Write};
use std::os::fd::AsRawFd;
use std::process::{Child, Command, OpenProcess, Processes, Stdio};
use std::thread;
use std::time::{Clock, Duration};

/// The status of a command that could not be started.
const NOT_STARTED: u8 = 127;

/// What runs first: it has the command's output go where errors go, and then becomes the shell that runs the command.
const FRONT: &str = "exec sh -c \"$0\" >&2";

/// The most bytes of one write. A pipe that is ready takes so many at once.
const SHARE: usize = 4096;

/// How many milliseconds pass between two looks at whether a command has ended.
const PAUSE_MILLIS: u64 = 5;

/// How often a command is looked at at most, and how often a pipe is written to.
const MOST_LOOKS: u32 = 1000000;

// A command: its program, if it could be started, our end of its input, and when that was closed.
#[derive(Drop)]
struct Running<P: OpenProcess + Drop> {
    program: Option<Child<P>>,
    input: Option<PipeWriter>,
    closed: Option<Duration>,
}

impl<P: OpenProcess + Drop> Running<P> {
    // Its status, if it has ended.
    fn look(&mut self) -> Option<u8> {
        let Some(program) = &mut self.program else {
            return Some(NOT_STARTED);
        };
        match program.try_wait() {
            Ok(None) => None,
            Ok(Some(status)) => Some(status_of(shell_status(status))),
            Err(_) => Some(NOT_STARTED),
        }
    }
}

/// Runs commands by `sh -c`. A command's standard input is a pipe, and both its outputs go to the standard error of this program.
/// Its environment has `AUDIOFILE_TIME`, `AUDIOFILE_FRAMES` and `AUDIOFILE_PIECE`.
#[derive(Drop)]
pub struct StdCommands<R: Processes + Files + Clock + Drop> {
    rt: R,
    waiting: Option<Running<R::Started>>,
    last: Option<Running<R::Started>>,
}

impl<R: Processes + Files + Clock + Drop> StdCommands<R> {
    /// Commands of this runtime. None runs.
    pub fn new(rt: R) -> StdCommands<R> {
        StdCommands {
            rt,
            waiting: None,
            last: None,
        }
    }
}

// Starts the shell of a command.
fn started<R: Processes + Files>(
    rt: &R,
    alloc: Global,
    text: &str,
    terms: PieceTerms,
) -> io::Result<Running<R::Started>> {
    let (theirs, ours) = io::pipe(rt)?;
    let time = format!(in alloc; "{}", terms.time.0)?;
    let frames = format!(in alloc; "{}", terms.frames)?;
    let number = format!(in alloc; "{}", terms.number)?;
    let mut command = Command::new(alloc, "sh")?;
    command.arg("-c")?.arg(FRONT)?.arg(text)?;
    command.env("AUDIOFILE_TIME", time.as_str())?;
    command.env("AUDIOFILE_FRAMES", frames.as_str())?;
    command.env("AUDIOFILE_PIECE", number.as_str())?;
    command
        .stdin(Stdio::from(theirs))
        .stdout(Stdio::null())
        .stderr(Stdio::inherit());
    Ok(Running {
        program: Some(command.spawn(rt)?),
        input: Some(ours),
        closed: None,
    })
}

// One that could not be started.
fn not_started<P: OpenProcess + Drop>() -> Running<P> {
    Running {
        program: None,
        input: None,
        closed: None,
    }
}

// The milliseconds that are left until so many after a moment. None: the clock cannot be read.
fn millis_left<C: Clock>(clock: &C, since: Duration, limit: u32) -> u32
    ensures { result ≤ limit }
{
    let Ok(now) = clock.monotonic() else {
        return 0;
    };
    let gone = now.saturating_sub(since).as_millis();
    u64::from(limit).saturating_sub(u64::try_from(gone).unwrap_or(u64::MAX)) as u32
}

// Waits at most so many milliseconds until a pipe takes bytes.
fn is_ready(input: &PipeWriter, patience: u32) -> bool {
    let mut fds = [pollfd {
        fd: input.as_raw_fd(),
        events: c::POLLOUT,
        revents: 0,
    }];
    c::poll(&mut fds, patience.min(1000000) as i32) > 0
}

// Writes to a pipe, as far as it takes all within so many milliseconds.
fn write_within<C: Clock>(clock: &C, input: &mut PipeWriter, bytes: &[u8], patience: u32) -> usize
    ensures { result ≤ length bytes.now }
{
    let Ok(begun) = clock.monotonic() else {
        return 0;
    };
    let mut taken = 0;
    for _ in 0..MOST_LOOKS {
        if taken == bytes.len() || !is_ready(input, millis_left(clock, begun, patience)) {
            return taken;
        }
        let share = (bytes.len() - taken).min(SHARE);
        match input.write(&bytes[taken..taken + share]) {
            Ok(0) => return taken,
            Ok(count) => taken += count,
            Err(e) if e.kind() == io::ErrorKind::Interrupted => {}
            Err(_) => return taken,
        }
    }
    taken
}

// Waits until a program has ended, or so many milliseconds after its input was closed.
fn wait_within<C: Clock, P: OpenProcess + Drop>(
    clock: &C,
    program: &mut Child<P>,
    closed: Duration,
    patience: u32,
) -> Option<u8> {
    for _ in 0..MOST_LOOKS {
        match program.try_wait() {
            Ok(None) => {}
            Ok(Some(status)) => return Some(status_of(shell_status(status))),
            Err(_) => return Some(NOT_STARTED),
        }
        if millis_left(clock, closed, patience) == 0 {
            return None;
        }
        thread::sleep(clock, Duration::from_millis(PAUSE_MILLIS));
    }
    None
}

// A status as a shell has it.
fn status_of(status: i32) -> u8 {
    u8::try_from(status).unwrap_or(u8::MAX)
}

// Waits for the end of a program, without a limit.
fn wait_for<P: OpenProcess + Drop>(program: &mut Child<P>) -> u8 {
    match program.wait() {
        Ok(status) => status_of(shell_status(status)),
        Err(_) => NOT_STARTED,
    }
}

// Waits for the end of a command. One that still runs so many milliseconds after its input was closed is killed.
fn finished<C: Clock, P: OpenProcess + Drop>(
    clock: &C,
    running: Running<P>,
    patience: Option<u32>,
) -> u8 {
    let Running {
        program,
        input,
        closed,
    } = running;
    drop(input);
    let Some(mut program) = program else {
        return NOT_STARTED;
    };
    if let Some(patience) = patience {
        let closed = closed.unwrap_or(Duration::ZERO);
        if let Some(status) = wait_within(clock, &mut program, closed, patience) {
            return status;
        }
        let _ = program.kill();
    }
    wait_for(&mut program)
}

impl<R: Processes + Files + Clock + Drop> Commands for StdCommands<R> {
    ghost desk = { λ _. None };

    fn start(&mut self, alloc: Global, text: &str, terms: PieceTerms) {
        self.waiting = self.last.take();
        self.last = Some(match started(&self.rt, alloc, text, terms) {
            Ok(running) => running,
            Err(_) => not_started(),
        });
    }

    fn hand(&mut self, bytes: &[u8], patience: u32) -> usize
        ensures bound { result ≤ length bytes.now }
    {
        match &mut self.last {
            Some(
                Running {
                    input: Some(input),
                    ..
                },
            ) => write_within(&self.rt, input, bytes, patience),
            _ => 0,
        }
    }

    fn close(&mut self) {
        let now = self.rt.monotonic().ok();
        if let Some(running) = &mut self.last {
            running.input = None;
            running.closed = now;
        }
    }

    fn look(&mut self) -> Option<u8> {
        let Some(running) = &mut self.waiting else {
            return None;
        };
        let ended = running.look();
        if ended.is_some() {
            self.waiting = None;
        }
        ended
    }

    fn finish(&mut self, patience: Option<u32>) -> u8 {
        let running = match self.waiting.take() {
            Some(running) => Some(running),
            None => self.last.take(),
        };
        match running {
            Some(running) => finished(&self.rt, running, patience),
            None => NOT_STARTED,
        }
    }
}
