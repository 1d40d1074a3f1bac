// A child that holds nobody up at its end.
use crate::deadline::{Deadline, MOST_LOOKS};
use crate::input::DeadlineInput;
use std::io;
use std::os::unix::net::UnixStream;
use std::process::{Child, ExitStatus, OpenProcess};
use std::time::{Clock, Duration};

/// How many milliseconds a child may take to end.
const END_MILLIS: u64 = 100;

/// A child. It is waited for at most 100 milliseconds, and killed then.
#[derive(Drop)]
pub struct DeadlineProcess<'a, P: OpenProcess + Drop, C: Clock> {
    child: Child<P>,
    clock: &'a C,
    // how it ended, once it was waited for
    ended: Option<ExitStatus>,
}

impl<'a, P: OpenProcess + Drop, C: Clock> DeadlineProcess<'a, P, C> {
    /// This child, by this clock.
    pub(crate) fn new(child: Child<P>, clock: &'a C) -> DeadlineProcess<'a, P, C> {
        DeadlineProcess {
            child,
            clock,
            ended: None,
        }
    }
}

impl<'a, P: OpenProcess + Drop, C: Clock> OpenProcess for DeadlineProcess<'a, P, C> {
    type Stdin = DeadlineInput<'a, UnixStream, C>;

    type Stdout = P::Stdout;

    type Stderr = P::Stderr;

    fn id(&self) -> u32 {
        self.child.id()
    }

    fn wait(&mut self) -> io::Result<ExitStatus> {
        if self.ended.is_none() {
            let limit = Duration::from_millis(END_MILLIS);
            self.ended = ended_within(&mut self.child, self.clock, limit)?;
        }
        if let Some(status) = self.ended {
            return Ok(status);
        }
        self.child.kill()?;
        let status = self.child.wait()?;
        self.ended = Some(status);
        Ok(status)
    }

    fn try_wait(&mut self) -> io::Result<Option<ExitStatus>> {
        self.child.try_wait()
    }

    fn kill(&mut self) -> io::Result<()> {
        self.child.kill()
    }
}

/// How a child ended, if it does within a time.
fn ended_within<P: OpenProcess, C: Clock>(
    child: &mut Child<P>,
    clock: &C,
    limit: Duration,
) -> io::Result<Option<ExitStatus>> {
    let deadline = Deadline::after(clock, limit)?;
    for _ in 0..MOST_LOOKS {
        let ended = child.try_wait()?;
        if ended.is_some() || !deadline.wait() {
            return Ok(ended);
        }
    }
    Ok(None)
}
