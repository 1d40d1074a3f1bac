// A runtime whose child programs hold nobody up.
use crate::input::DeadlineInput;
use crate::process::DeadlineProcess;
use std::alloc::Allocator;
use std::cell::Cell;
use std::io;
use std::net::Net;
use std::os::fd::OwnedFd;
use std::os::unix::net::UnixStream;
use std::process::{Child, Command, OpenProcess, Processes, Stdio};
use std::time::Clock;

/// A runtime over another, whose child programs hold nobody up. Where a child is to be given bytes, its standard input is a
/// socket. A write waits at most 20 milliseconds until it is taken whole, and the first that is not is the last. A child is
/// waited for at most 100 milliseconds, and killed then.
#[derive(Drop)]
pub struct DeadlineRuntime<'a, R, C> {
    programs: R,
    system: &'a C,
    late: &'a Cell<u64>,
}

impl<'a, R, C> DeadlineRuntime<'a, R, C> {
    /// These programs, over the sockets of a system and by its clock. Writes that are not taken in time are counted there.
    pub fn new(programs: R, system: &'a C, late: &'a Cell<u64>) -> DeadlineRuntime<'a, R, C> {
        DeadlineRuntime {
            programs,
            system,
            late,
        }
    }
}

impl<'a, R: Processes, C: Net + Clock> Processes for DeadlineRuntime<'a, R, C> {
    type Started = DeadlineProcess<'a, R::Started, C>;

    fn spawn<B: Allocator + Clone>(
        &self,
        command: &Command<B>,
        stdin: &Stdio,
        stdout: &Stdio,
        stderr: &Stdio,
    ) -> io::Result<Child<DeadlineProcess<'a, R::Started, C>>> {
        if !stdin.makes_pipe() {
            let child = self.programs.spawn(command, stdin, stdout, stderr)?;
            return Ok(with_deadlines(child, None, self.system));
        }
        let (ours, theirs) = UnixStream::pair(self.system)?;
        ours.set_nonblocking(true)?;
        let input = DeadlineInput::new(ours, self.system, self.late);
        let stdin = Stdio::from(OwnedFd::from(theirs));
        let child = self.programs.spawn(command, &stdin, stdout, stderr)?;
        Ok(with_deadlines(child, Some(input), self.system))
    }
}

/// A child with this input, that is waited for by this clock.
fn with_deadlines<'a, P: OpenProcess + Drop, C: Clock>(
    mut child: Child<P>,
    input: Option<DeadlineInput<'a, UnixStream, C>>,
    clock: &'a C,
) -> Child<DeadlineProcess<'a, P, C>> {
    let stdout = child.stdout.take();
    let stderr = child.stderr.take();
    Child::from_parts(DeadlineProcess::new(child, clock), input, stdout, stderr)
}
