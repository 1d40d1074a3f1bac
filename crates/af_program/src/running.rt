// A program that runs.
ghost use Rattle.std.specs.Prelude.{◌≡◌, ◌≤◌, ◌<◌, false, is_some, length, IfOk};
ghost use Rattle.arrayvec.specs.ArrayVec.{array_vec_len};
ghost use Rattle.af_program.specs.Acts.{GaveFits, TookFits};
ghost use Rattle.af_program.specs.Sockets.{is_given, is_giving, GivesWhere, TakesWhere};

use crate::pieces::{give_to, take_from};
use crate::sockets::{way_in, way_out};
use crate::{Gave, Took, Ways};
use af_process::{Words, command_of};
use std::alloc::Global;
use std::io;
use std::marker::Model;
use std::net::Net;
use std::os::unix::net::UnixStream;
use std::process::{Child, OpenProcess, Processes, Stdio};

/// How many nanoseconds lie between two looks at whether a program has ended.
const LOOK_NANOS: u64 = 1_000_000_000;

/// A program that runs, with our ends of the sockets to its input and from its output. Contracts see which ways it has.
#[derive(Drop)]
pub(crate) struct Running<P: OpenProcess + Drop> {
    child: Child<P>,
    ways: Ways,
    input: Option<UnixStream>,
    output: Option<UnixStream>,
    // the moment of the last look
    looked: u64,
}

impl<P: OpenProcess + Drop> Model for Running<P> {
    ghost use Rattle.std.specs.Prelude.{◌≡◌, is_some};
    ghost use Rattle.af_program.specs.declared.ways.Ways.{Ways};
    ghost use Rattle.af_program.specs.Sockets.{is_given, is_giving};

    ghost Value = { Ways };

    ghost view = { λ a. a.ways };

    ghost invariant = { λ a. (is_some a.input ≡ is_given a.ways) × (is_some a.output ≡ is_giving a.ways) };
}

impl<P: OpenProcess + Drop> Running<P> {
    /// Takes what it gives.
    pub(crate) fn take(&mut self, into: &mut [u8]) -> Gave
        requires { 0 < length into.old }
        ensures bound { GaveFits result (length into.new) }
        ensures way { is_giving self.old ≡ false → result ≡ Gave.Ended }
        ensures same { self.new ≡ self.old }
    {
        match &mut self.output {
            Some(socket) => take_from(socket, into),
            None => Gave::Ended,
        }
    }

    /// Gives it bytes.
    pub(crate) fn give(&mut self, bytes: &[u8]) -> Took
        ensures bound { TookFits result (length bytes.now) }
        ensures way { is_given self.old ≡ false → result ≡ Took.Ended }
        ensures same { self.new ≡ self.old }
    {
        match &mut self.input {
            Some(socket) => give_to(socket, bytes),
            None => Took::Ended,
        }
    }

    /// Our end of the socket to its input.
    pub(crate) fn input(&self) -> Option<&UnixStream>
        ensures { is_some result ≡ is_given self.now }
    {
        self.input.as_ref()
    }

    /// Our end of the socket from its output.
    pub(crate) fn output(&self) -> Option<&UnixStream>
        ensures { is_some result ≡ is_giving self.now }
    {
        self.output.as_ref()
    }

    /// Waits for it at most once a second, if it has ended, so that it is no zombie while another program holds its output.
    pub(crate) fn look(&mut self, at: u64)
        ensures { self.new ≡ self.old }
    {
        if at.saturating_sub(self.looked) >= LOOK_NANOS {
            self.looked = at;
            // the child keeps its status until that is asked for
            let _ = self.child.try_wait();
        }
    }

    /// Closes its sockets.
    pub(crate) fn closed(self) -> Child<P> {
        self.child
    }
}

/// Starts the program of these words, with a buffer of about so many bytes before its input. Its standard error is ours.
pub(crate) fn start<R: Processes + Net>(
    rt: &R,
    alloc: Global,
    words: &Words,
    ways: Ways,
    input_bytes: u32,
) -> io::Result<Running<R::Started>>
    requires { 1 ≤ array_vec_len words.now }
    ensures { IfOk result (λ running. running ≡ ways) }
{
    let mut command = command_of(alloc, words)?;
    let input = way_in(rt, ways, input_bytes)?;
    let output = way_out(rt, ways)?;
    command
        .stdin(input.theirs)
        .stdout(output.theirs)
        .stderr(Stdio::inherit());
    Ok(Running {
        child: command.spawn(rt)?,
        ways,
        input: input.ours,
        output: output.ours,
        looked: 0,
    })
}

/// Takes what a program gives, if one runs.
pub(crate) fn take<P: OpenProcess + Drop>(running: &mut Option<Running<P>>, into: &mut [u8]) -> Gave
    requires { 0 < length into.old }
    ensures bound { GaveFits result (length into.new) }
    ensures way { GivesWhere running.old result }
    ensures same { running.new ≡ running.old }
{
    match running {
        Some(running) => running.take(into),
        None => Gave::Ended,
    }
}

/// Gives bytes to a program, if one runs.
pub(crate) fn give<P: OpenProcess + Drop>(running: &mut Option<Running<P>>, bytes: &[u8]) -> Took
    ensures bound { TookFits result (length bytes.now) }
    ensures way { TakesWhere running.old result }
    ensures same { running.new ≡ running.old }
{
    match running {
        Some(running) => running.give(bytes),
        None => Took::Ended,
    }
}

/// Looks whether a program has ended, if one runs.
pub(crate) fn look<P: OpenProcess + Drop>(running: &mut Option<Running<P>>, at: u64)
    ensures { running.new ≡ running.old }
{
    if let Some(running) = running {
        running.look(at);
    }
}
