// A program of the system. Its acts are not observable.
ghost use Rattle.std.specs.Prelude.{◌≡◌, ◌≢◌, ◌≤◌, ◌<◌, ◌+◌, ◌&&◌, true, false, is_some, length, IfOk, IsTrue, IsFalse, IsSome};
ghost use Rattle.std.specs.declared.option.Option.TheVariants.{None, Some};
ghost use Rattle.arrayvec.specs.ArrayVec.{array_vec_len};
ghost use Rattle.af_process.specs.Acts.{words_of};
ghost use Rattle.af_program.specs.Acts.{launched, runs_after, GaveFits, TookFits};
ghost use Rattle.af_program.specs.Sockets.{is_given, is_giving};

use crate::ending::{Ending, keep, tend};
use crate::running::{Running, give, look, start, take};
use crate::{Gave, Launched, Program, ProgramSockets, Took, Ways};
use af_io::Reason;
use af_process::Words;
use af_time::OutOfMemory;
use std::alloc::Global;
use std::io::{Error, ErrorKind};
use std::marker::Model;
use std::net::Net;
use std::os::fd::AsRawFd;
use std::os::unix::net::UnixStream;
use std::process::{OpenProcess, Processes};

/// How many programs that were ended are looked after at once.
const MOST_ENDING: usize = 8;

/// Starts a program, whose name is looked up in `PATH`, over sockets that do not block: one to its standard input, one from its
/// standard output, or both. Its standard error is that of this program.
///
/// A take or give makes one call of the system, and at most 1000 more where it is interrupted. An error is told as an end. A
/// program that was ended has its sockets closed. Where eight of those that were ended have not yet, a start fails, and so does
/// one while the program runs. Where this is dropped the programs are left, and the sockets are closed.
#[derive(Drop)]
pub struct SocketProgram<R: Processes + Net + Drop> {
    rt: R,
    ways: Ways,
    input_bytes: u32,
    running: Option<Running<R::Started>>,
    // those that were told to end, in this order
    ending: Vec<Ending<R::Started>>,
    reason: Option<Reason>,
    ended: Option<i32>,
}

impl<R: Processes + Net + Drop> Model for SocketProgram<R> {
    ghost use Rattle.std.specs.Prelude.{◌≡◌, ◌≤◌, ◌<◌, is_some, IfSome, IsTrue};
    ghost use Rattle.std.specs.Vec.{vec_capacity, vec_len};
    ghost use Rattle.af_program.specs.Sockets.{SocketProgramState};

    ghost Value = { SocketProgramState };

    ghost view = { λ a. record {
      ways = a.ways;
      input_bytes = a.input_bytes;
      runs = is_some a.running;
      ending = vec_len a.ending;
      reason = a.reason;
      ended = a.ended;
    } };

    // there is room for the program that runs among those that were told to end
    ghost invariant = { λ a. (8 ≤ vec_capacity a.ending) × (vec_len a.ending ≤ 8)
        × (IsTrue (is_some a.running) → vec_len a.ending < 8) × IfSome a.running (λ ways. ways ≡ a.ways) };
}

impl<R: Processes + Net + Drop> SocketProgram<R> {
    /// A program that was not started, of this runtime. Bytes go these ways. The buffer of the socket to its standard input has
    /// about so many bytes, as the system rounds them: Linux has at least 2,304, and small pieces take more of it than they have
    /// bytes. A program that is not given bytes has none. It asks nothing of the system.
    pub fn new(
        alloc: Global,
        rt: R,
        ways: Ways,
        input_bytes: u32,
    ) -> Result<SocketProgram<R>, OutOfMemory>
        ensures { IfOk result
            (λ program. program
            ≡ record { ways = ways; input_bytes = input_bytes; runs = false; ending = 0; reason = None; ended = None }) }
    {
        Ok(SocketProgram {
            rt,
            ways,
            input_bytes,
            running: None,
            ending: Vec::with_capacity(alloc, MOST_ENDING)?,
            reason: None,
            ended: None,
        })
    }

    /// Why a start failed last, if one did.
    pub fn reason(&self) -> Option<Reason>
        ensures { result ≡ self.now.reason }
    {
        self.reason
    }

    /// The status of the program that was ended last, if it has ended and that was seen: as a shell tells it, so 128 and the
    /// signal where a signal ended it.
    pub fn ended(&self) -> Option<i32>
        ensures { result ≡ self.now.ended }
    {
        self.ended
    }

    /// Our end of the socket to the standard input of the program, while it runs, if it is given bytes.
    pub fn input(&self) -> Option<&UnixStream>
        ensures { is_some result ≡ (self.now.runs && is_given self.now.ways) }
    {
        match &self.running {
            Some(running) => running.input(),
            None => None,
        }
    }

    /// Our end of the socket from the standard output of the program, while it runs, if it gives bytes.
    pub fn output(&self) -> Option<&UnixStream>
        ensures { is_some result ≡ (self.now.runs && is_giving self.now.ways) }
    {
        match &self.running {
            Some(running) => running.output(),
            None => None,
        }
    }
}

impl<R: Processes + Net + Drop> Program for SocketProgram<R> {
    ghost acts = { λ _. None };

    fn sockets(&self) -> ProgramSockets {
        ProgramSockets {
            input: self.input().map(|socket| socket.as_raw_fd()),
            output: self.output().map(|socket| socket.as_raw_fd()),
        }
    }

    fn note_captured(&mut self, _sound: &[u8])
        ensures same { self.new ≡ self.old }
    {}

    fn note_emitted(&mut self, _sound: &[u8])
        ensures same { self.new ≡ self.old }
    {}

    fn start(&mut self, alloc: Global, at: u64, words: &Words) -> Launched
        requires some { 1 ≤ array_vec_len words.now }
        ensures once { IsTrue self.old.runs → result ≡ Launched.Failed }
        ensures most { self.old.ending ≡ 8 → result ≡ Launched.Failed }
        ensures runs { self.new.runs ≡ runs_after self.old.runs (launched at (words_of words.now) result) }
        ensures reason { result ≡ Launched.Failed → IsSome self.new.reason }
        ensures no_reason { result ≢ Launched.Failed → self.new.reason ≡ self.old.reason }
        ensures rest { self.new ≡ record self.old { runs = self.new.runs; reason = self.new.reason } }
    {
        if self.running.is_some() {
            self.reason = Some(because(ErrorKind::AlreadyExists, "the program runs"));
            return Launched::Failed;
        }
        if self.ending.len() >= MOST_ENDING {
            self.reason = Some(because(ErrorKind::WouldBlock, "eight programs have not ended"));
            return Launched::Failed;
        }
        match start(&self.rt, alloc, words, self.ways, self.input_bytes) {
            Ok(running) => {
                self.running = Some(running);
                Launched::Runs
            }
            Err(e) if e.kind() == ErrorKind::OutOfMemory => Launched::OutOfMemory,
            Err(e) => {
                self.reason = Some(Reason::new(e));
                Launched::Failed
            }
        }
    }

    fn take(&mut self, into: &mut [u8]) -> Gave
        requires room { 0 < length into.old }
        ensures bound { GaveFits result (length into.new) }
        ensures way { (self.old.runs && is_giving self.old.ways) ≡ false → result ≡ Gave.Ended }
        ensures same { self.new ≡ self.old }
    {
        take(&mut self.running, into)
    }

    fn give(&mut self, bytes: &[u8]) -> Took
        ensures bound { TookFits result (length bytes.now) }
        ensures way { (self.old.runs && is_given self.old.ways) ≡ false → result ≡ Took.Ended }
        ensures same { self.new ≡ self.old }
    {
        give(&mut self.running, bytes)
    }

    fn end(&mut self, at: u64)
        ensures ended { IsTrue self.old.runs →
            self.new ≡ record self.old { runs = false; ending = self.old.ending + 1; ended = None } }
        ensures idle { IsFalse self.old.runs → self.new ≡ self.old }
    {
        let Some(running) = self.running.take() else {
            return;
        };
        keep(&mut self.ending, running.closed(), at);
        self.ended = None;
    }

    fn tend(&mut self, at: u64)
        ensures fewer { self.new.ending ≤ self.old.ending }
        ensures once { IsSome self.old.ended → self.new.ended ≡ self.old.ended }
        ensures rest { self.new ≡ record self.old { ending = self.new.ending; ended = self.new.ended } }
    {
        look(&mut self.running, at);
        let seen = tend(&mut self.ending, at);
        self.ended = self.ended.or(seen);
    }
}

/// The reason of a refusal of our own.
fn because(kind: ErrorKind, words: &str) -> Reason {
    Reason::new(Error::new(kind, words))
}
