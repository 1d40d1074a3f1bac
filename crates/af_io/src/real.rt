// Sources and sinks over std's readers and writers. Their content is not observable, and their faults are counted.
ghost use Rattle.std.specs.Prelude.{◌≡◌, ◌≤◌, ◌<◌, length, take, MatchOption};
ghost use Rattle.std.specs.declared.option.Option.TheVariants.{None};
ghost use Rattle.std.specs.Io.KnownBytes.{Appends, Keeps};
ghost use Rattle.af_io.specs.Observed.{CountsOneFault};
ghost use Rattle.af_io.specs.Flow.{GotFits};
ghost use Rattle.af_io.specs.Real.{SourceReads, SinkWrites, ReadsOn, WritesOn};

use crate::faults::faults_after;
use crate::{Got, Put, Reason, Sink, Source};
use std::io::{ErrorKind, Read, Write};
use std::marker::Model;

// A call, and at most 1000 more if it is interrupted.
const ATTEMPTS: u32 = 1001;

/// A source over any reader. An interrupted read is made again, at most 1000 times, and then it is a fault, as every
/// other error is. The count of faults stands still at 2^64 - 1.
#[derive(Drop)]
pub struct StdSource<R: Read + Drop> {
    reader: R,
    faults: u64,
    reason: Option<Reason>,
}

impl<R: Read + Drop> Model for StdSource<R> {
    ghost use Rattle.af_io.specs.Real.{ReaderState};

    ghost Value = { ReaderState };

    ghost view = { λ a. record { remaining = R.remaining a.reader; faults = a.faults } };
}

impl<R: Read + Drop> StdSource<R> {
    /// A source of what this reader gives.
    pub fn new(reader: R) -> StdSource<R>
        ensures { result ≡ record { remaining = R.remaining reader; faults = 0 } }
    {
        StdSource {
            reader,
            faults: 0,
            reason: None,
        }
    }

    /// Why a read failed last, if one did.
    pub fn reason(&self) -> Option<Reason> {
        self.reason
    }
}

impl<R: Read + Drop> Source for StdSource<R> {
    ghost left = { λ _. None };

    ghost faults = { λ source. source.faults };

    ghost reads = { SourceReads };

    fn read(&mut self, into: &mut [u8]) -> Got
        requires { 0 < length into.old }
        ensures bound { GotFits result (length into.new) None }
        ensures step { SourceReads self.old result into.new self.new }
    {
        let got = read_some(&mut self.reader, into, &mut self.reason);
        self.faults = faults_after(self.faults, got == Got::Failed);
        got
    }
}

/// A sink over any writer. An interrupted write is made again, at most 1000 times, and then it is a fault, as every
/// other error is, and a write that takes nothing. The count of faults stands still at 2^64 - 1.
#[derive(Drop)]
pub struct StdSink<W: Write + Drop> {
    writer: W,
    faults: u64,
    reason: Option<Reason>,
}

impl<W: Write + Drop> Model for StdSink<W> {
    ghost use Rattle.af_io.specs.Real.{WriterState};

    ghost Value = { WriterState };

    ghost view = { λ a. record { contents = W.contents a.writer; faults = a.faults } };
}

impl<W: Write + Drop> StdSink<W> {
    /// A sink that hands all to this writer.
    pub fn new(writer: W) -> StdSink<W>
        ensures { result ≡ record { contents = W.contents writer; faults = 0 } }
    {
        StdSink {
            writer,
            faults: 0,
            reason: None,
        }
    }

    /// Why a write failed last, if one did.
    pub fn reason(&self) -> Option<Reason> {
        self.reason
    }
}

impl<W: Write + Drop> Sink for StdSink<W> {
    ghost held = { λ _. None };

    ghost faults = { λ sink. sink.faults };

    ghost writes = { SinkWrites };

    fn write(&mut self, piece: &[u8]) -> Put
        requires { 0 < length piece.now }
        ensures step { SinkWrites self.old piece.now result self.new }
    {
        let put = write_whole(&mut self.writer, piece, &mut self.reason);
        self.faults = faults_after(self.faults, put == Put::Failed);
        put
    }
}

/// A read, made again where it is interrupted. Where it fails the reason is kept.
pub fn read_some<R: Read>(reader: &mut R, into: &mut [u8], reason: &mut Option<Reason>) -> Got
    requires { 0 < length into.old }
    ensures { ReadsOn result (R.remaining reader.old) into.new (R.remaining reader.new) }
{
    for _ in 0..ATTEMPTS {
        match reader.read(into) {
            Ok(0) => return Got::Ended,
            Ok(count) => return Got::Bytes(count),
            Err(e) => {
                *reason = Some(Reason::new(e));
                if e.kind() != ErrorKind::Interrupted {
                    return Got::Failed;
                }
            }
        }
    }
    Got::Failed
}

// Writes a first part of a piece, and tries again if interrupted. None means that it failed and wrote nothing. The reason is
// kept.
fn write_some<W: Write>(writer: &mut W, piece: &[u8], reason: &mut Option<Reason>) -> Option<usize>
    ensures { MatchOption result (Keeps (W.contents writer.old) (W.contents writer.new))
        (λ count. (1 ≤ count) × (count ≤ length piece.now)
        × Appends (W.contents writer.old) (W.contents writer.new) (take count piece.now)) }
{
    for _ in 0..ATTEMPTS {
        match writer.write(piece) {
            Ok(0) => {
                *reason = Some(Reason::nothing_taken());
                return None;
            }
            Ok(count) => return Some(count),
            Err(e) => {
                *reason = Some(Reason::new(e));
                if e.kind() != ErrorKind::Interrupted {
                    return None;
                }
            }
        }
    }
    None
}

/// Writes a piece part by part. Where it fails the reason is kept.
pub fn write_whole<W: Write>(writer: &mut W, piece: &[u8], reason: &mut Option<Reason>) -> Put
    ensures { WritesOn result (W.contents writer.old) piece.now (W.contents writer.new) }
{
    let mut written = 0;
    while written < piece.len() {
        let Some(count) = write_some(writer, &piece[written..], reason) else {
            return Put::Failed;
        };
        written += count;
    }
    Put::Done
}
