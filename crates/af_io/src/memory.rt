// A source and a sink in memory, whose calls fail as listed.
ghost use Rattle.std.specs.Prelude.{◌≡◌, ◌≤◌, ◌<◌, ◌+◌, ◌↔◌, ◌⊎◌, ℕ, [], length, min, Contains};
ghost use Rattle.std.specs.declared.option.Option.TheVariants.{Some};
ghost use Rattle.af_io.specs.Observed.{Consumed, CountsOneFault, next_count};
ghost use Rattle.af_io.specs.Flow.{given_of, GotFits, Written};
ghost use Rattle.af_io.specs.Memory.{SourceGives, SinkTakes};

use crate::bytes::copy_first;
use crate::calls::Calls;
use crate::{Got, Put, Sink, Source};
use std::marker::Model;

/// Gives bytes in pieces of at most so many. The calls whose numbers are listed fail, and give nothing.
#[derive(Drop)]
pub struct MemSource<'a> {
    left: &'a [u8],
    piece: usize,
    fails: &'a [u64],
    calls: Calls,
}

impl<'a> Model for MemSource<'a> {
    ghost use Rattle.std.specs.Prelude.{◌≤◌};
    ghost use Rattle.af_io.specs.Memory.{SourceState};

    ghost Value = { SourceState };

    ghost view = { λ a. record {
      left = a.left.now;
      piece = a.piece;
      fails = a.fails.now;
      calls = a.calls.number;
      faults = a.calls.faults;
    } };

    ghost invariant = { λ a. 1 ≤ a.piece };
}

impl<'a> MemSource<'a> {
    /// A source of these bytes, in pieces of at most so many. The calls of `read` with these numbers, from 0, fail.
    pub fn new(bytes: &'a [u8], piece: usize, fails: &'a [u64]) -> MemSource<'a>
        requires { 1 ≤ piece }
        ensures { result ≡ record { left = bytes.now; piece = piece; fails = fails.now; calls = 0; faults = 0 } }
    {
        MemSource {
            left: bytes,
            piece,
            fails,
            calls: Calls::new(),
        }
    }

    /// The bytes that it has not given.
    pub fn left(&self) -> &[u8]
        ensures { result.now ≡ self.now.left }
    {
        self.left
    }
}

impl<'a> Source for MemSource<'a> {
    ghost left = { λ source. Some source.left };

    ghost faults = { λ source. source.faults };

    ghost reads = { SourceGives };

    fn read(&mut self, into: &mut [u8]) -> Got
        requires { 0 < length into.old }
        ensures consumed { Consumed (Some self.old.left) (given_of result into.new) (Some self.new.left) }
        ensures bound { GotFits result (length into.new) (Some self.new.left) }
        ensures step { SourceGives self.old result into.new self.new }
    {
        if self.calls.next_fails(self.fails) {
            return Got::Failed;
        }
        let piece = self.piece.min(self.left.len());
        let count = copy_first(&self.left[..piece], into);
        if count == 0 {
            return Got::Ended;
        }
        self.left = &self.left[count..];
        Got::Bytes(count)
    }
}

/// Holds what is written, in room that it is given. The calls whose numbers are listed fail, and so does a write that
/// does not fit: both write nothing.
///
/// The number of a call and the count of faults of both types stand still at 2^64 - 1.
#[derive(Drop)]
pub struct MemSink<'a> {
    room: &'a mut [u8],
    written: usize,
    fails: &'a [u64],
    calls: Calls,
}

impl<'a> Model for MemSink<'a> {
    ghost use Rattle.std.specs.Prelude.{◌≤◌, length, take};
    ghost use Rattle.af_io.specs.Memory.{SinkState};

    ghost Value = { SinkState };

    ghost view = { λ a. record {
      held = take a.written a.room.now;
      size = length a.room.now;
      fails = a.fails.now;
      calls = a.calls.number;
      faults = a.calls.faults;
    } };

    ghost invariant = { λ a. a.written ≤ length a.room.now };
}

impl<'a> MemSink<'a> {
    /// A sink that holds nothing yet, in this room. The calls of `write` with these numbers, from 0, fail.
    pub fn new(room: &'a mut [u8], fails: &'a [u64]) -> MemSink<'a>
        ensures { result ≡ record { held = []; size = length room.old; fails = fails.now; calls = 0; faults = 0 } }
    {
        MemSink {
            room,
            written: 0,
            fails,
            calls: Calls::new(),
        }
    }

    /// The bytes that it holds.
    pub fn held(&self) -> &[u8]
        ensures { result.now ≡ self.now.held }
    {
        &self.room[..self.written]
    }
}

impl<'a> Sink for MemSink<'a> {
    ghost held = { λ sink. Some sink.held };

    ghost faults = { λ sink. sink.faults };

    ghost writes = { SinkTakes };

    fn write(&mut self, piece: &[u8]) -> Put
        requires { 0 < length piece.now }
        ensures written { Written result (Some self.old.held) piece.now (Some self.new.held) }
        ensures step { SinkTakes self.old piece.now result self.new }
    {
        let is_refused = piece.len() > self.room.len() - self.written;
        if self.calls.next_fails_or(self.fails, is_refused) {
            return Put::Failed;
        }
        let end = self.written + piece.len();
        self.room[self.written..end].copy_from_slice(piece);
        self.written = end;
        Put::Done
    }
}
