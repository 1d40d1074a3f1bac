// A link in memory, whose calls fail as listed.
ghost use Rattle.std.specs.Prelude.{◌≡◌, ◌≤◌, ◌<◌, ◌+◌, ◌↔◌, ◌⊎◌, ℕ, [], ◌++◌, length, min, Contains, IfOk, IsSome, vec_capacity};
ghost use Rattle.std.specs.declared.option.Option.TheVariants.{Some};
ghost use Rattle.af_io.specs.Observed.{Consumed, CountsOneFault, next_count};
ghost use Rattle.af_io.specs.Flow.{given_of, GotFits, Written};
ghost use Rattle.af_io.specs.Link.{MemLinkGives, MemLinkTakes};

use crate::bytes::copy_first;
use crate::calls::Calls;
use crate::{Got, Link, Put};
use af_time::OutOfMemory;
use std::alloc::Global;
use std::marker::Model;

/// Gives bytes in pieces of at most so many, and then ends. It takes n bytes in all: a write that goes beyond them
/// fails, and takes nothing. So do the calls whose numbers are listed, reads and writes being counted together from 0.
///
/// The number of a call and the count of faults stand still at 2^64 - 1.
#[derive(Drop)]
pub struct MemLink {
    far: Vec<u8>,
    given: usize,
    piece: usize,
    sent: Vec<u8>,
    room: usize,
    fails: Vec<u64>,
    calls: Calls,
}

impl Model for MemLink {
    ghost use Rattle.std.specs.Prelude.{◌≤◌, drop, length, vec_capacity};
    ghost use Rattle.af_io.specs.Link.{MemLinkState};

    ghost Value = { MemLinkState };

    ghost view = { λ a. record {
      left = drop a.given a.far.items;
      piece = a.piece;
      sent = a.sent.items;
      room = a.room;
      fails = a.fails.items;
      calls = a.calls.number;
      faults = a.calls.faults;
    } };

    ghost invariant = { λ a. (1 ≤ a.piece) × (a.given ≤ length a.far.items) × (length a.sent.items ≤ a.room)
        × (a.room ≤ vec_capacity a.sent) };
}

impl MemLink {
    /// A link that gives these bytes, in pieces of at most so many, and takes so many in all. The calls with these numbers,
    /// from 0, fail.
    pub fn new(
        alloc: Global,
        far: &[u8],
        piece: usize,
        room: usize,
        fails: &[u64],
    ) -> Result<MemLink, OutOfMemory>
        requires { 1 ≤ piece }
        ensures { IfOk result
            (λ link. link
            ≡ record { left = far.now; piece = piece; sent = []; room = room; fails = fails.now; calls = 0; faults = 0 }) }
    {
        let far = Vec::from_slice(alloc, far)?;
        let sent = Vec::with_capacity(alloc, room)?;
        let fails = Vec::from_slice(alloc, fails)?;
        Ok(MemLink {
            far,
            given: 0,
            piece,
            sent,
            room,
            fails,
            calls: Calls::new(),
        })
    }

    /// The bytes that it was sent.
    pub fn sent(&self) -> &[u8]
        ensures { result.now ≡ self.now.sent }
    {
        self.sent.as_slice()
    }

    /// How many of its calls have failed.
    pub fn faults(&self) -> u64
        ensures { result ≡ self.now.faults }
    {
        self.calls.faults
    }
}

impl Link for MemLink {
    ghost left = { λ link. Some link.left };

    ghost sent = { λ link. Some link.sent };

    ghost faults = { λ link. link.faults };

    ghost reads = { MemLinkGives };

    ghost writes = { MemLinkTakes };

    fn read(&mut self, into: &mut [u8]) -> Got
        requires { 0 < length into.old }
        ensures consumed { Consumed (Some self.old.left) (given_of result into.new) (Some self.new.left) }
        ensures bound { GotFits result (length into.new) (Some self.new.left) }
        ensures tells { IsSome (Some self.old.left) → IsSome (Some self.new.left) }
        ensures sends { Some self.new.sent ≡ Some self.old.sent }
        ensures step { MemLinkGives self.old result into.new self.new }
    {
        if self.calls.next_fails(self.fails.as_slice()) {
            return Got::Failed;
        }
        let left = &self.far[self.given..];
        let piece = self.piece.min(left.len());
        let count = copy_first(&left[..piece], into);
        if count == 0 {
            return Got::Ended;
        }
        self.given += count;
        Got::Bytes(count)
    }

    fn write(&mut self, piece: &[u8]) -> Put
        requires { 0 < length piece.now }
        ensures written { Written result (Some self.old.sent) piece.now (Some self.new.sent) }
        ensures gives { Some self.new.left ≡ Some self.old.left }
        ensures step { MemLinkTakes self.old piece.now result self.new }
    {
        let is_refused = piece.len() > self.room - self.sent.len();
        if self.calls.next_fails_or(self.fails.as_slice(), is_refused) {
            return Put::Failed;
        }
        append(&mut self.sent, piece);
        Put::Done
    }
}

// Appends bytes that there is room for.
fn append(onto: &mut Vec<u8>, bytes: &[u8])
    requires { length onto.old.items + length bytes.now ≤ vec_capacity onto.old }
    ensures items { onto.new.items ≡ onto.old.items ++ bytes.now }
    ensures capacity { vec_capacity onto.old ≤ vec_capacity onto.new }
{
    let _ = onto.extend_from_slice(bytes);
}
