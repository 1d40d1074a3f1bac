// A sink in memory that can be corrected.
ghost use Rattle.std.specs.Prelude.{◌≡◌, ◌≤◌, ◌<◌, ◌+◌, [], length};
ghost use Rattle.std.specs.declared.option.Option.TheVariants.{Some};
ghost use Rattle.af_io.specs.Observed.{CountsFault, faults_after};
ghost use Rattle.af_io.specs.Flow.{Written};
ghost use Rattle.af_true_header.specs.Corrections.{Overwrites, Overwrote};
ghost use Rattle.af_true_header.specs.MemFiles.{FileTakes, FileCorrects};

use crate::correct::Correct;
use af_io::{Put, Sink, faults_after};
use std::marker::Model;

/// Holds what is written, in room that it is given, and can be corrected. A write that does not fit fails and writes nothing, and
/// so does a correction that is not within what is held.
#[derive(Drop)]
pub struct MemFile<'a> {
    room: &'a mut [u8],
    written: usize,
    faults: u64,
}

impl<'a> Model for MemFile<'a> {
    ghost use Rattle.std.specs.Prelude.{◌≤◌, length, take};
    ghost use Rattle.af_true_header.specs.MemFiles.{MemFileState};

    ghost Value = { MemFileState };

    ghost view = { λ a. record {
      held = take a.written a.room.now;
      size = length a.room.now;
      faults = a.faults;
    } };

    ghost invariant = { λ a. a.written ≤ length a.room.now };
}

impl<'a> MemFile<'a> {
    /// A file that holds nothing yet, in this room.
    pub fn new(room: &'a mut [u8]) -> MemFile<'a>
        ensures { result ≡ record { held = []; size = length room.old; faults = 0 } }
    {
        MemFile {
            room,
            written: 0,
            faults: 0,
        }
    }

    /// The bytes that it holds.
    pub fn held(&self) -> &[u8]
        ensures { result.now ≡ self.now.held }
    {
        &self.room[..self.written]
    }
}

impl<'a> Sink for MemFile<'a> {
    ghost held = { λ file. Some file.held };

    ghost faults = { λ file. file.faults };

    ghost writes = { FileTakes };

    fn write(&mut self, piece: &[u8]) -> Put
        requires { 0 < length piece.now }
        ensures written { Written result (Some self.old.held) piece.now (Some self.new.held) }
        ensures step { FileTakes self.old piece.now result self.new }
    {
        if piece.len() > self.room.len() - self.written {
            self.faults = faults_after(self.faults, true);
            return Put::Failed;
        }
        let end = self.written + piece.len();
        self.room[self.written..end].copy_from_slice(piece);
        self.written = end;
        Put::Done
    }
}

impl<'a> Correct for MemFile<'a> {
    ghost corrects = { FileCorrects };

    fn correct(&mut self, at: u64, bytes: &[u8]) -> Put
        ensures overwrote { Overwrote result (Some self.old.held) at bytes.now (Some self.new.held) }
        ensures faults { self.new.faults ≡ self.old.faults }
        ensures step { FileCorrects self.old at bytes.now result self.new }
    {
        let Ok(at) = usize::try_from(at) else {
            return Put::Failed;
        };
        if at > self.written || bytes.len() > self.written - at {
            return Put::Failed;
        }
        let end = at + bytes.len();
        let held = &mut self.room[..self.written];
        held[at..end].copy_from_slice(bytes);
        Put::Done
    }
}
