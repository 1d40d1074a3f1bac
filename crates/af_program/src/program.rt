// The trait of a program that gives and takes bytes, and never blocks.
ghost use Rattle.std.specs.Prelude.{◌≤◌, ◌<◌, List, length, [], ◌∷◌};
ghost use Rattle.std.specs.declared.option.Option.{Option};
ghost use Rattle.arrayvec.specs.ArrayVec.{array_vec_len};
ghost use Rattle.af_program.specs.Acts.{ToldAct};

use af_process::Words;
use std::alloc::Global;
use std::os::fd::RawFd;

/// What a start came to.
#[derive(Clone, Copy, Debug, PartialEq, Eq)]
pub enum Launched {
    Runs,
    Failed,
    OutOfMemory,
}

/// What a program gave: so many bytes, at least one; none so far; or it gives none any more.
#[derive(Clone, Copy, Debug, PartialEq, Eq)]
pub enum Gave {
    Bytes(usize),
    NotYet,
    Ended,
}

/// What a program took: so many bytes, at least one; none, since there is no room for more; or it takes none any more.
#[derive(Clone, Copy, Debug, PartialEq, Eq)]
pub enum Took {
    Bytes(usize),
    NoRoom,
    Ended,
}

/// The descriptors of the sockets between a program that runs and its user, so that these can be waited for: to its standard
/// input, and from its standard output. A program in memory has none.
#[derive(Clone, Copy, Debug, PartialEq, Eq)]
pub struct ProgramSockets {
    pub input: Option<RawFd>,
    pub output: Option<RawFd>,
}

impl ProgramSockets {
    pub const NONE: ProgramSockets = ProgramSockets {
        input: None,
        output: None,
    };
}

/// A program that is started, as often as its user likes, and gives and takes bytes while it runs. No call waits. Moments are
/// nanoseconds of a clock of the caller's.
///
/// Beside what the program does its user notes what a device captured and emitted, so that both can be compared.
pub trait Program {
    ghost use Rattle.af_io.specs.Observed.{Appended, Unchanged};
    ghost use Rattle.af_process.specs.Acts.{words_of};
    ghost use Rattle.af_program.specs.Acts.{launched, ended, captured, emitted, gave_acts, took_acts, GaveFits, TookFits, IdlesWhereTold, RunsWhereTold};

    /// All acts so far, in order, if they are observable.
    ghost acts: { Self → Option (List ToldAct) };

    /// Its sockets, while it runs.
    fn sockets(&self) -> ProgramSockets;

    /// Notes the sound that was captured in a tick.
    fn note_captured(&mut self, sound: &[u8])
        ensures acts { Appended (acts self.old) (captured sound.now ∷ []) (acts self.new) };

    /// Notes the sound that was emitted in a tick.
    fn note_emitted(&mut self, sound: &[u8])
        ensures acts { Appended (acts self.old) (emitted sound.now ∷ []) (acts self.new) };

    /// Starts it, by its command line.
    fn start(&mut self, alloc: Global, at: u64, words: &Words) -> Launched
        requires some { 1 ≤ array_vec_len words.now }
        requires idles { IdlesWhereTold (acts self.old) }
        ensures acts { Appended (acts self.old) (launched at (words_of words.now) result ∷ []) (acts self.new) };

    /// Takes what it gives, as far as there is room.
    fn take(&mut self, into: &mut [u8]) -> Gave
        requires room { 0 < length into.old }
        requires runs { RunsWhereTold (acts self.old) }
        ensures bound { GaveFits result (length into.new) }
        ensures acts { Appended (acts self.old) (gave_acts result into.new) (acts self.new) };

    /// Gives it bytes, as far as it takes them.
    fn give(&mut self, bytes: &[u8]) -> Took
        requires some { 0 < length bytes.now }
        requires runs { RunsWhereTold (acts self.old) }
        ensures bound { TookFits result (length bytes.now) }
        ensures acts { Appended (acts self.old) (took_acts result bytes.now) (acts self.new) };

    /// Ends it. What it is given or gives after this is lost.
    fn end(&mut self, at: u64)
        requires runs { RunsWhereTold (acts self.old) }
        ensures acts { Appended (acts self.old) (ended at ∷ []) (acts self.new) };

    /// Looks after programs that were ended: one that has not ended 200 milliseconds later is killed, and each is waited for.
    fn tend(&mut self, at: u64)
        ensures acts { Unchanged (acts self.old) (acts self.new) };
}
