// The trait of what runs child programs.
ghost use Rattle.std.specs.Prelude.{◌≡◌, ◌≤◌, ◌^◌, ◌-◌, ℕ, List, [], ◌∷◌};
ghost use Rattle.std.specs.declared.option.Option.{Option};
ghost use Rattle.arrayvec.specs.ArrayVec.{array_vec_len};
ghost use Rattle.af_io.specs.declared.flow.Put.{Put};
ghost use Rattle.af_process.specs.declared.spawner.Started.{Started};
ghost use Rattle.af_process.specs.declared.spawner.Finished.{Finished};
ghost use Rattle.af_process.specs.Acts.{Told};

use crate::Words;
use af_io::Put;
use std::alloc::Global;

/// What a start gave: a child, by its number, or none.
#[derive(Clone, Copy, Debug, PartialEq, Eq)]
pub enum Started {
    Child(u32),
    Failed,
    OutOfMemory,
}

/// How a child ended: with a status, or it could not be waited for.
#[derive(Clone, Copy, Debug, PartialEq, Eq)]
pub enum Finished {
    Ended(i32),
    Failed,
}

/// Starts child programs, gives them bytes and waits for their ends. Each call adds exactly its one act, where the acts are told.
/// No call moves the count of faults down.
pub trait Spawner {
    ghost use Rattle.af_io.specs.Observed.{Appended, FaultCounted};
    ghost use Rattle.af_process.specs.Acts.{noted, began, given, finished, began_got, status_of, is_given, words_of, started_after, IsNextChild, RunsWhereTold};

    /// All acts so far, in order, if they are observed.
    ghost acts: { Self → Option (List Told) };

    /// How many children were started.
    ghost started: { Self → ℕ };

    /// How often a call has failed.
    ghost faults: { Self → ℕ };

    /// Noting this sound leads from the first spawner to the second. What that says is for each spawner to state. One that stands
    /// over another has just the calls of that one.
    ghost notes: { Self → List ℕ → Self → Type 0 };

    /// A start by this command line, with this answer, leads from the first spawner to the second.
    ghost starts: { Self → List (List ℕ) → Started → Self → Type 0 };

    /// Giving a child this piece, with this answer, leads from the first spawner to the second.
    ghost gives: { Self → ℕ → List ℕ → Put → Self → Type 0 };

    /// Waiting for the end of a child, with this answer, leads from the first spawner to the second.
    ghost finishes: { Self → ℕ → Finished → Self → Type 0 };

    /// Notes a sound that is to be given to a child.
    fn note(&mut self, sound: &[u8])
        ensures acts { Appended (acts self.old) (noted sound.now ∷ []) (acts self.new) }
        ensures started { started self.new ≡ started self.old }
        ensures count { faults self.old ≤ faults self.new }
        ensures step { notes self.old sound.now self.new };

    /// Starts a child. Children are numbered 0, 1, .. in the order of their starts, at most 2^32 - 1 of them. A start beyond
    /// these fails.
    fn start(&mut self, alloc: Global, words: &Words) -> Started
        requires { 1 ≤ array_vec_len words.now }
        ensures acts { Appended (acts self.old) (began (words_of words.now) (began_got result) ∷ []) (acts self.new) }
        ensures next { IsNextChild (acts self.old) result }
        ensures number { (child : ℕ) → result ≡ Started.Child child → child ≡ started self.old }
        ensures most { started self.old ≡ 2 ^ 32 - 1 → result ≡ Started.Failed }
        ensures started { started self.new ≡ started_after (started self.old) result }
        ensures count { faults self.old ≤ faults self.new }
        ensures cause { result ≡ Started.Failed → FaultCounted (faults self.old) (faults self.new) }
        ensures step { starts self.old (words_of words.now) result self.new };

    /// Gives a child the whole piece where it answers Done, and a prefix of it where it answers Failed.
    fn give(&mut self, child: u32, bytes: &[u8]) -> Put
        requires { RunsWhereTold child (acts self.old) }
        ensures acts { Appended (acts self.old) (given child bytes.now (is_given result) ∷ []) (acts self.new) }
        ensures started { started self.new ≡ started self.old }
        ensures count { faults self.old ≤ faults self.new }
        ensures cause { result ≡ Put.Failed → FaultCounted (faults self.old) (faults self.new) }
        ensures step { gives self.old child bytes.now result self.new };

    /// Closes a child's input and waits for its end.
    fn finish(&mut self, child: u32) -> Finished
        requires { RunsWhereTold child (acts self.old) }
        ensures acts { Appended (acts self.old) (finished child (status_of result) ∷ []) (acts self.new) }
        ensures started { started self.new ≡ started self.old }
        ensures count { faults self.old ≤ faults self.new }
        ensures cause { result ≡ Finished.Failed → FaultCounted (faults self.old) (faults self.new) }
        ensures step { finishes self.old child result self.new };
}
