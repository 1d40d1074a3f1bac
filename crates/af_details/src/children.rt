// The children of an answering machine, counted.
ghost use Rattle.std.specs.Prelude.{◌≡◌};

use af_io::Put;
use af_process::{Finished, Spawner, Started, Words};
use std::alloc::Global;
use std::fmt;
use std::fmt::{Formatter, Write};

/// The calls of an answering machine so far: how many began with their greeting, in how many a message was recorded, and in how
/// many a child failed. All counts stand still at 2^64 - 1.
#[derive(Clone, Copy, Debug, PartialEq, Eq)]
pub struct Calls {
    answered: u64,
    recorded: u64,
    failed: u64,
    // the greeting of the call has ended well
    greeted: bool,
}

impl Calls {
    /// No call yet.
    pub fn new() -> Calls {
        Calls {
            answered: 0,
            recorded: 0,
            failed: 0,
            greeted: false,
        }
    }

    // A greeting begins, or the message after it.
    fn note_start(&mut self, started: Started) {
        if !self.greeted {
            self.answered = self.answered.saturating_add(1);
        }
        match started {
            Started::Child(_) => {}
            Started::Failed => self.note_failure(),
            Started::OutOfMemory => self.greeted = false,
        }
    }

    // A greeting ends, or a message.
    fn note_end(&mut self, finished: Finished) {
        if finished != Finished::Ended(0) {
            self.note_failure();
        } else if self.greeted {
            self.recorded = self.recorded.saturating_add(1);
            self.greeted = false;
        } else {
            self.greeted = true;
        }
    }

    fn note_failure(&mut self) {
        self.failed = self.failed.saturating_add(1);
        self.greeted = false;
    }
}

impl fmt::Display for Calls {
    fn fmt<W: Write>(&self, f: &mut Formatter<W>) -> fmt::Result {
        let answered = self.answered;
        let recorded = self.recorded;
        let failed = self.failed;
        write!(f, "answered {answered} recorded {recorded} failed {failed}")
    }
}

/// A spawner that is watched: it counts the calls of an answering machine by its children. Each of its calls is that call of the
/// spawner below it.
#[derive(Drop)]
pub struct WatchedSpawner<S: Spawner + Drop> {
    spawner: S,
    calls: Calls,
}

impl<S: Spawner + Drop> WatchedSpawner<S> {
    /// A spawner over another.
    pub fn new(spawner: S) -> WatchedSpawner<S>
        ensures { result.spawner ≡ spawner }
    {
        WatchedSpawner {
            spawner,
            calls: Calls::new(),
        }
    }

    /// The spawner below it.
    pub fn spawner(&self) -> &S
        ensures { result.now ≡ self.now.spawner }
    {
        &self.spawner
    }

    /// The calls so far.
    pub fn calls(&self) -> Calls {
        self.calls
    }
}

impl<S: Spawner + Drop> Spawner for WatchedSpawner<S> {
    ghost acts = { λ watched. S.acts watched.spawner };

    ghost started = { λ watched. S.started watched.spawner };

    ghost faults = { λ watched. S.faults watched.spawner };

    ghost notes = { λ before sound after. S.notes before.spawner sound after.spawner };

    ghost starts = { λ before words answer after. S.starts before.spawner words answer after.spawner };

    ghost gives = { λ before child bytes answer after. S.gives before.spawner child bytes answer after.spawner };

    ghost finishes = { λ before child answer after. S.finishes before.spawner child answer after.spawner };

    fn note(&mut self, sound: &[u8]) {
        self.spawner.note(sound);
    }

    fn start(&mut self, alloc: Global, words: &Words) -> Started {
        let started = self.spawner.start(alloc, words);
        self.calls.note_start(started);
        started
    }

    fn give(&mut self, child: u32, bytes: &[u8]) -> Put {
        self.spawner.give(child, bytes)
    }

    fn finish(&mut self, child: u32) -> Finished {
        let finished = self.spawner.finish(child);
        self.calls.note_end(finished);
        finished
    }
}
