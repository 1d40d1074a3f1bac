// A spawner that tells which programs began and ended.
ghost use Rattle.std.specs.Prelude.{◌≡◌};

use crate::Log;
use af_io::Put;
use af_process::{Finished, Spawner, Started, Words};
use std::alloc::Global;

/// A spawner that tells in a log which program was started, which could not be, and which ended. Each of its calls is that call
/// of the spawner below it.
#[derive(Drop)]
pub struct LoggedSpawner<'a, S: Spawner + Drop> {
    spawner: S,
    log: &'a Log<'a>,
}

impl<'a, S: Spawner + Drop> LoggedSpawner<'a, S> {
    /// A spawner over another.
    pub fn new(spawner: S, log: &'a Log<'a>) -> LoggedSpawner<'a, S>
        ensures { result.spawner ≡ spawner }
    {
        LoggedSpawner { spawner, log }
    }
}

impl<S: Spawner + Drop> Spawner for LoggedSpawner<'_, S> {
    ghost acts = { λ logged. S.acts logged.spawner };

    ghost started = { λ logged. S.started logged.spawner };

    ghost faults = { λ logged. S.faults logged.spawner };

    ghost notes = { λ before sound after. S.notes before.spawner sound after.spawner };

    ghost starts = { λ before words answer after. S.starts before.spawner words answer after.spawner };

    ghost gives = { λ before child bytes answer after. S.gives before.spawner child bytes answer after.spawner };

    ghost finishes = { λ before child answer after. S.finishes before.spawner child answer after.spawner };

    fn note(&mut self, sound: &[u8]) {
        self.spawner.note(sound);
    }

    fn start(&mut self, alloc: Global, words: &Words) -> Started {
        let started = self.spawner.start(alloc, words);
        self.log.tell_start(started);
        started
    }

    fn give(&mut self, child: u32, bytes: &[u8]) -> Put {
        self.spawner.give(child, bytes)
    }

    fn finish(&mut self, child: u32) -> Finished {
        let finished = self.spawner.finish(child);
        self.log.tell_end(finished);
        finished
    }
}
