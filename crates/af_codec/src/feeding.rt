// What a codec knows of its child programs.
ghost use Rattle.std.specs.Prelude.{◌≡◌, ◌≤◌, ◌<◌, true, false, length};
ghost use Rattle.af_io.specs.Observed.{FaultCounted};
ghost use Rattle.af_process.specs.Acts.{RunsWhereTold};
ghost use Rattle.af_codec.specs.Fed.{feeding_start, put_of};
ghost use Rattle.af_codec.specs.Codec.{ChildRuns, Gives, HasStart, IsFinished, Starts};

use crate::orders::Orders;
use af_io::Put;
use af_process::{Spawner, Started};
use std::alloc::Global;

/// The child that runs, how many starts were made, and whether an emit has failed.
#[derive(Clone, Copy)]
pub(crate) struct Feeding {
    pub(crate) running: Option<u32>,
    pub(crate) starts: u32,
    pub(crate) failed: bool,
}

impl Feeding {
    /// No child runs, and none was started.
    pub(crate) fn new() -> Feeding
        ensures { result ≡ feeding_start }
    {
        Feeding {
            running: None,
            starts: 0,
            failed: false,
        }
    }

    /// Starts a child where none runs.
    pub(crate) fn start<S: Spawner>(&mut self, orders: &Orders, alloc: Global, spawner: &mut S)
        requires set { 1 ≤ length orders.now.words }
        requires left { HasStart orders.now self.old }
        requires live { self.old.failed ≡ false }
        requires runs { ChildRuns self.old.running (S.acts spawner.old) }
        ensures starts { Starts orders.now self.old self.new (S.acts spawner.old) (S.acts spawner.new) }
        ensures runs { ChildRuns self.new.running (S.acts spawner.new) }
        ensures count { S.faults spawner.old ≤ S.faults spawner.new }
        ensures cause { self.new.failed ≡ true → FaultCounted (S.faults spawner.old) (S.faults spawner.new) }
    {
        if self.running.is_some() {
            return;
        }
        match spawner.start(alloc, orders.words()) {
            Started::Child(child) => {
                self.running = Some(child);
                self.starts += 1;
            }
            Started::Failed => {
                self.starts += 1;
                self.failed = self.starts == orders.most_starts();
            }
            Started::OutOfMemory => {}
        }
    }

    /// Gives a sound to the child, where one runs. One that does not take it is finished.
    pub(crate) fn give<S: Spawner>(&mut self, orders: &Orders, spawner: &mut S, sound: &[u8])
        requires runs { ChildRuns self.old.running (S.acts spawner.old) }
        ensures gives { Gives orders.now self.old self.new sound.now (S.acts spawner.old) (S.acts spawner.new) }
        ensures runs { ChildRuns self.new.running (S.acts spawner.new) }
        ensures count { S.faults spawner.old ≤ S.faults spawner.new }
        ensures cause { self.old.failed ≡ false → self.new.failed ≡ true →
            FaultCounted (S.faults spawner.old) (S.faults spawner.new) }
    {
        let Some(child) = self.running else {
            return;
        };
        match spawner.give(child, sound) {
            Put::Done => {}
            Put::Failed => {
                finish(spawner, child);
                self.running = None;
                self.failed = self.starts == orders.most_starts();
            }
        }
    }

    /// What an emit answers.
    pub(crate) fn answer(&self) -> Put
        ensures answer { result ≡ put_of self.now }
        ensures failed { result ≡ Put.Failed → self.now.failed ≡ true }
        ensures done { result ≡ Put.Done → self.now.failed ≡ false }
    {
        if self.failed { Put::Failed } else { Put::Done }
    }
}

// Finishes a child, and ignores the answer.
fn finish<S: Spawner>(spawner: &mut S, child: u32)
    requires { RunsWhereTold child (S.acts spawner.old) }
    ensures told { IsFinished child (S.acts spawner.old) (S.acts spawner.new) }
    ensures count { S.faults spawner.old ≤ S.faults spawner.new }
{
    let _ = spawner.finish(child);
}
