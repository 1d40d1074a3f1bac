// Child programs of the system. Their acts are not observable, and their faults are counted.
ghost use Rattle.std.specs.Prelude.{◌≡◌, ◌≤◌, ◌^◌, ◌-◌, ℕ};
ghost use Rattle.std.specs.declared.option.Option.TheVariants.{None};
ghost use Rattle.arrayvec.specs.ArrayVec.{array_vec_len};
ghost use Rattle.af_process.specs.Memory.{StdStarts, StdGives, StdFinishes};

use crate::running::{RunningChild, finish, give, start};
use crate::{Finished, Spawner, Started, Words};
use af_io::{Put, faults_after};
use std::alloc::Global;
use std::io::ErrorKind;
use std::marker::Model;
use std::process::Processes;

/// Starts programs, whose names are looked up in `PATH`. What a child writes to its standard output goes nowhere, and its
/// standard error is that of this program. A child that takes no input holds up the call that gives it some, and one that does
/// not end the call that finishes it. A child that a signal ended has ended with 128 and the signal, as a shell tells it.
///
/// A write that is interrupted is made again, at most 1000 times, and then it is a fault, as every other error is, and a write
/// that takes nothing. The count of faults stands still at 2^64 - 1. Where it is dropped, children that run are left, and their
/// inputs are closed.
#[derive(Drop)]
pub struct StdSpawner<R: Processes + Drop> {
    rt: R,
    // none before the first start, which brings the allocator
    children: Option<Vec<RunningChild<R::Started>>>,
    started: u32,
    faults: u64,
}

impl<R: Processes + Drop> Model for StdSpawner<R> {
    ghost use Rattle.af_process.specs.Memory.{StdSpawnerState};

    ghost Value = { StdSpawnerState };

    ghost view = { λ a. record { started = a.started; faults = a.faults } };
}

impl<R: Processes + Drop> StdSpawner<R> {
    /// A spawner of the programs of this runtime. It takes no memory and asks nothing of the system.
    pub fn new(rt: R) -> StdSpawner<R>
        ensures { result ≡ record { started = 0; faults = 0 } }
    {
        StdSpawner {
            rt,
            children: None,
            started: 0,
            faults: 0,
        }
    }
}

impl<R: Processes + Drop> Spawner for StdSpawner<R> {
    ghost acts = { λ _. None };

    ghost started = { λ spawner. spawner.started };

    ghost faults = { λ spawner. spawner.faults };

    ghost notes = { λ before _ after. after ≡ before };

    ghost starts = { λ before _ answer after. StdStarts before answer after };

    ghost gives = { λ before _ _ answer after. StdGives before answer after };

    ghost finishes = { λ before _ answer after. StdFinishes before answer after };

    fn note(&mut self, _sound: &[u8])
        ensures step { self.new ≡ self.old }
    {}

    fn start(&mut self, alloc: Global, words: &Words) -> Started
        requires { 1 ≤ array_vec_len words.now }
        ensures step { StdStarts self.old result self.new }
    {
        let number = self.started;
        let started = start(&self.rt, alloc, words, number, &mut self.children);
        if let Started::Child(_) = started {
            self.started = number + 1;
        }
        self.faults = faults_after(self.faults, started == Started::Failed);
        started
    }

    fn give(&mut self, child: u32, bytes: &[u8]) -> Put
        ensures step { StdGives self.old result self.new }
    {
        let put = give(&mut self.children, child, bytes);
        self.faults = faults_after(self.faults, put == Put::Failed);
        put
    }

    fn finish(&mut self, child: u32) -> Finished
        ensures step { StdFinishes self.old result self.new }
    {
        let finished = finish(&mut self.children, child);
        self.faults = faults_after(self.faults, finished == Finished::Failed);
        finished
    }
}
