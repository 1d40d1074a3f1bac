// The trait of what makes the programs of devices.
ghost use Rattle.std.specs.Prelude.{IfOk};
ghost use Rattle.std.specs.declared.option.Option.TheVariants.{None};
ghost use Rattle.af_program.specs.Acts.{TellsNothing};

use crate::{Gave, Launched, MemProgram, Plan, Program, ProgramSockets, SocketProgram, Took, Ways};
use af_process::Words;
use af_time::OutOfMemory;
use std::alloc::Global;
use std::net::Net;
use std::process::Processes;

/// Gives the programs of devices, one to each.
pub trait Programs {
    type Made: Program + Drop;

    /// A program that was not started. Bytes go these ways. About so many may wait before its standard input.
    fn program(
        &mut self,
        alloc: Global,
        ways: Ways,
        input_bytes: u32,
    ) -> Result<Self::Made, OutOfMemory>
        ensures none { IfOk result (λ program. TellsNothing (Self.Made.Program.acts program)) };
}

/// Programs of the system.
#[derive(Drop)]
pub struct SocketPrograms<'a, R> {
    rt: &'a R,
}

impl<'a, R> SocketPrograms<'a, R> {
    /// Those of this runtime.
    pub fn new(rt: &'a R) -> SocketPrograms<'a, R> {
        SocketPrograms { rt }
    }
}

impl<'a, R: Processes + Net> Programs for SocketPrograms<'a, R> {
    type Made = SocketProgram<&'a R>;

    fn program(
        &mut self,
        alloc: Global,
        ways: Ways,
        input_bytes: u32,
    ) -> Result<SocketProgram<&'a R>, OutOfMemory> {
        SocketProgram::new(alloc, self.rt, ways, input_bytes)
    }
}

/// Programs in memory, which all play the same plan.
#[derive(Drop)]
pub struct MemPrograms<'a> {
    plan: Plan<'a>,
}

impl<'a> MemPrograms<'a> {
    /// Those of this plan.
    pub fn new(plan: Plan<'a>) -> MemPrograms<'a> {
        MemPrograms { plan }
    }
}

impl Programs for MemPrograms<'_> {
    type Made = MemProgram;

    fn program(
        &mut self,
        alloc: Global,
        _ways: Ways,
        _input_bytes: u32,
    ) -> Result<MemProgram, OutOfMemory> {
        MemProgram::new(alloc, &self.plan)
    }
}

/// No programs: none can be started.
#[derive(Clone, Copy, Debug)]
pub struct NoPrograms;

impl Programs for NoPrograms {
    type Made = NoProgram;

    fn program(
        &mut self,
        _alloc: Global,
        _ways: Ways,
        _input_bytes: u32,
    ) -> Result<NoProgram, OutOfMemory> {
        Ok(NoProgram)
    }
}

/// A program that cannot be started.
#[derive(Clone, Copy, Debug)]
pub struct NoProgram;

impl Program for NoProgram {
    ghost acts = { λ _. None };

    fn sockets(&self) -> ProgramSockets {
        ProgramSockets::NONE
    }

    fn note_captured(&mut self, _sound: &[u8]) {}

    fn note_emitted(&mut self, _sound: &[u8]) {}

    fn start(&mut self, _alloc: Global, _at: u64, _words: &Words) -> Launched {
        Launched::Failed
    }

    fn take(&mut self, _into: &mut [u8]) -> Gave {
        Gave::Ended
    }

    fn give(&mut self, _bytes: &[u8]) -> Took {
        Took::Ended
    }

    fn end(&mut self, _at: u64) {}

    fn tend(&mut self, _at: u64) {}
}
