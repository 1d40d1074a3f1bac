// The programs that devices go by, over a runtime that notes what the system refuses.
use crate::{Log, WatchedRuntime};
use af_program::{Programs, SocketProgram, Ways};
use af_time::OutOfMemory;
use std::alloc::Global;

/// A program of a device over a runtime that is watched.
pub(crate) type WatchedProgram<'a> = SocketProgram<WatchedRuntime<'a, HostRuntime>>;

/// Gives programs of the system.
#[derive(Drop)]
pub struct WatchedPrograms<'a> {
    rt: &'a HostRuntime,
    log: &'a Log<'a>,
}

impl<'a> WatchedPrograms<'a> {
    /// Those of this runtime, watched by a log.
    pub fn new(rt: &'a HostRuntime, log: &'a Log<'a>) -> WatchedPrograms<'a> {
        WatchedPrograms { rt, log }
    }
}

impl<'a> Programs for WatchedPrograms<'a> {
    type Made = WatchedProgram<'a>;

    fn program(
        &mut self,
        alloc: Global,
        ways: Ways,
        input_bytes: u32,
    ) -> Result<WatchedProgram<'a>, OutOfMemory> {
        let rt = WatchedRuntime::new(self.rt, self.log);
        SocketProgram::new(alloc, rt, ways, input_bytes)
    }
}
