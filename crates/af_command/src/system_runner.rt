// Commands that are programs of the system. Their acts are not observable.
ghost use Rattle.std.specs.Prelude.{◌≡◌, false};
ghost use Rattle.std.specs.declared.option.Option.TheVariants.{None};

use crate::runner::{Begun, CommandRunner};
use crate::running::{finished, is_starved, spawned, still_runs};
use af_process::Words;
use std::alloc::Global;
use std::marker::Model;
use std::process::{Child, Processes};
use std::thread;
use std::time::{Clock, Duration};

// A look waits for so many milliseconds, so many times, as long as the command runs.
const PAUSE_MILLIS: u64 = 5;

const PAUSES: u32 = 4;

/// Runs programs, whose names are looked up in `PATH`. A look takes at most 20 milliseconds. The end of a command is asked for by
/// SIGKILL, so it comes at once; what the command itself has started is not told.
#[derive(Drop)]
pub struct SystemRunner<R: Processes + Clock + Drop> {
    rt: R,
    program: Option<Child<R::Started>>,
    runs: bool,
}

impl<R: Processes + Clock + Drop> Model for SystemRunner<R> {
    ghost use Rattle.std.specs.Prelude.{Bool};

    ghost Value = { Bool };

    ghost view = { λ a. a.runs };
}

impl<R: Processes + Clock + Drop> SystemRunner<R> {
    /// Nothing was started.
    pub fn new(rt: R) -> SystemRunner<R>
        ensures { result ≡ false }
    {
        SystemRunner {
            rt,
            program: None,
            runs: false,
        }
    }

    /// Ends a command that still runs, and waits for it: where what it ran for has ended before it.
    pub fn close(&mut self) {
        if let Some(mut program) = self.program.take() {
            let _ = program.kill();
            let _ = finished(program);
        }
    }
}

impl<R: Processes + Clock + Drop> CommandRunner for SystemRunner<R> {
    ghost acts = { λ _. None };

    ghost runs = { λ runner. runner };

    fn start(&mut self, alloc: Global, words: &Words) -> Begun {
        match spawned(&self.rt, alloc, words) {
            Ok(program) => {
                self.program = Some(program);
                self.runs = true;
                Begun::Running
            }
            Err(fault) => {
                self.runs = false;
                if is_starved(&fault) {
                    Begun::OutOfMemory
                } else {
                    Begun::Failed
                }
            }
        }
    }

    fn look(&mut self) -> bool {
        let Some(program) = &mut self.program else {
            return false;
        };
        for _ in 0..PAUSES {
            if !still_runs(program) {
                return false;
            }
            thread::sleep(&self.rt, Duration::from_millis(PAUSE_MILLIS));
        }
        still_runs(program)
    }

    fn end(&mut self) {
        if let Some(program) = &mut self.program {
            let _ = program.kill();
        }
    }

    fn finish(&mut self) -> Option<i32> {
        self.runs = false;
        let program = self.program.take()?;
        finished(program)
    }
}
