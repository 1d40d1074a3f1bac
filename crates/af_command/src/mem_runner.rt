// Commands in memory.
ghost use Rattle.std.specs.Prelude.{◌≡◌, ◌≤◌, [], ◌∷◌, map, true, false, IfOk, IfSome};
ghost use Rattle.std.specs.declared.option.Option.TheVariants.{Some};
ghost use Rattle.arrayvec.specs.ArrayVec.{array_vec_len};
ghost use Rattle.af_io.specs.Observed.{Appended};
ghost use Rattle.af_process.specs.Acts.{words_of};
ghost use Rattle.af_command.specs.Acts.{told_of, begun, begun_got, ended, finished, is_running, looked};

use crate::act::{CommandAct, begun};
use crate::runner::{Begun, CommandRunner};
use af_io::{Calls, Notes, Stated};
use af_process::{BeganGot, Words};
use af_time::OutOfMemory;
use std::alloc::Global;
use std::marker::Model;

/// Keeps every act, and does nothing else. The starts whose numbers are listed, from 0, fail. A command runs for as many looks as
/// is stated for it, in the order of the starts that did not fail, or for none past these, or until its end is asked for. The
/// commands end with the statuses that are stated, in the order of their ends, and with 0 past them; one whose end was asked for
/// has ended by signal 9.
#[derive(Drop)]
pub struct MemRunner {
    notes: Notes<CommandAct>,
    fails: Vec<u64>,
    calls: Calls,
    looks: Stated<u32>,
    statuses: Stated<i32>,
    left: u32,
    is_ended: bool,
    runs: bool,
}

impl Model for MemRunner {
    ghost use Rattle.std.specs.Prelude.{Bool, List};
    ghost use Rattle.std.specs.declared.option.Option.{Option};
    ghost use Rattle.af_command.specs.Acts.{Told, told_acts};

    ghost Value = { Option (List Told) × Bool };

    ghost view = { λ a. (told_acts a.notes, a.runs) };
}

impl MemRunner {
    /// Nothing was started. The starts with these numbers fail, the commands run for so many looks, and end with these statuses.
    pub fn new(
        alloc: Global,
        fails: &[u64],
        looks: &[u32],
        statuses: &[i32],
    ) -> Result<MemRunner, OutOfMemory>
        ensures { IfOk result (λ runner. runner ≡ (Some [], false)) }
    {
        Ok(MemRunner {
            notes: Notes::new(alloc),
            fails: Vec::from_slice(alloc, fails)?,
            calls: Calls::new(),
            looks: Stated::new(alloc, looks)?,
            statuses: Stated::new(alloc, statuses)?,
            left: 0,
            is_ended: false,
            runs: false,
        })
    }

    /// All acts so far, in order, if they are observed.
    pub fn acts(&self) -> &[CommandAct]
        ensures { IfSome self.now.0 (λ acts. acts ≡ map told_of result.now) }
    {
        self.notes.entries()
    }
}

impl CommandRunner for MemRunner {
    ghost acts = { λ runner. runner.0 };

    ghost runs = { λ runner. runner.1 };

    fn start(&mut self, _alloc: Global, words: &Words) -> Begun {
        if self.calls.next_fails(self.fails.as_slice()) {
            self.notes.add(Ok(begun(words, BeganGot::Failed)));
            self.runs = false;
            return Begun::Failed;
        }
        self.left = self.looks.next_answer().unwrap_or(0);
        self.is_ended = false;
        self.runs = true;
        self.notes.add(Ok(begun(words, BeganGot::Child(0))));
        Begun::Running
    }

    fn look(&mut self) -> bool {
        let runs = self.left > 0;
        self.left = self.left.saturating_sub(1);
        self.notes.add(Ok(CommandAct::Looked { runs }));
        runs
    }

    fn end(&mut self) {
        self.left = 0;
        self.is_ended = true;
        self.notes.add(Ok(CommandAct::Ended));
    }

    fn finish(&mut self) -> Option<i32> {
        let stated = self.statuses.next_answer().unwrap_or(0);
        let status = if self.is_ended { 137 } else { stated };
        self.runs = false;
        self.notes.add(Ok(CommandAct::Finished {
            status: Some(status),
        }));
        Some(status)
    }
}
