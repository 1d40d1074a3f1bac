// What runs the commands of an answering machine.
ghost use Rattle.std.specs.Prelude.{◌≡◌, ◌≤◌, ℕ, List, [], ◌∷◌};
ghost use Rattle.std.specs.declared.option.Option.{Option};
ghost use Rattle.arrayvec.specs.ArrayVec.{array_vec_len};
ghost use Rattle.af_process.specs.Acts.{Told};

use af_io::Link;
use af_lib::Conn;
use af_process::{Finished, Spawner, Started, Words};
use std::alloc::Global;

/// Runs commands while the hook of a line is off. A command is started, and waited for, only if the last request that was sent
/// on the connection took the hook off. So no command is started before that, and the hook is not put on before the command has
/// ended. Every spawner runs commands so.
pub trait Commands<L: Link + Drop> {
    ghost use Rattle.af_io.specs.Observed.{Appended};
    ghost use Rattle.af_process.specs.Acts.{began, finished, began_got, status_of, words_of, IsNextChild, RunsWhereTold};
    ghost use Rattle.af_answer.specs.OffHook.{IsOffHook};

    /// All acts so far, in order, if they are observed.
    ghost acts: { Self → Option (List Told) };

    /// How often a call has failed.
    ghost faults: { Self → ℕ };

    /// Starts a command.
    fn start_command(&mut self, alloc: Global, conn: &Conn<L>, words: &Words) -> Started
        requires some { 1 ≤ array_vec_len words.now }
        requires off_hook { IsOffHook L.sent conn.now }
        ensures acts { Appended (acts self.old) (began (words_of words.now) (began_got result) ∷ []) (acts self.new) }
        ensures next { IsNextChild (acts self.old) result }
        ensures count { faults self.old ≤ faults self.new };

    /// Waits for the end of a command.
    fn finish_command(&mut self, conn: &Conn<L>, child: u32) -> Finished
        requires runs { RunsWhereTold child (acts self.old) }
        requires off_hook { IsOffHook L.sent conn.now }
        ensures acts { Appended (acts self.old) (finished child (status_of result) ∷ []) (acts self.new) }
        ensures count { faults self.old ≤ faults self.new };
}

impl<L: Link + Drop, S: Spawner> Commands<L> for S {
    ghost acts = { λ spawner. S.Spawner.acts spawner };

    ghost faults = { λ spawner. S.Spawner.faults spawner };

    fn start_command(&mut self, alloc: Global, _conn: &Conn<L>, words: &Words) -> Started {
        self.start(alloc, words)
    }

    fn finish_command(&mut self, _conn: &Conn<L>, child: u32) -> Finished {
        self.finish(child)
    }
}
