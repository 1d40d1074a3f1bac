// The trait of what runs commands.
ghost use Rattle.std.specs.Prelude.{◌≡◌, ◌≤◌, ℕ, Bool, List, [], ◌∷◌, true, false};
ghost use Rattle.std.specs.declared.option.Option.{Option};
ghost use Rattle.arrayvec.specs.ArrayVec.{array_vec_len};
ghost use Rattle.af_command.specs.Acts.{Told};

use af_process::Words;
use std::alloc::Global;

/// What a start gave: a command that runs, or none.
#[derive(Clone, Copy, Debug, PartialEq, Eq)]
pub enum Begun {
    Running,
    Failed,
    OutOfMemory,
}

/// Runs commands, one at a time. Each call adds exactly its one act, where the acts are told. A command runs from its start until
/// it was waited for: only then is it asked for anything, and no other is started.
pub trait CommandRunner {
    ghost use Rattle.af_io.specs.Observed.{Appended};
    ghost use Rattle.af_process.specs.Acts.{words_of};
    ghost use Rattle.af_command.specs.Acts.{begun, begun_got, ended, finished, is_running, looked};

    /// All acts so far, in order, if they are observed.
    ghost acts: { Self → Option (List Told) };

    /// Whether a command was started, and not waited for since.
    ghost runs: { Self → Bool };

    /// Starts a command.
    fn start(&mut self, alloc: Global, words: &Words) -> Begun
        requires some { 1 ≤ array_vec_len words.now }
        requires idle { runs self.old ≡ false }
        ensures acts { Appended (acts self.old) (begun (words_of words.now) (begun_got result) ∷ []) (acts self.new) }
        ensures runs { runs self.new ≡ is_running result };

    /// Waits a moment, and says whether the command still runs. It says no at once if the command has ended.
    fn look(&mut self) -> bool
        requires { runs self.old ≡ true }
        ensures acts { Appended (acts self.old) (looked result ∷ []) (acts self.new) }
        ensures runs { runs self.new ≡ true };

    /// Asks the command to end.
    fn end(&mut self)
        requires { runs self.old ≡ true }
        ensures acts { Appended (acts self.old) (ended ∷ []) (acts self.new) }
        ensures runs { runs self.new ≡ true };

    /// Waits for the end of the command. It answers its status, or that it could not be waited for.
    fn finish(&mut self) -> Option<i32>
        requires { runs self.old ≡ true }
        ensures acts { Appended (acts self.old) (finished result ∷ []) (acts self.new) }
        ensures runs { runs self.new ≡ false };
}
