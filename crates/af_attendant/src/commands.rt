// What runs the commands of a machine that hears its caller.
ghost use Rattle.std.specs.Prelude.{◌≡◌, ◌≤◌, Bool, List, [], ◌∷◌, true, false};
ghost use Rattle.std.specs.declared.option.Option.{Option};
ghost use Rattle.arrayvec.specs.ArrayVec.{array_vec_len};
ghost use Rattle.af_command.specs.Acts.{Told};

use af_command::{Begun, CommandRunner};
use af_io::Link;
use af_lib::Conn;
use af_process::Words;
use std::alloc::Global;

/// Runs commands while the hook of a line is off. Each call needs that after the last request that moved the hook, which took it
/// off, only the time of that device was asked for. So no command is started before that, and the hook is not put on before the
/// command was waited for. Everything that runs commands does so.
pub trait HeldCommands<L: Link + Drop> {
    ghost use Rattle.af_io.specs.Observed.{Appended};
    ghost use Rattle.af_process.specs.Acts.{words_of};
    ghost use Rattle.af_command.specs.Acts.{begun, begun_got, ended, finished, is_running, looked};
    ghost use Rattle.af_attendant.specs.HeldOff.{IsHeldOff};

    /// All acts so far, in order, if they are observed.
    ghost acts: { Self → Option (List Told) };

    /// Whether a command was started, and not waited for since.
    ghost runs: { Self → Bool };

    /// Starts a command.
    fn start_command(&mut self, alloc: Global, device: u8, conn: &Conn<L>, words: &Words) -> Begun
        requires some { 1 ≤ array_vec_len words.now }
        requires idle { runs self.old ≡ false }
        requires off_hook { IsHeldOff L.sent device conn.now }
        ensures acts { Appended (acts self.old) (begun (words_of words.now) (begun_got result) ∷ []) (acts self.new) }
        ensures runs { runs self.new ≡ is_running result };

    /// Waits a moment, and says whether the command still runs.
    fn look_at_command(&mut self, device: u8, conn: &Conn<L>) -> bool
        requires runs { runs self.old ≡ true }
        requires off_hook { IsHeldOff L.sent device conn.now }
        ensures acts { Appended (acts self.old) (looked result ∷ []) (acts self.new) }
        ensures runs { runs self.new ≡ true };

    /// Asks the command to end.
    fn end_command(&mut self, device: u8, conn: &Conn<L>)
        requires runs { runs self.old ≡ true }
        requires off_hook { IsHeldOff L.sent device conn.now }
        ensures acts { Appended (acts self.old) (ended ∷ []) (acts self.new) }
        ensures runs { runs self.new ≡ true };

    /// Waits for the end of the command.
    fn finish_command(&mut self, device: u8, conn: &Conn<L>) -> Option<i32>
        requires runs { runs self.old ≡ true }
        requires off_hook { IsHeldOff L.sent device conn.now }
        ensures acts { Appended (acts self.old) (finished result ∷ []) (acts self.new) }
        ensures runs { runs self.new ≡ false };
}

impl<L: Link + Drop, S: CommandRunner> HeldCommands<L> for S {
    ghost acts = { λ runner. S.CommandRunner.acts runner };

    ghost runs = { λ runner. S.CommandRunner.runs runner };

    fn start_command(
        &mut self,
        alloc: Global,
        _device: u8,
        _conn: &Conn<L>,
        words: &Words,
    ) -> Begun {
        self.start(alloc, words)
    }

    fn look_at_command(&mut self, _device: u8, _conn: &Conn<L>) -> bool {
        self.look()
    }

    fn end_command(&mut self, _device: u8, _conn: &Conn<L>) {
        self.end()
    }

    fn finish_command(&mut self, _device: u8, _conn: &Conn<L>) -> Option<i32> {
        self.finish()
    }
}
