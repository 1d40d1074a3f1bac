// What runs the commands that are handed pieces.
ghost use Rattle.std.specs.Prelude.{◌≡◌, ◌≤◌, length, take};
ghost use Rattle.std.specs.declared.option.Option.{Option};
ghost use Rattle.af_logger.specs.Commands.{Desk};

use af_time::DevTime;
use std::alloc::Global;

/// What a command is told of its piece.
#[derive(Clone, Copy, Debug, PartialEq, Eq)]
pub struct PieceTerms {
    /// 1, 2, ..
    pub number: u64,
    /// The device time of its first frame.
    pub time: DevTime,
    pub frames: u32,
}

/// Runs commands: at most one is handed a piece, while at most one before it has not ended. A command that cannot be started
/// takes nothing, and ends with status 127.
pub trait Commands {
    ghost use Rattle.af_logger.specs.Commands.{closing, ended, given_by, handed, looked, started, Awaits, CanEnd, Changed, IfSeen, IsFree, IsOpen};

    /// All commands, if they are observed.
    ghost desk: { Self → Option Desk };

    /// Starts a command, which a shell runs. The command before it is the one that is waited for.
    fn start(&mut self, alloc: Global, text: &str, terms: PieceTerms)
        requires free { IfSeen IsFree (desk self.old) }
        ensures started { Changed (started (given_by text.now terms)) (desk self.old) (desk self.new) };

    /// Hands bytes to the command that was started last, and waits at most so many milliseconds until it has taken all. It
    /// answers how many it took.
    fn hand(&mut self, bytes: &[u8], patience: u32) -> usize
        requires open { IfSeen IsOpen (desk self.old) }
        ensures bound { result ≤ length bytes.now }
        ensures taken { Changed (handed (take result bytes.now)) (desk self.old) (desk self.new) };

    /// Closes the input of the command that was started last.
    fn close(&mut self)
        ensures closed { Changed closing (desk self.old) (desk self.new) };

    /// Looks whether the command that is waited for has ended, and answers its status.
    fn look(&mut self) -> Option<u8>
        requires awaits { IfSeen Awaits (desk self.old) }
        ensures ended { Changed (looked result) (desk self.old) (desk self.new) };

    /// Waits for the end of the oldest command that has not ended, and answers its status. One that still runs so many
    /// milliseconds after its input was closed is killed.
    fn finish(&mut self, patience: Option<u32>) -> u8
        requires runs { IfSeen CanEnd (desk self.old) }
        ensures ended { Changed (ended result) (desk self.old) (desk self.new) };
}
