// The input of a child that holds nobody up.
ghost use Rattle.std.specs.Prelude.{◌≡◌, ◌≢◌, length, IfErr, IfOk, IfSome};
ghost use Rattle.std.specs.declared.option.Option.TheVariants.{None, Some};
ghost use Rattle.std.specs.declared.result.Result.TheVariants.{Err};
ghost use Rattle.std.specs.Io.{WritesAtMost};
ghost use Rattle.std.specs.Io.KnownBytes.{WriteAppends};

use crate::handed::hand;
use std::cell::Cell;
use std::io::{self, ErrorKind, Write};
use std::time::{Clock, Duration};

/// How many milliseconds a piece may take.
const PIECE_MILLIS: u64 = 20;

/// The input of a child, over a writer that does not wait. A write waits at most 20 milliseconds until all of it is taken. One
/// that was not taken whole is the last: each further one fails, for the same reason.
#[derive(Drop)]
pub struct DeadlineInput<'a, W: Write + Drop, C> {
    writer: W,
    clock: &'a C,
    late: &'a Cell<u64>,
    failed: Option<io::Error>,
}

impl<'a, W: Write + Drop, C> DeadlineInput<'a, W, C> {
    /// An input over this writer. Writes that are not taken in time are counted there.
    pub fn new(writer: W, clock: &'a C, late: &'a Cell<u64>) -> DeadlineInput<'a, W, C>
        ensures writer { result.writer ≡ writer }
        ensures failed { result.failed ≡ None }
    {
        DeadlineInput {
            writer,
            clock,
            late,
            failed: None,
        }
    }
}

impl<W: Write + Drop, C: Clock> Write for DeadlineInput<'_, W, C> {
    ghost contents = { λ input. W.Write.contents input.writer };

    fn write(&mut self, buf: &[u8]) -> io::Result<usize>
        ensures bound { WritesAtMost result buf.now }
        ensures bytes { WriteAppends (W.Write.contents self.old.writer) (W.Write.contents self.new.writer) result buf.now }
        ensures short { IfOk result (λ count. count ≢ length buf.now → self.new.failed ≢ None) }
        ensures failed { IfErr result (λ e. self.new.failed ≡ Some e) }
        ensures last { IfSome self.old.failed (λ e. (result ≡ Err e) × (self.new.failed ≡ Some e)) }
    {
        if let Some(e) = self.failed {
            return Err(e);
        }
        let limit = Duration::from_millis(PIECE_MILLIS);
        let handed = hand(&mut self.writer, buf, self.clock, limit);
        self.failed = handed.failed;
        let Some(e) = handed.failed else {
            return Ok(handed.taken);
        };
        if e.kind() == ErrorKind::TimedOut {
            self.late.set(self.late.get().saturating_add(1));
        }
        if handed.taken > 0 {
            Ok(handed.taken)
        } else {
            Err(e)
        }
    }

    fn flush(&mut self) -> io::Result<()> {
        self.writer.flush()
    }
}
