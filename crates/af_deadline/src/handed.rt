// A piece that is handed to a writer which does not block.
ghost use Rattle.std.specs.Prelude.{◌≡◌, ◌≤◌, length, take, MatchResult};
ghost use Rattle.std.specs.declared.option.Option.TheVariants.{None, Some};
ghost use Rattle.std.specs.Io.KnownBytes.{Appends, Keeps};

use crate::deadline::{Deadline, MOST_LOOKS};
use std::io::{self, ErrorKind, Write};
use std::time::{Clock, Duration};

/// How much of a piece was taken, and why no more was.
#[derive(Clone, Copy)]
pub(crate) struct Handed {
    pub(crate) taken: usize,
    pub(crate) failed: Option<io::Error>,
}

impl Handed {
    /// No more than this was taken, for this reason.
    fn broken(taken: usize, why: io::Error) -> Handed
        ensures { result ≡ record { taken = taken; failed = Some why } }
    {
        Handed {
            taken,
            failed: Some(why),
        }
    }
}

/// Hands on a piece, as far as it is taken within a time.
pub(crate) fn hand<W: Write, C: Clock>(
    writer: &mut W,
    piece: &[u8],
    clock: &C,
    limit: Duration,
) -> Handed
    ensures bound { result.taken ≤ length piece.now }
    ensures bytes { Appends (W.contents writer.old) (W.contents writer.new) (take result.taken piece.now) }
    ensures whole { result.failed ≡ None → result.taken ≡ length piece.now }
{
    let mut taken = 0;
    let deadline = match Deadline::after(clock, limit) {
        Ok(deadline) => deadline,
        Err(e) => return Handed::broken(taken, e),
    };
    while taken < piece.len() {
        match hand_part(writer, &piece[taken..], &deadline) {
            Ok(count) => taken += count,
            Err(e) => return Handed::broken(taken, e),
        }
    }
    Handed {
        taken,
        failed: None,
    }
}

/// Hands on a first part of a piece, once there is room for one.
fn hand_part<W: Write, C: Clock>(
    writer: &mut W,
    piece: &[u8],
    deadline: &Deadline<'_, C>,
) -> io::Result<usize>
    ensures { MatchResult result
        (λ count. (1 ≤ count) × (count ≤ length piece.now)
        × Appends (W.contents writer.old) (W.contents writer.new) (take count piece.now))
        (λ _. Keeps (W.contents writer.old) (W.contents writer.new)) }
{
    for _ in 0..MOST_LOOKS {
        match writer.write(piece) {
            Ok(0) => return Err(ErrorKind::WriteZero.into()),
            Ok(count) => return Ok(count),
            Err(e) if is_final(&e) => return Err(e),
            Err(_) => {
                if !deadline.wait() {
                    break;
                }
            }
        }
    }
    Err(ErrorKind::TimedOut.into())
}

/// Whether a write is not to be made again.
fn is_final(error: &io::Error) -> bool {
    !matches!(error.kind(), ErrorKind::WouldBlock | ErrorKind::Interrupted)
}
