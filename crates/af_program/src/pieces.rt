// Pieces go over a stream which does not block, in one call each.
ghost use Rattle.std.specs.Io.KnownBytes.{Keeps};
ghost use Rattle.std.specs.Prelude.{◌<◌, length};
ghost use Rattle.af_program.specs.Sockets.{GivesOn, TakesOn};

use crate::{Gave, Took};
use std::io::{ErrorKind, Read, Write};

// A call, and at most 1000 more if it is interrupted.
const ATTEMPTS: u32 = 1001;

/// Takes what a reader gives.
pub(crate) fn take_from<R: Read>(reader: &mut R, into: &mut [u8]) -> Gave
    requires { 0 < length into.old }
    ensures bytes { GivesOn result (R.remaining reader.old) into.new (R.remaining reader.new) }
{
    for _ in 0..ATTEMPTS {
        match reader.read(into) {
            Ok(0) => return Gave::Ended,
            Ok(count) => return Gave::Bytes(count),
            Err(e) => match e.kind() {
                ErrorKind::Interrupted => {}
                ErrorKind::WouldBlock => return Gave::NotYet,
                _ => return Gave::Ended,
            },
        }
    }
    Gave::NotYet
}

/// Gives a writer bytes.
pub(crate) fn give_to<W: Write>(writer: &mut W, bytes: &[u8]) -> Took
    ensures bytes { TakesOn result (W.contents writer.old) bytes.now (W.contents writer.new) }
{
    for _ in 0..ATTEMPTS {
        match writer.write(bytes) {
            Ok(0) => return Took::Ended,
            Ok(count) => return Took::Bytes(count),
            Err(e) => match e.kind() {
                ErrorKind::Interrupted => {}
                ErrorKind::WouldBlock => return Took::NoRoom,
                _ => return Took::Ended,
            },
        }
    }
    Took::NoRoom
}
