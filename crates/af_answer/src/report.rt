// The line that counts the calls.
ghost use Rattle.std.specs.Prelude.{◌≡◌, ◌<◌, ◌≤◌, length, take};
ghost use Rattle.af_io.specs.Flow.{Written};
ghost use Rattle.af_io.specs.Observed.{CountsFault};
ghost use Rattle.af_answer.specs.AnswerTrace.{tally_text};

use crate::tally::Tally;
use af_io::{Put, Sink};
use af_toolkit::{put, put_number};

// Writes the line into a buffer, and answers its length.
fn write_line(out: &mut [u8], tally: Tally) -> usize
    requires { 160 ≤ length out.old }
    ensures within { result ≤ length out.new }
    ensures some { 0 < result }
    ensures bytes { take result out.new ≡ tally_text tally }
{
    let at = put(out, 0, b"answered ");
    let at = put_number(out, at, u64::from(tally.answered));
    let at = put(out, at, b" recorded ");
    let at = put_number(out, at, u64::from(tally.recorded));
    let at = put(out, at, b" failed ");
    let at = put_number(out, at, u64::from(tally.failed));
    put(out, at, b"\n")
}

/// Writes how many calls were answered, messages recorded, and calls failed: the last that a machine does.
pub fn report<K: Sink>(sink: &mut K, tally: Tally) -> Put
    ensures wrote { Written result (K.held sink.old) (tally_text tally) (K.held sink.new) }
    ensures fault { CountsFault (result ≡ Put.Failed) (K.faults sink.old) (K.faults sink.new) }
{
    let mut line = [0; 160];
    let length = write_line(&mut line, tally);
    sink.write(&line[..length])
}
