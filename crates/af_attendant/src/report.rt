// The lines that a machine writes: one for each call, and the numbers of calls at the end.
ghost use Rattle.std.specs.Prelude.{◌≡◌, ◌<◌, ◌≤◌, ◌+◌, ◌++◌, length, take};
ghost use Rattle.af_io.specs.Flow.{Written};
ghost use Rattle.af_io.specs.Observed.{CountsFault};
ghost use Rattle.af_attendant.specs.Ran.{call_line, or_dash, status_text, tally_text};

use crate::ran::CallRuns;
use crate::tally::Tally;
use af_io::{Put, Sink};
use af_time::DevTime;
use af_toolkit::{put, put_number};

// Writes a text, or `-` where it is empty, after what stands before a place.
fn put_or_dash(out: &mut [u8], at: usize, text: &str) -> usize
    requires { (at + 64 ≤ length out.old) × (length text.now ≤ 64) }
    ensures at { result ≤ at + 64 }
    ensures room { length out.new ≡ length out.old }
    ensures bytes { take result out.new ≡ take at out.old ++ or_dash text.now }
{
    if text.is_empty() {
        put(out, at, b"-")
    } else {
        put(out, at, text.as_bytes())
    }
}

// Writes a status, or `-` where there is none, after what stands before a place.
fn put_status(out: &mut [u8], at: usize, status: Option<u32>) -> usize
    requires { at + 40 ≤ length out.old }
    ensures at { result ≤ at + 40 }
    ensures room { length out.new ≡ length out.old }
    ensures bytes { take result out.new ≡ take at out.old ++ status_text status }
{
    match status {
        Some(status) => put_number(out, at, u64::from(status)),
        None => put(out, at, b"-"),
    }
}

// Writes the line of a call into a buffer, and answers its length.
fn write_call_line(out: &mut [u8], call: u32, time: DevTime, digits: &str, runs: CallRuns) -> usize
    requires { (400 ≤ length out.old) × (length digits.now ≤ 64) }
    ensures within { result ≤ length out.new }
    ensures some { 0 < result }
    ensures bytes { take result out.new ≡ call_line call time.0 digits.now runs }
{
    let at = put(out, 0, b"call ");
    let at = put_number(out, at, u64::from(call));
    let at = put(out, at, b" at ");
    let at = put_number(out, at, u64::from(time.0));
    let at = put(out, at, b" digits ");
    let at = put_or_dash(out, at, digits);
    let at = put(out, at, b" greeting ");
    let at = put_status(out, at, runs.greeting.status);
    let at = put(out, at, b" message ");
    let at = put_status(out, at, runs.message.status);
    put(out, at, b"\n")
}

// Writes the numbers of calls into a buffer, and answers the length.
fn write_tally_line(out: &mut [u8], tally: Tally) -> usize
    requires { 160 ≤ length out.old }
    ensures within { result ≤ length out.new }
    ensures some { 0 < result }
    ensures bytes { take result out.new ≡ tally_text tally }
{
    let at = put(out, 0, b"answered ");
    let at = put_number(out, at, u64::from(tally.answered));
    let at = put(out, at, b" recorded ");
    let at = put_number(out, at, u64::from(tally.recorded));
    let at = put(out, at, b" failed ");
    let at = put_number(out, at, u64::from(tally.failed));
    put(out, at, b"\n")
}

/// Writes the line of a call.
pub fn report_call<K: Sink>(
    sink: &mut K,
    call: u32,
    time: DevTime,
    digits: &str,
    runs: CallRuns,
) -> Put
    requires { length digits.now ≤ 64 }
    ensures wrote { Written result (K.held sink.old) (call_line call time.0 digits.now runs) (K.held sink.new) }
    ensures fault { CountsFault (result ≡ Put.Failed) (K.faults sink.old) (K.faults sink.new) }
{
    let mut line = [0; 400];
    let length = write_call_line(&mut line, call, time, digits, runs);
    sink.write(&line[..length])
}

/// Writes how many calls were answered, messages recorded, and calls failed: the last that a machine does.
pub fn report<K: Sink>(sink: &mut K, tally: Tally) -> Put
    ensures wrote { Written result (K.held sink.old) (tally_text tally) (K.held sink.new) }
    ensures fault { CountsFault (result ≡ Put.Failed) (K.faults sink.old) (K.faults sink.new) }
{
    let mut line = [0; 160];
    let length = write_tally_line(&mut line, tally);
    sink.write(&line[..length])
}
