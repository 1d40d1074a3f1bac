// A log is counted, and the counts are printed.
ghost use Rattle.std.specs.Prelude.{◌≡◌, ◌≤◌, ◌<◌, ◌+◌, ◌%◌, ◌^◌, length, sum, count_by};
ghost use Rattle.af_io.specs.Observed.{CountsFault};
ghost use Rattle.af_io.specs.Flow.{Written};
ghost use Rattle.af_script.specs.Printing.{Puts};
ghost use Rattle.af_script.specs.Summary.{summary, tally_of, tally_lines, count_line, bytes_emitted, emitted_by, bytes_taken, taken_by, is_close};

use crate::print::{Broken, print_number, put};
use af_io::{Put, Sink};
use af_world::Happening;

/// What is counted of a log.
#[derive(Clone, Copy, Debug)]
struct Tally {
    /// The bytes that devices took.
    emitted: u128,
    /// The bytes that links took.
    taken: u128,
    /// The links that were closed.
    closed: usize,
    /// The sum of the bytes that devices took, modulo 2^64.
    total: u64,
}

/// Prints the summary of a log, which came of n steps. Failed comes only where the sink has failed; then a prefix was
/// written.
pub fn print_summary<K: Sink>(log: &[Happening], steps: u32, sink: &mut K) -> Put
    ensures written { Written result (K.held sink.old) (summary steps log.now) (K.held sink.new) }
    ensures faults { CountsFault (result ≡ Put.Failed) (K.faults sink.old) (K.faults sink.new) }
{
    match print_tally(steps, &count(log), sink) {
        Ok(()) => Put::Done,
        Err(Broken) => Put::Failed,
    }
}

/// Prints the five lines.
fn print_tally<K: Sink>(steps: u32, tally: &Tally, sink: &mut K) -> Result<(), Broken>
    ensures { Puts K.held K.faults result sink.old (tally_lines steps tally.now) sink.new }
{
    print_count(b"steps ", steps as u128, sink)?;
    print_count(b"emitted ", tally.emitted, sink)?;
    print_count(b"taken ", tally.taken, sink)?;
    print_count(b"closed ", tally.closed as u128, sink)?;
    print_count(b"sum ", tally.total as u128, sink)
}

/// Prints a line of a name and a number.
fn print_count<K: Sink>(name: &[u8], number: u128, sink: &mut K) -> Result<(), Broken>
    requires { 0 < length name.now }
    ensures { Puts K.held K.faults result sink.old (count_line name.now number) sink.new }
{
    put(name, sink)?;
    print_number(number, sink)?;
    put(b"\n", sink)
}

/// Counts what a summary says of a log.
fn count(log: &[Happening]) -> Tally
    ensures { result ≡ tally_of log.now }
{
    let (emitted, taken) = lengths(log);
    Tally {
        emitted,
        taken,
        closed: closes(log),
        total: emitted_sum(log),
    }
}

/// The bytes that a device took where an emit was done.
fn emitted_by(happening: &Happening) -> &[u8]
    ensures { result.now ≡ emitted_by happening.now }
{
    match happening {
        Happening::Emitted {
            sound,
            done: true,
            ..
        } => sound.as_slice(),
        _ => &[],
    }
}

/// The bytes that a link took.
fn taken_by(happening: &Happening) -> &[u8]
    ensures { result.now ≡ taken_by happening.now }
{
    match happening {
        Happening::Wrote {
            took: Some(bytes),
            ..
        } => bytes.as_slice(),
        _ => &[],
    }
}

/// How many bytes devices took, and how many links took.
fn lengths(log: &[Happening]) -> (u128, u128)
    ensures emitted { result.0 ≡ length (bytes_emitted log.now) }
    ensures taken { result.1 ≡ length (bytes_taken log.now) }
{
    let mut emitted = 0u128;
    let mut taken = 0u128;
    for happening in log {
        emitted += emitted_by(happening).len() as u128;
        taken += taken_by(happening).len() as u128;
    }
    (emitted, taken)
}

/// How many links were closed.
fn closes(log: &[Happening]) -> usize
    ensures { result ≡ count_by is_close log.now }
{
    log.iter().filter(|happening| is_close(happening)).count()
}

/// Whether a link was closed.
fn is_close(happening: &Happening) -> bool
    ensures { result ≡ is_close happening.now }
{
    matches!(happening, Happening::Closed { .. })
}

/// The sum of the bytes that devices took, modulo 2^64.
fn emitted_sum(log: &[Happening]) -> u64
    ensures { result ≡ sum (bytes_emitted log.now) % 2 ^ 64 }
{
    let mut total = 0u64;
    for happening in log {
        total = add_all(total, emitted_by(happening));
    }
    total
}

/// A sum with these bytes added to it, modulo 2^64.
fn add_all(start: u64, bytes: &[u8]) -> u64
    ensures { result ≡ (start + sum bytes.now) % 2 ^ 64 }
{
    let mut total = start;
    for byte in bytes {
        total = total.wrapping_add(u64::from(*byte));
    }
    total
}
