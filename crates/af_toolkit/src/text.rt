// The text that a tool writes when it is done.
ghost use Rattle.std.specs.Prelude.{◌≡◌, ◌<◌, ◌≤◌, ◌+◌, ◌++◌, decimal, length, take, true, Err};
ghost use Rattle.std.specs.Fmt.{signed_decimal};
ghost use Rattle.af_io.specs.Observed.{CountsFault};
ghost use Rattle.af_toolkit.specs.Ends.{is_of_report, Reports, Writes};

use crate::end::ToolEnd;
use af_io::{Put, Sink};
use af_sample::Gain;
use itoa::Buffer;

/// Writes a piece after what is before a place, and answers the place after it.
pub fn put(out: &mut [u8], at: usize, piece: &[u8]) -> usize
    requires { at + length piece.now ≤ length out.old }
    ensures at { result ≡ at + length piece.now }
    ensures room { length out.new ≡ length out.old }
    ensures bytes { take result out.new ≡ take at out.old ++ piece.now }
{
    let end = at + piece.len();
    out[at..end].copy_from_slice(piece);
    end
}

/// Writes a number in decimal digits after what stands before a place.
pub fn put_number(out: &mut [u8], at: usize, number: u64) -> usize
    requires { at + 40 ≤ length out.old }
    ensures at { result ≤ at + 40 }
    ensures room { length out.new ≡ length out.old }
    ensures bytes { take result out.new ≡ take at out.old ++ decimal number }
{
    let mut buffer = Buffer::new();
    put(out, at, buffer.format(number).as_bytes())
}

/// Writes a gain in decibels after what stands before a place.
pub fn put_gain(out: &mut [u8], at: usize, gain: Gain) -> usize
    requires { at + 40 ≤ length out.old }
    ensures at { result ≤ at + 40 }
    ensures room { length out.new ≡ length out.old }
    ensures bytes { take result out.new ≡ take at out.old ++ signed_decimal gain }
{
    let mut buffer = Buffer::new();
    put(out, at, buffer.format(gain.db()).as_bytes())
}

/// Writes a piece to the sink.
pub fn write_piece<K: Sink>(sink: &mut K, piece: &[u8]) -> Result<(), ToolEnd>
    requires { 0 < length piece.now }
    ensures written { Writes K.held piece.now result sink.old sink.new }
    ensures fault { CountsFault (result ≡ Err ToolEnd.SinkFault) (K.faults sink.old) (K.faults sink.new) }
{
    match sink.write(piece) {
        Put::Done => Ok(()),
        Put::Failed => Err(ToolEnd::SinkFault),
    }
}

/// Writes a text to the sink: the last that a tool does.
pub fn write_text<K: Sink>(sink: &mut K, text: &[u8]) -> ToolEnd
    requires { 0 < length text.now }
    ensures followed { Reports K.held text.now result sink.old sink.new }
    ensures end { is_of_report result ≡ true }
    ensures fault { CountsFault (result ≡ ToolEnd.SinkFault) (K.faults sink.old) (K.faults sink.new) }
{
    match sink.write(text) {
        Put::Done => ToolEnd::Done,
        Put::Failed => ToolEnd::SinkFault,
    }
}
