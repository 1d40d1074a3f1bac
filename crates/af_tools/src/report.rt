// The line that aplay writes when it has played all, and its end.
ghost use Rattle.std.specs.Prelude.{◌≡◌, ◌≤◌, length, take, true};
ghost use Rattle.af_io.specs.Observed.{CountsFault};
ghost use Rattle.af_toolkit.specs.Lost.{finish_by};
ghost use Rattle.af_toolkit.specs.Ends.{ReportsBefore};
ghost use Rattle.af_tools.specs.Play.{played_text};
ghost use Rattle.af_tools.specs.Reading.{is_of_played};

use crate::player::Played;
use af_io::Sink;
use af_time::DevTime;
use af_toolkit::{ToolEnd, end_by, put, put_number, write_piece};

// Writes the line into a buffer, and answers its length.
fn write_line(out: &mut [u8], frames: u64, start: DevTime) -> usize
    requires { 128 ≤ length out.old }
    ensures within { result ≤ length out.new }
    ensures bytes { take result out.new ≡ played_text frames start.0 }
{
    let at = put(out, 0, b"played ");
    let at = put_number(out, at, frames);
    let at = put(out, at, b" at ");
    let at = put_number(out, at, u64::from(start.0));
    put(out, at, b"\n")
}

/// Writes how many frames were played, and from when on. The end of a strict tool says if some were late.
pub fn report<K: Sink>(sink: &mut K, played: Played, strict: bool) -> ToolEnd
    ensures followed { ReportsBefore K.held (finish_by strict played.late) (played_text played.frames played.start.0) result
        sink.old sink.new }
    ensures end { is_of_played strict result ≡ true }
    ensures fault { CountsFault (result ≡ ToolEnd.SinkFault) (K.faults sink.old) (K.faults sink.new) }
{
    let mut line = [0; 128];
    let length = write_line(&mut line, played.frames, played.start);
    match write_piece(sink, &line[..length]) {
        Ok(()) => end_by(strict, played.late),
        Err(end) => end,
    }
}
