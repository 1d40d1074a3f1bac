// The line of a piece whose command has ended.
ghost use Rattle.std.specs.Prelude.{◌≡◌, ◌<◌, ◌≤◌, ◌-◌, length, take};
ghost use Rattle.af_logger.specs.Pieces.{line_text};

use crate::progress::Progress;
use af_toolkit::{put, put_number};

/// Room for a line.
pub const LINE_ROOM: usize = 320;

/// Writes the line of a piece into a room, and answers its length.
pub fn write_line(out: &mut [u8], piece: &Progress, status: u8) -> usize
    requires room { 320 ≤ length out.old }
    requires piece { piece.now.handed ≤ piece.now.recorded }
    ensures within { result ≤ length out.new }
    ensures some { 0 < result }
    ensures bytes { take result out.new ≡ line_text piece.now.number piece.now.at.0 piece.now.handed piece.now.lost
        (piece.now.recorded - piece.now.handed) status }
{
    let at = put(out, 0, b"piece ");
    let at = put_number(out, at, piece.number);
    let at = put(out, at, b" at ");
    let at = put_number(out, at, u64::from(piece.at.0));
    let at = put(out, at, b" frames ");
    let at = put_number(out, at, u64::from(piece.handed));
    let at = put(out, at, b" lost ");
    let at = put_number(out, at, u64::from(piece.lost));
    let at = put(out, at, b" dropped ");
    let at = put_number(out, at, u64::from(piece.dropped()));
    let at = put(out, at, b" status ");
    let at = put_number(out, at, u64::from(status));
    put(out, at, b"\n")
}
