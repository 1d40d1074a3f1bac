// How aplay leaves its device: it may wait until the last frame was handed out, and frees its context.
ghost use Rattle.std.specs.Prelude.{◌≡◌, ◌≤◌, option_map, true, IfErr};
ghost use Rattle.std.specs.declared.option.Option.TheVariants.{None};
ghost use Rattle.af_toolkit.specs.Ends.{is_of_link, KeepsConnection};
ghost use Rattle.af_toolkit.specs.ToolParts.{GoesOver};
ghost use Rattle.af_tools.specs.Leaving.{drained, leaves};

use crate::pace::wait_past;
use af_io::Link;
use af_lib::Conn;
use af_time::DevTime;
use af_toolkit::{ToolEnd, finish, time_after_frames};

/// The time of the last of so many frames from a start on, if that is to be waited for and there is one.
pub fn last_frame(drain: bool, start: DevTime, frames: u64) -> Option<DevTime>
    ensures { option_map (λ last. last.0) result ≡ drained drain start.0 frames }
{
    if drain && frames > 0 {
        Some(time_after_frames(start, frames - 1))
    } else {
        None
    }
}

/// Frees the context, once the device has handed out a frame of so many bytes, if there is one to wait for.
pub fn leave<L: Link + Drop>(
    conn: &mut Conn<L>,
    last: Option<DevTime>,
    frame: usize,
) -> Result<(), ToolEnd>
    requires usable { conn.old.cause ≡ None }
    requires room { frame ≤ 8 }
    ensures goes { GoesOver L.left L.sent conn.old conn.new (leaves frame (option_map (λ at. at.0) last)) result }
    ensures holds { KeepsConnection L.left L.faults conn.old conn.new result }
    ensures end { IfErr result (λ how. is_of_link how ≡ true) }
{
    wait_past(conn, last, frame)?;
    finish(conn)
}
