// When a block is sent: once the one before it was replied to, and, if that is asked for, not before the device has come near
// enough to its time.
ghost use Rattle.std.specs.Prelude.{◌≡◌, ◌+◌, ◌≤◌, ◌<◌, ◌^◌, length, option_map, true, IfErr};
ghost use Rattle.std.specs.declared.option.Option.TheVariants.{None, Some};
ghost use Rattle.af_toolkit.specs.Parts.{has_value};
ghost use Rattle.af_toolkit.specs.Ends.{is_of_link, KeepsConnection};
ghost use Rattle.af_toolkit.specs.ToolParts.{doing, GoesOver};
ghost use Rattle.af_cli.specs.Sizes.{greatest_block};
ghost use Rattle.af_tools.specs.Pacing.{ahead_frames, awaited, block_time, course_from, course_on, once_past, paced_block, unless_past};

use af_cli::PlayJob;
use af_io::Link;
use af_lib::Conn;
use af_time::DevTime;
use af_toolkit::{CONTEXT, ToolEnd, is_late, time_after_frames, time_before};

/// The greatest frame, in bytes: two samples of the widest type.
pub const GREATEST_FRAME: usize = 8;

/// When the blocks of a sound are sent.
#[derive(Clone, Copy)]
pub struct Pace {
    /// The time of the first frame.
    pub start: DevTime,
    /// By how many frames a block may be sent before its time, if that is bounded.
    pub ahead: Option<u64>,
    /// The bytes of a frame, as a server takes it.
    pub frame: usize,
}

/// How far playing has come.
#[derive(Clone, Copy)]
pub struct Course {
    /// The frames that were played.
    pub frames: u64,
    /// The time that the last reply told.
    pub told: DevTime,
    /// Whether frames came too late to be heard.
    pub late: bool,
}

/// By how many frames a block of a job may be sent before its time, at a rate, if that is bounded.
pub fn ahead_frames(job: &PlayJob, rate: u32) -> Option<u64>
    ensures { result ≡ ahead_frames rate job.now }
{
    match job.ahead {
        Some(millis) => Some(u64::from(rate) * u64::from(millis) / 1000),
        None => None,
    }
}

/// The frames of a block, of which so many are asked for: no more than it may be ahead, and at least one.
pub fn paced_block(ahead: Option<u64>, block: u32) -> u32
    ensures { result ≡ paced_block ahead block }
{
    match ahead {
        Some(frames) => u64::from(block).min(frames).max(1) as u32,
        None => block,
    }
}

// A time that is not before the one that was told.
fn unless_past(told: DevTime, at: DevTime) -> Option<DevTime>
    ensures { option_map (λ time. time.0) result ≡ unless_past told.0 at.0 }
{
    if at.0.wrapping_sub(told.0) < 1 << 31 {
        Some(at)
    } else {
        None
    }
}

impl Pace {
    /// When the next block is played.
    pub fn next_time(self, course: Course) -> DevTime
        ensures { result.0 ≡ block_time self.start.0 course.frames }
    {
        time_after_frames(self.start, course.frames)
    }

    /// The time of the frame that has to go by before the next block is sent, if there is one.
    pub fn awaited(self, course: Course) -> Option<DevTime>
        ensures { option_map (λ time. time.0) result ≡ awaited self course }
    {
        match self.ahead {
            Some(frames) => unless_past(course.told, time_before(self.next_time(course), frames)),
            None => None,
        }
    }
}

impl Course {
    /// Nothing was played yet, and the device's time is told.
    pub fn from_time(told: DevTime) -> Course
        ensures { result ≡ course_from told }
    {
        Course {
            frames: 0,
            told,
            late: false,
        }
    }

    /// So many frames more were played at their time, and the reply told this time.
    pub fn on(self, pace: Pace, frames: usize, told: DevTime) -> Course
        requires { self.frames + frames < 2 ^ 64 }
        ensures { result ≡ course_on pace self frames told }
    {
        Course {
            frames: self.frames + frames as u64,
            told,
            late: self.late || is_late(pace.next_time(self), told),
        }
    }
}

// Waits until the frame of a time has gone by. The frame comes into the room, and has so many bytes.
fn hear<L: Link + Drop>(
    conn: &mut Conn<L>,
    at: DevTime,
    frame: usize,
    room: &mut [u8],
) -> Result<(), ToolEnd>
    requires usable { conn.old.cause ≡ None }
    requires room { (frame ≤ length room.old) × (frame ≤ greatest_block) }
    ensures goes { GoesOver L.left L.sent conn.old conn.new (once_past frame (Some at.0) (has_value doing tt)) result }
    ensures holds { KeepsConnection L.left L.faults conn.old conn.new result }
    ensures end { IfErr result (λ how. is_of_link how ≡ true) }
{
    conn.record_run(CONTEXT, at, true, &mut room[..frame])?;
    Ok(())
}

/// Waits until the frame of a time has gone by, if one is stated. A blocking Record of that frame, of so many bytes, is answered
/// once the device has handed it out.
pub fn wait_past<L: Link + Drop>(
    conn: &mut Conn<L>,
    at: Option<DevTime>,
    frame: usize,
) -> Result<(), ToolEnd>
    requires usable { conn.old.cause ≡ None }
    requires room { frame ≤ 8 }
    ensures goes { GoesOver L.left L.sent conn.old conn.new
        (once_past frame (option_map (λ time. time.0) at) (has_value doing tt)) result }
    ensures holds { KeepsConnection L.left L.faults conn.old conn.new result }
    ensures end { IfErr result (λ how. is_of_link how ≡ true) }
{
    match at {
        None => Ok(()),
        Some(at) => {
            let mut heard = [0; GREATEST_FRAME];
            hear(conn, at, frame, &mut heard)
        }
    }
}
