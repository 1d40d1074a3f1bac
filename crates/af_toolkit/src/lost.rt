// Sound that is lost: a play comes too late, or what is recorded has left the server.
ghost use Rattle.std.specs.Prelude.{◌≡◌, true};
ghost use Rattle.af_toolkit.specs.Ends.{is_of_all};
ghost use Rattle.af_toolkit.specs.Trace.{tool_end};
ghost use Rattle.af_toolkit.specs.Lost.{finish_by, had_left, is_late, periods_before, time_before};

use crate::end::ToolEnd;
use af_time::DevTime;

/// By how many sample periods a time is before another: their 32-bit two's complement difference, if that is above 0.
pub fn periods_before(time: DevTime, other: DevTime) -> u32
    ensures { result ≡ periods_before time.0 other.0 }
{
    let periods = other.0.wrapping_sub(time.0);
    if periods < 1 << 31 { periods } else { 0 }
}

/// The time so many frames before another.
pub fn time_before(at: DevTime, frames: u64) -> DevTime
    ensures { result.0 ≡ time_before at.0 frames }
{
    DevTime(at.0.wrapping_sub((frames % (1 << 32)) as u32))
}

/// Whether a block that is played has late frames: its first one is before the time that the reply tells.
pub fn is_late(first: DevTime, told: DevTime) -> bool
    ensures { result ≡ is_late first.0 told.0 }
{
    periods_before(first, told) > 0
}

/// Whether frames of a block that is recorded had left the server: the first one is more than the horizon before the time that
/// the reply tells.
pub fn had_left(horizon: u32, first: DevTime, told: DevTime) -> bool
    ensures { result ≡ had_left horizon first.0 told.0 }
{
    is_late(first, time_before(told, u64::from(horizon)))
}

/// The end of a tool that did all: one that is strict says if sound was lost.
pub fn end_by(strict: bool, lost: bool) -> ToolEnd
    ensures value { result ≡ tool_end (finish_by strict lost) }
    ensures end { is_of_all strict result ≡ true }
{
    if strict && lost {
        ToolEnd::SoundLost
    } else {
        ToolEnd::Done
    }
}
