// Times after a start.
ghost use Rattle.std.specs.Prelude.{◌≡◌, ◌+◌, ◌%◌, ◌^◌};

use af_time::DevTime;

/// The time of a frame after so many from a start on.
pub fn time_after_frames(start: DevTime, frames: u64) -> DevTime
    ensures { result.0 ≡ (start.0 + frames) % 2 ^ 32 }
{
    start.after((frames % (1 << 32)) as u32)
}
