// How far a time is from a buffer's time, and the cell of its frame in a ring.
ghost use Rattle.std.specs.Prelude.{◌≡◌, ◌*◌, ◌%◌, ◌^◌};
ghost use Rattle.af_buffers.specs.Places.{IsPlace};

use af_time::DevTime;

/// Where a time is from another.
pub(crate) enum Place {
    /// So many frames before it.
    Before(u32),
    /// So many frames ahead of it, or none: at it.
    Ahead(u32),
}

/// Where a time is from now.
pub(crate) fn place_of(start: DevTime, now: DevTime) -> Place
    ensures { IsPlace start.0 now.0 result }
{
    if start.is_before(now) {
        Place::Before(now.0.wrapping_sub(start.0))
    } else {
        Place::Ahead(start.0.wrapping_sub(now.0))
    }
}

/// The cell of the first channel of a time's frame, by the time that it has in the ring.
pub(crate) fn first_cell(t: DevTime, channels: u8) -> DevTime
    ensures { result.0 ≡ channels * t.0 % 2 ^ 32 }
{
    DevTime(t.0.wrapping_mul(u32::from(channels)))
}
