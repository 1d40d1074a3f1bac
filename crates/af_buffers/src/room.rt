// How large a ring is that holds a horizon.
ghost use Rattle.std.specs.Prelude.{◌^◌, ◌≤◌};
ghost use Rattle.af_buffers.specs.Horizons.{IsRoomFor};

/// The bits of the least power of two that is not below the samples of a horizon, 32,000 of one channel at 8,000 frames a second
/// to 384,000 of two at 48,000.
pub fn bits_for(samples: u32) -> u32
    requires some { 32000 ≤ samples }
    requires few { samples ≤ 384000 }
    ensures room { IsRoomFor samples (2 ^ result) }
    ensures some { 1 ≤ result }
    ensures few { result ≤ 19 }
{
    match samples {
        0..=32768 => 15,
        32769..=65536 => 16,
        65537..=131072 => 17,
        131073..=262144 => 18,
        _ => 19,
    }
}
