//! Device time, and the answer when memory runs out.
#![tactic(auto)]

ghost use Rattle.std.specs.Prelude.{◌≡◌, ◌+◌, ◌%◌, ◌^◌, ◌<◌, ◌≤◌, ◌↔◌, ℕ, pos, ◌-ℤ◌, ◌<ℤ◌, IsTrue, IsNone, IfSome};
ghost use Rattle.af_time.specs.DeviceTime.{frames_lasting, word_difference, AreNear};

pub mod laws;

use std::alloc::{AllocError, AllocFailed};

/// Memory ran out.
#[derive(Clone, Copy, Debug, PartialEq, Eq)]
pub struct OutOfMemory;

impl From<AllocError> for OutOfMemory {
    fn from(_: AllocError) -> Self {
        OutOfMemory
    }
}

impl<T: Drop> From<AllocFailed<T>> for OutOfMemory {
    fn from(_: AllocFailed<T>) -> Self {
        OutOfMemory
    }
}

/// A device's time: its count of sample periods, modulo 2^32 (CRL 93/8).
#[derive(Clone, Copy, Debug, PartialEq, Eq)]
pub struct DevTime(pub u32);

impl DevTime {
    /// The time n sample periods later.
    pub fn after(self, n: u32) -> DevTime
        ensures { result.0 ≡ (self.0 + n) % 2 ^ 32 }
    {
        DevTime(self.0.wrapping_add(n))
    }

    /// This time minus the other, as a 32-bit two's complement number: their true difference if that lies in -2^31..2^31 - 1.
    pub fn diff(self, other: DevTime) -> i32
        ensures words { result ≡ word_difference self.0 other.0 }
        ensures whole { (a b : ℕ) → AreNear a b self.0 other.0 → result ≡ pos a -ℤ pos b }
    {
        self.0.wrapping_sub(other.0).cast_signed()
    }

    /// Whether this time is before the other: their difference is negative.
    pub fn is_before(self, other: DevTime) -> bool
        ensures words { IsTrue result ↔ (word_difference self.0 other.0 <ℤ pos 0) }
        ensures whole { (a b : ℕ) → AreNear a b self.0 other.0 → IsTrue result ↔ (a < b) }
    {
        self.diff(other) < 0
    }
}

/// The frames that last `ms` milliseconds at `rate` frames a second, truncated. None where that is
/// above 2^31 - 1.
pub fn frames_of_ms(rate: u32, ms: u32) -> Option<u32>
    ensures some { IfSome result (λ n. n ≡ frames_lasting rate ms) }
    ensures none { IsNone result ↔ (2 ^ 31 ≤ frames_lasting rate ms) }
{
    let frames = u64::from(rate) * u64::from(ms) / 1000;
    u32::try_from(frames).ok().filter(|n| *n < 1 << 31)
}
