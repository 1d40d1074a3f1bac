//! Laws of device time, each the contract of a function that does nothing.
ghost use Rattle.std.specs.Prelude.{◌≡◌, ◌^◌, ◌<◌, ◌≤◌, ◌↔◌, ℕ};
ghost use Rattle.af_time.specs.DeviceTime.{unwrap, IsMeant};

/// The whole time that a word means is the one whole time with that word in the window from 2^31
/// before now to 2^31 - 1 after.
pub fn one_whole_time()
    ensures { (now w whole : ℕ) → 2 ^ 32 ≤ now → w < 2 ^ 32 →
        IsMeant now w whole ↔ (whole ≡ unwrap now w) }
{}
