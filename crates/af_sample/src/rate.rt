// The rates of devices.
ghost use Rattle.std.specs.Prelude.{◌≡◌, ◌≤◌, true};
ghost use Rattle.af_sample.specs.Rates.{is_listed_rate};

/// Whether a device can have this rate: 8000, 11025, 16000, 22050, 32000, 44100 or 48000 frames a second.
pub fn is_listed_rate(rate: u32) -> bool
    ensures value { result ≡ is_listed_rate rate }
    ensures most { result ≡ true → rate ≤ 48000 }
{
    matches!(rate, 8000 | 11025 | 16000 | 22050 | 32000 | 44100 | 48000)
}
