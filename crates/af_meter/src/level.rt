// How loud samples are.
ghost use Rattle.std.specs.Prelude.{◌≡◌, ◌<◌, ◌≤◌, ◌+◌, ◌++◌, ◌*◌, ◌/◌, ◌^◌, ℤ, List, length, max, unsigned_abs};
ghost use Rattle.af_sample.specs.declared.sample_type.SampleType.TheVariants.{Lin16};
ghost use Rattle.af_sample.specs.Channels.{IsChannelCount};
ghost use Rattle.af_sample.specs.Samples.{decoded, piece};
ghost use Rattle.af_cli.specs.Sizes.{greatest_block};
ghost use Rattle.af_meter.specs.Levels.{channel_samples, is_below, root_of};
ghost use Rattle.af_meter.specs.Tallies.{IsTally};

use af_sample::{SampleType, decode};

/// How loud a channel was in an interval.
#[derive(Clone, Copy, Debug, PartialEq, Eq)]
pub struct Level {
    /// The greatest absolute value of its samples.
    pub peak: u32,
    /// The root of their mean square, in whole numbers.
    pub mean: u32,
}

/// How loud each channel was in an interval.
#[derive(Clone, Copy, Debug, PartialEq, Eq)]
pub struct Levels {
    pub first: Level,
    pub second: Option<Level>,
}

impl Levels {
    /// Whether the peaks of all channels are below a limit.
    pub fn are_below(&self, limit: u32) -> bool
        ensures { result ≡ is_below limit self.now }
    {
        let first = self.first.peak < limit;
        match self.second {
            Some(second) => first && second.peak < limit,
            None => first,
        }
    }
}

/// What is known of samples so far: the greatest absolute value, and the sum of the squares.
#[derive(Clone, Copy)]
pub struct Tally {
    pub peak: u32,
    pub squares: u64,
}

impl Tally {
    /// Of no sample.
    pub fn new() -> Tally
        ensures { (result.peak ≡ 0) × (result.squares ≡ 0) }
    {
        Tally {
            peak: 0,
            squares: 0,
        }
    }

    // With one sample more.
    #[tactic(auto, using(crate::proofs::LevelLemmas::square_small))]
    fn with(self, sample: i16) -> Tally
        requires room { self.squares + 2 ^ 32 < 2 ^ 64 }
        ensures peak { result.peak ≡ max self.peak (unsigned_abs sample) }
        ensures squares { result.squares ≡ self.squares + unsigned_abs sample * unsigned_abs sample }
        ensures few { result.squares ≤ self.squares + 2 ^ 32 }
    {
        let size = u64::from(sample.unsigned_abs());
        Tally {
            peak: self.peak.max(size as u32),
            squares: self.squares + size * size,
        }
    }

    /// How loud the samples are, if they are so many.
    pub fn level(self, count: u32) -> Level
        requires { 1 ≤ count }
        ensures peak { result.peak ≡ self.peak }
        ensures mean { result.mean ≡ root_of (self.squares / count) }
    {
        let mean = (self.squares / u64::from(count)).isqrt();
        Level {
            peak: self.peak,
            mean: mean as u32,
        }
    }
}

// The sample at a place of a block.
fn sample_at(block: &[u8], place: usize) -> i16
    requires { place * 2 + 2 ≤ length block.now }
    ensures { result ≡ decoded Lin16 (piece Lin16 block.now place) }
{
    let at = place * 2;
    decode(SampleType::Lin16, &block[at..at + 2])
}

/// What is known of a channel with the samples of one block more.
#[tactic(auto, using(crate::proofs::LevelLemmas::place_within))]
pub fn tally_block(channels: usize, channel: usize, block: &[u8], before: Tally) -> Tally
    requires channels { IsChannelCount channels }
    requires channel { channel < channels }
    requires block { length block.now ≤ greatest_block }
    requires room { before.squares + 2 ^ 46 < 2 ^ 64 }
    ensures { (samples : List ℤ) → IsTally before samples →
        IsTally result (samples ++ channel_samples channels channel block.now) }
{
    let mut tally = before;
    for i in 0..block.len() / (2 * channels) {
        let sample = sample_at(block, channels * i + channel);
        tally = tally.with(sample);
    }
    tally
}
