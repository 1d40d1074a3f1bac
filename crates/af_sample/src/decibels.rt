// Gains: whole decibels, and what they make of a sample.
ghost use Rattle.std.specs.Prelude.{◌≡◌, ◌↔◌, ◌≤◌, ℤ, pos, IsSome};
ghost use Rattle.af_sample.specs.Gains.{gain_of, gained, multiplier, IsGain};

use std::marker::Model;

/// A gain of -30..30 whole decibels. Clauses see it as that number.
#[derive(Clone, Copy, Debug, PartialEq, Eq)]
pub struct Gain {
    db: i32,
}

impl Model for Gain {
    ghost Value = { ℤ };

    ghost view = { λ g. g.db };

    ghost invariant = { λ g. IsGain g.db };

    ghost inverse = { λ db. record { db = db } };
}

impl Gain {
    /// The gain of n decibels. None outside -30..30.
    pub fn new(db: i32) -> Option<Gain>
        ensures value { result ≡ gain_of db }
        ensures some { IsSome result ↔ IsGain db }
    {
        if (-30..=30).contains(&db) {
            Some(Gain { db })
        } else {
            None
        }
    }

    /// The decibels, -30..30.
    pub fn db(self) -> i32
        ensures value { result ≡ self }
        ensures range { IsGain result }
    {
        self.db
    }
}

impl Default for Gain {
    ghost is_default = { λ g. g ≡ pos 0 };

    /// 0 decibels, which leaves samples as they are.
    fn default() -> Gain {
        Gain { db: 0 }
    }
}

// What multiplies a sample, in 1024ths, for each gain from -30 on.
static MULTIPLIERS: [u16; 61] = [
    32, 36, 40, 45, 51, 57, 64, 72, 81, 91, 102, 114, 128, 144, 162, 182, 204, 229, 257, 288, 323,
    363, 407, 457, 513, 575, 646, 724, 813, 912, 1024, 1148, 1289, 1446, 1622, 1820, 2043, 2292,
    2572, 2886, 3238, 3633, 4076, 4574, 5132, 5758, 6461, 7249, 8133, 9126, 10240, 11489, 12891,
    14464, 16229, 18209, 20431, 22924, 25721, 28860, 32381,
];

/// What multiplies a sample with this gain, in 1024ths.
pub(crate) fn multiplier_of(gain: Gain) -> u16
    ensures value { result ≡ multiplier gain }
    ensures most { result ≤ 32381 }
{
    MULTIPLIERS[(gain.db() + 30) as usize]
}

/// A sample with a gain: times the gain's multiplier, which is in 1024ths, truncated toward zero
/// and saturated to 16 bits.
pub fn gained(x: i16, gain: Gain) -> i16
    ensures value { result ≡ gained x gain }
    ensures unity { gain ≡ pos 0 → result ≡ x }
{
    let product = i32::from(x) * i32::from(multiplier_of(gain));
    (product / 1024).clamp(-32768, 32767) as i16
}
