// Sixteen samples at a time, and what each lane of them becomes.
ghost use Rattle.std.specs.Prelude.{◌≡◌, map};
ghost use Rattle.std.specs.Simd.Lanes.{zip2};
ghost use Rattle.af_sample.specs.Gains.{gained};
ghost use Rattle.af_sample.specs.Lanes.{AreSamples, AreWide};
ghost use Rattle.af_sample.specs.Mixing.{mixed, saturated};

use crate::Gain;
use crate::decibels::multiplier_of;
use std::simd::prelude::*;

/// How many samples a vector has.
pub(crate) const LANES: usize = 16;

// Each lane saturated to 16 bits.
#[inline]
fn saturated(wide: i32x16) -> i16x16
    ensures { AreWide wide → result ≡ map saturated wide }
{
    let least = i32x16::splat(-32768);
    let most = i32x16::splat(32767);
    wide.simd_max(least).simd_min(most).cast::<i16>()
}

/// The sums of the samples of two vectors, each saturated to 16 bits.
#[inline]
pub fn mix_lanes(a: i16x16, b: i16x16) -> i16x16
    ensures { AreSamples a → AreSamples b → result ≡ zip2 mixed a b }
{
    saturated(a.cast::<i32>() + b.cast::<i32>())
}

/// The samples of a vector, each with a gain. No product leaves 32 bits.
#[inline]
pub fn gain_lanes(samples: i16x16, gain: Gain) -> i16x16
    ensures { AreSamples samples → result ≡ map (λ x. gained x gain) samples }
{
    let multiplier = i16x16::splat(multiplier_of(gain) as i16).cast::<i32>();
    let product = samples.cast::<i32>() * multiplier;
    saturated(product / i32x16::splat(1024))
}
