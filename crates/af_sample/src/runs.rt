// Work on runs of samples: on as many full vectors as fit, and then sample by sample on the rest.
ghost use Rattle.std.specs.Prelude.{◌≡◌, ◌%◌, length, map};
ghost use Rattle.std.specs.Simd.Lanes.{zip2};
ghost use Rattle.af_sample.specs.Gains.{gained};
ghost use Rattle.af_sample.specs.Lanes.{AreSamples};
ghost use Rattle.af_sample.specs.Mixing.{mixed};

use crate::lanes::LANES;
use crate::{Gain, gain_lanes, gained, mix_lanes, mixed};
use std::simd::prelude::*;

// Reads each sample, so that a proof knows that it has 16 bits. The compiler removes all of it.
fn know_range(samples: &[i16])
    ensures { AreSamples samples.now }
{
    for i in 0..samples.len() {
        let _x = samples[i];
    }
}

// Full vectors of samples get a gain.
fn gain_vectors(samples: &mut [i16], gain: Gain)
    requires { length samples.old % 16 ≡ 0 }
    ensures { samples.new ≡ map (λ x. gained x gain) samples.old }
{
    know_range(samples);
    for i in 0..samples.len() / LANES {
        let at = i * LANES;
        let lanes = gain_lanes(i16x16::from_slice(&samples[at..]), gain);
        lanes.copy_to_slice(&mut samples[at..]);
    }
}

// Each sample gets a gain.
fn gain_each(samples: &mut [i16], gain: Gain)
    ensures { samples.new ≡ map (λ x. gained x gain) samples.old }
{
    for x in samples.iter_mut() {
        *x = gained(*x, gain);
    }
}

/// Gives each sample a gain. One of 0 decibels leaves the samples as they are.
pub fn gain_run(samples: &mut [i16], gain: Gain)
    ensures { samples.new ≡ map (λ x. gained x gain) samples.old }
{
    if gain.db() == 0 {
        know_range(samples);
        return;
    }
    let (vectors, rest) = samples.split_at_mut(samples.len() / LANES * LANES);
    gain_vectors(vectors, gain);
    gain_each(rest, gain);
}

// Full vectors of samples are mixed onto others.
fn mix_vectors(onto: &mut [i16], from: &[i16])
    requires same { length onto.old ≡ length from.now }
    requires whole { length onto.old % 16 ≡ 0 }
    ensures { onto.new ≡ zip2 mixed onto.old from.now }
{
    know_range(onto);
    know_range(from);
    for i in 0..onto.len() / LANES {
        let at = i * LANES;
        let lanes = mix_lanes(
            i16x16::from_slice(&onto[at..]),
            i16x16::from_slice(&from[at..]),
        );
        lanes.copy_to_slice(&mut onto[at..]);
    }
}

// Each sample is mixed onto another.
fn mix_each(onto: &mut [i16], from: &[i16])
    requires { length onto.old ≡ length from.now }
    ensures { onto.new ≡ zip2 mixed onto.old from.now }
{
    for (i, x) in onto.iter_mut().enumerate() {
        *x = mixed(*x, from[i]);
    }
}

/// Mixes as many samples onto others, each sum saturated.
pub fn mix_into(onto: &mut [i16], from: &[i16])
    requires { length onto.old ≡ length from.now }
    ensures { onto.new ≡ zip2 mixed onto.old from.now }
{
    let full = onto.len() / LANES * LANES;
    let (onto_vectors, onto_rest) = onto.split_at_mut(full);
    let (from_vectors, from_rest) = from.split_at(full);
    mix_vectors(onto_vectors, from_vectors);
    mix_each(onto_rest, from_rest);
}
