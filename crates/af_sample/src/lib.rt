//! Samples: how each type of the wire codes them (ITU-T G.711 and two linear ones), gains in
//! decibels, and sums, all between bytes and the signed 16-bit samples that the server works on.
#![tactic(auto)]

ghost use Rattle.std.specs.Prelude.{◌≡◌};
ghost use Rattle.af_sample.specs.Mixing.{mixed};

mod alaw;
mod coding;
mod decibels;
mod lanes;
pub mod laws;
mod mu_law;
mod rate;
mod runs;
mod sample_type;
mod segment;

pub use coding::{convert_in, convert_out, decode, encode};
pub use decibels::{Gain, gained};
pub use lanes::{gain_lanes, mix_lanes};
pub use rate::is_listed_rate;
pub use runs::{gain_run, mix_into};
pub use sample_type::SampleType;

/// The sum of two samples, saturated to 16 bits.
pub fn mixed(a: i16, b: i16) -> i16
    ensures { result ≡ mixed a b }
{
    a.saturating_add(b)
}
