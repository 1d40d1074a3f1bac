// Samples: the bytes of both laws against another implementation, and linear bytes, gains, sums, rates and types against results
// that were worked out by hand.
ghost use Rattle.std.specs.Prelude.{◌≡◌, ◌*◌, length};
ghost use Rattle.af_sample.specs.SampleTypes.{width_of};

use crate::tests::asserts::{assert_bytes, assert_number, assert_samples};
use crate::tests::reference::{
    ALAW_BYTES, ALAW_INPUTS, ALAW_SAMPLES, MU_LAW_BYTES, MU_LAW_INPUTS, MU_LAW_SAMPLES,
};
use af_sample::*;
use std::process::Abort;
use std::simd::prelude::*;

fn assert_decoded(rt: &impl Abort, ty: SampleType, bytes: &[u8], samples: &[i16], out: &mut [i16])
    requires { length bytes.now ≡ length out.old * width_of ty }
{
    convert_in(ty, bytes, out);
    assert_samples(rt, "decoded", out, samples);
}

fn assert_encoded(rt: &impl Abort, ty: SampleType, samples: &[i16], bytes: &[u8], out: &mut [u8])
    requires { length out.old ≡ length samples.now * width_of ty }
{
    convert_out(ty, samples, out);
    assert_bytes(rt, "encoded", out, bytes);
}

#[test]
fn mu_law_is_that_of_another_implementation(rt: HostRuntime) {
    let mut codes = [0u8; 256];
    for (i, code) in codes.iter_mut().enumerate() {
        *code = i as u8;
    }
    assert_decoded(
        &rt,
        SampleType::Mu255,
        &codes,
        &MU_LAW_SAMPLES,
        &mut [0; 256],
    );
    assert_encoded(
        &rt,
        SampleType::Mu255,
        &MU_LAW_INPUTS,
        &MU_LAW_BYTES,
        &mut [0; 514],
    );
}

#[test]
fn alaw_is_that_of_another_implementation(rt: HostRuntime) {
    let mut codes = [0u8; 256];
    for (i, code) in codes.iter_mut().enumerate() {
        *code = i as u8;
    }
    assert_decoded(&rt, SampleType::Alaw, &codes, &ALAW_SAMPLES, &mut [0; 256]);
    assert_encoded(
        &rt,
        SampleType::Alaw,
        &ALAW_INPUTS,
        &ALAW_BYTES,
        &mut [0; 641],
    );
}

#[test]
fn linear_samples_have_their_high_byte_first(rt: HostRuntime) {
    assert_decoded(
        &rt,
        SampleType::Lin16,
        &[0x12, 0x34, 0xFF, 0xFE],
        &[4660, -2],
        &mut [9; 2],
    );
    assert_encoded(
        &rt,
        SampleType::Lin16,
        &[4660, -2],
        &[0x12, 0x34, 0xFF, 0xFE],
        &mut [9; 4],
    );
    // of 32 bits the lower 16 are cut off
    assert_decoded(
        &rt,
        SampleType::Lin32,
        &[0, 1, 0xFF, 0xFF, 0xFF, 0xFE, 0x80, 0],
        &[1, -2],
        &mut [9; 2],
    );
    assert_encoded(
        &rt,
        SampleType::Lin32,
        &[1, -2],
        &[0, 1, 0, 0, 0xFF, 0xFE, 0, 0],
        &mut [9; 8],
    );
}

// Each sample with its byte in one of the laws, and what that byte is decoded to.
fn assert_codes(rt: &impl Abort, ty: SampleType, cases: &[(i16, u8, i16)])
    requires { width_of ty ≡ 1 }
{
    for (sample, byte, back) in cases {
        let mut code = [0u8; 1];
        encode(ty, *sample, &mut code);
        assert_bytes(rt, "a code", &code, &[*byte]);
        assert_number(
            rt,
            "a code that is decoded",
            i128::from(decode(ty, &code)),
            i128::from(*back),
        );
    }
}

#[test]
fn codes_of_both_laws_by_hand(rt: HostRuntime) {
    assert_codes(
        &rt,
        SampleType::Mu255,
        &[
            (1000, 0xCE, 988),
            (0, 0xFF, 0),
            (-1, 0x7F, 0),
            (124, 0xEF, 132),
            (132, 0xEF, 132),
            (32635, 0x80, 32124),
            (32636, 0x80, 32124),
            (32767, 0x80, 32124),
            (-32768, 0x00, -32124),
        ],
    );
    assert_codes(
        &rt,
        SampleType::Alaw,
        &[
            (1000, 0xFA, 1008),
            (0, 0xD5, 8),
            (-1, 0x55, -8),
            (127, 0xD2, 120),
            (128, 0xDD, 136),
            (32767, 0xAA, 32256),
            (-32768, 0x2A, -32256),
        ],
    );
}

// The samples of a run of two full vectors and a rest.
const LONG: usize = 37;

// Each sample with n decibels, or that so many are no gain.
fn assert_gains(rt: &impl Abort, cases: &[(i16, i32, Option<i16>)]) {
    for (sample, db, wanted) in cases {
        let mut run = [*sample; LONG];
        match Gain::new(*db) {
            Some(gain) => {
                gain_run(&mut run, gain);
                let lanes = gain_lanes(i16x16::splat(*sample), gain).to_array();
                assert_samples(rt, "a vector", &lanes, &run[..16]);
                assert_number(rt, "the gain", i128::from(gain.db()), i128::from(*db));
                assert_number(
                    rt,
                    "one sample",
                    i128::from(gained(*sample, gain)),
                    i128::from(run[1]),
                );
            }
            None => assert_number(rt, "no gain", 0, i128::from(wanted.is_some())),
        }
        assert_samples(rt, "a run", &run, &[wanted.unwrap_or(*sample); LONG]);
    }
}

// Each sum of two samples.
fn assert_sums(rt: &impl Abort, cases: &[(i16, i16, i16)]) {
    for (first, second, sum) in cases {
        let mut run = [*first; LONG];
        mix_into(&mut run, &[*second; LONG]);
        assert_samples(rt, "a run", &run, &[*sum; LONG]);
        let lanes = mix_lanes(i16x16::splat(*first), i16x16::splat(*second)).to_array();
        assert_samples(rt, "a vector", &lanes, &run[..16]);
        assert_number(
            rt,
            "one sample",
            i128::from(mixed(*first, *second)),
            i128::from(*sum),
        );
    }
}

#[test]
fn gains_are_truncated_and_sums_saturated(rt: HostRuntime) {
    assert_gains(
        &rt,
        &[
            (10000, 6, Some(19951)),
            (-10000, 6, Some(-19951)),
            (-10000, -6, Some(-5009)),
            (-1, -6, Some(0)),
            (12345, 0, Some(12345)),
            (2000, 6, Some(3990)),
            (2000, 30, Some(32767)),
            (-2000, 30, Some(-32768)),
            (10000, -30, Some(312)),
            (32767, 0, Some(32767)),
            (-32768, 0, Some(-32768)),
            (10000, 31, None),
            (10000, -31, None),
        ],
    );
    assert_sums(
        &rt,
        &[
            (30000, 10000, 32767),
            (-30000, -10000, -32768),
            (30000, -10000, 20000),
            (3990, 10, 4000),
        ],
    );
}

// Runs of every length up to 100: full vectors and the rest give the same at each place.
#[test]
fn runs_of_each_length_are_mixed_at_each_place(rt: HostRuntime) {
    for n in 0..=100usize {
        let mut onto = [30000i16; 100];
        mix_into(&mut onto[..n], &[10000i16; 100][..n]);
        assert_samples(&rt, "mixed", &onto[..n], &[32767i16; 100][..n]);
        assert_samples(&rt, "not mixed", &onto[n..], &[30000i16; 100][n..]);
    }
}

// Each rate, and whether a device can have it.
fn assert_rates(rt: &impl Abort, cases: &[(u32, bool)]) {
    for (rate, listed) in cases {
        assert_number(
            rt,
            "a rate",
            i128::from(is_listed_rate(*rate)),
            i128::from(*listed),
        );
    }
}

// Each type with its code and its width.
fn assert_types(rt: &impl Abort, cases: &[(SampleType, u8, usize)]) {
    for (ty, code, width) in cases {
        let read = SampleType::of_code(*code).is_some_and(|read| read == *ty);
        assert_number(rt, "a code read", i128::from(read), 1);
        assert_number(rt, "a code", i128::from(ty.code()), i128::from(*code));
        assert_number(rt, "a width", ty.width() as i128, *width as i128);
        assert_number(
            rt,
            "a frame of one",
            ty.frame_bytes(1) as i128,
            *width as i128,
        );
        assert_number(
            rt,
            "a frame of two",
            ty.frame_bytes(2) as i128,
            *width as i128 * 2,
        );
    }
}

#[test]
fn rates_and_types_are_listed(rt: HostRuntime) {
    assert_rates(
        &rt,
        &[
            (8000, true),
            (11025, true),
            (16000, true),
            (22050, true),
            (32000, true),
            (44100, true),
            (48000, true),
            (0, false),
            (8001, false),
            (44101, false),
            (48001, false),
        ],
    );
    assert_types(
        &rt,
        &[
            (SampleType::Mu255, 0, 1),
            (SampleType::Alaw, 1, 1),
            (SampleType::Lin16, 2, 2),
            (SampleType::Lin32, 3, 4),
        ],
    );
    assert_number(
        &rt,
        "a code above them",
        i128::from(SampleType::of_code(4).is_some()),
        0,
    );
}
