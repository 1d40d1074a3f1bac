// Mu-law: a sample in one byte, by ITU-T G.711.
ghost use Rattle.std.specs.Prelude.{◌≡◌, ◌<◌, nat_abs};
ghost use Rattle.af_sample.specs.G711.{from_mu_law, interval_of, mu_law_starts, to_mu_law};

use crate::segment::segment_of;

// What is added to a magnitude, so that each segment begins at a power of two.
const BIAS: u16 = 132;

// The greatest magnitude that the bias leaves within 15 bits.
const CLIP: u16 = 32635;

// The samples of the 256 bytes.
static SAMPLES: [i16; 256] = [
    -32124, -31100, -30076, -29052, -28028, -27004, -25980, -24956, -23932, -22908, -21884, -20860,
    -19836, -18812, -17788, -16764, -15996, -15484, -14972, -14460, -13948, -13436, -12924, -12412,
    -11900, -11388, -10876, -10364, -9852, -9340, -8828, -8316, -7932, -7676, -7420, -7164, -6908,
    -6652, -6396, -6140, -5884, -5628, -5372, -5116, -4860, -4604, -4348, -4092, -3900, -3772,
    -3644, -3516, -3388, -3260, -3132, -3004, -2876, -2748, -2620, -2492, -2364, -2236, -2108,
    -1980, -1884, -1820, -1756, -1692, -1628, -1564, -1500, -1436, -1372, -1308, -1244, -1180,
    -1116, -1052, -988, -924, -876, -844, -812, -780, -748, -716, -684, -652, -620, -588, -556,
    -524, -492, -460, -428, -396, -372, -356, -340, -324, -308, -292, -276, -260, -244, -228, -212,
    -196, -180, -164, -148, -132, -120, -112, -104, -96, -88, -80, -72, -64, -56, -48, -40, -32,
    -24, -16, -8, 0, 32124, 31100, 30076, 29052, 28028, 27004, 25980, 24956, 23932, 22908, 21884,
    20860, 19836, 18812, 17788, 16764, 15996, 15484, 14972, 14460, 13948, 13436, 12924, 12412,
    11900, 11388, 10876, 10364, 9852, 9340, 8828, 8316, 7932, 7676, 7420, 7164, 6908, 6652, 6396,
    6140, 5884, 5628, 5372, 5116, 4860, 4604, 4348, 4092, 3900, 3772, 3644, 3516, 3388, 3260, 3132,
    3004, 2876, 2748, 2620, 2492, 2364, 2236, 2108, 1980, 1884, 1820, 1756, 1692, 1628, 1564, 1500,
    1436, 1372, 1308, 1244, 1180, 1116, 1052, 988, 924, 876, 844, 812, 780, 748, 716, 684, 652,
    620, 588, 556, 524, 492, 460, 428, 396, 372, 356, 340, 324, 308, 292, 276, 260, 244, 228, 212,
    196, 180, 164, 148, 132, 120, 112, 104, 96, 88, 80, 72, 64, 56, 48, 40, 32, 24, 16, 8, 0,
];

/// The sample of a mu-law byte.
#[tactic(auto, using(crate::proofs::MuLawLemmas::sample_is))]
pub(crate) fn expanded(byte: u8) -> i16
    ensures { result ≡ from_mu_law byte }
{
    SAMPLES[usize::from(byte)]
}

// The interval of a magnitude, 0..127: 16 intervals to a segment.
fn interval(magnitude: u16) -> u8
    ensures value { result ≡ interval_of mu_law_starts magnitude }
    ensures range { result < 128 }
{
    let biased = magnitude.min(CLIP) + BIAS;
    let segment = segment_of(biased);
    let step = (biased >> (segment + 3)) & 15;
    segment << 4 | step as u8
}

// The byte of a sample whose magnitude is in this interval: all bits are inverted, and the first is the sign.
#[inline(always)]
fn byte_of(x: i16, interval: u8) -> u8
    requires value { interval ≡ interval_of mu_law_starts (nat_abs x) }
    requires range { interval < 128 }
    ensures { result ≡ to_mu_law x }
{
    if x < 0 {
        0x7F - interval
    } else {
        0xFF - interval
    }
}

/// The mu-law byte of a sample.
#[tactic(auto, using(crate::proofs::MuLawLemmas::sample_interval))]
pub(crate) fn compressed(x: i16) -> u8
    ensures { result ≡ to_mu_law x }
{
    byte_of(x, interval(x.unsigned_abs()))
}

// The interval of a magnitude, 0..127, without a table: so the compiler encodes several samples of a run at once. Each segment is
// a straight line, and each is flatter than the one before. So every line is on or above the curve that the segments make, and
// the least of their values is the interval.
#[inline(always)]
fn interval_by_lines(magnitude: u16) -> u8
    ensures value { result ≡ interval_of mu_law_starts magnitude }
    ensures range { result < 128 }
{
    let biased = magnitude.min(CLIP) + BIAS;
    let least = (biased >> 3)
        .min((biased >> 4) + 16)
        .min((biased >> 5) + 32)
        .min((biased >> 6) + 48)
        .min((biased >> 7) + 64)
        .min((biased >> 8) + 80)
        .min((biased >> 9) + 96)
        .min((biased >> 10) + 112);
    (least - 16) as u8
}

/// The mu-law byte of a sample of a run.
#[inline(always)]
#[tactic(auto, using(crate::proofs::MuLawLemmas::sample_interval))]
pub(crate) fn compressed_in_run(x: i16) -> u8
    ensures { result ≡ to_mu_law x }
{
    byte_of(x, interval_by_lines(x.unsigned_abs()))
}
