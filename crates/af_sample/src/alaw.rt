// A-law: a sample in one byte, by ITU-T G.711.
ghost use Rattle.std.specs.Prelude.{◌≡◌, ◌<◌};
ghost use Rattle.af_sample.specs.G711.{alaw_starts, from_alaw, interval_of, to_alaw};

use crate::segment::segment_of;

// Every second bit of a byte is inverted, the lowest among them.
const EVEN_BITS: u8 = 0x55;

// The samples of the 256 bytes.
static SAMPLES: [i16; 256] = [
    -5504, -5248, -6016, -5760, -4480, -4224, -4992, -4736, -7552, -7296, -8064, -7808, -6528,
    -6272, -7040, -6784, -2752, -2624, -3008, -2880, -2240, -2112, -2496, -2368, -3776, -3648,
    -4032, -3904, -3264, -3136, -3520, -3392, -22016, -20992, -24064, -23040, -17920, -16896,
    -19968, -18944, -30208, -29184, -32256, -31232, -26112, -25088, -28160, -27136, -11008, -10496,
    -12032, -11520, -8960, -8448, -9984, -9472, -15104, -14592, -16128, -15616, -13056, -12544,
    -14080, -13568, -344, -328, -376, -360, -280, -264, -312, -296, -472, -456, -504, -488, -408,
    -392, -440, -424, -88, -72, -120, -104, -24, -8, -56, -40, -216, -200, -248, -232, -152, -136,
    -184, -168, -1376, -1312, -1504, -1440, -1120, -1056, -1248, -1184, -1888, -1824, -2016, -1952,
    -1632, -1568, -1760, -1696, -688, -656, -752, -720, -560, -528, -624, -592, -944, -912, -1008,
    -976, -816, -784, -880, -848, 5504, 5248, 6016, 5760, 4480, 4224, 4992, 4736, 7552, 7296, 8064,
    7808, 6528, 6272, 7040, 6784, 2752, 2624, 3008, 2880, 2240, 2112, 2496, 2368, 3776, 3648, 4032,
    3904, 3264, 3136, 3520, 3392, 22016, 20992, 24064, 23040, 17920, 16896, 19968, 18944, 30208,
    29184, 32256, 31232, 26112, 25088, 28160, 27136, 11008, 10496, 12032, 11520, 8960, 8448, 9984,
    9472, 15104, 14592, 16128, 15616, 13056, 12544, 14080, 13568, 344, 328, 376, 360, 280, 264,
    312, 296, 472, 456, 504, 488, 408, 392, 440, 424, 88, 72, 120, 104, 24, 8, 56, 40, 216, 200,
    248, 232, 152, 136, 184, 168, 1376, 1312, 1504, 1440, 1120, 1056, 1248, 1184, 1888, 1824, 2016,
    1952, 1632, 1568, 1760, 1696, 688, 656, 752, 720, 560, 528, 624, 592, 944, 912, 1008, 976, 816,
    784, 880, 848,
];

/// The sample of an A-law byte.
#[tactic(auto, using(crate::proofs::AlawLemmas::sample_is))]
pub(crate) fn expanded(byte: u8) -> i16
    ensures { result ≡ from_alaw byte }
{
    SAMPLES[usize::from(byte)]
}

// The interval of a magnitude, 0..127: 16 intervals to a segment.
fn interval(magnitude: u16) -> u8
    requires { magnitude < 32768 }
    ensures value { result ≡ interval_of alaw_starts magnitude }
    ensures range { result < 128 }
{
    let segment = segment_of(magnitude);
    let step = (magnitude >> (segment.max(1) + 3)) & 15;
    segment << 4 | step as u8
}

/// The A-law byte of a sample.
pub(crate) fn compressed(x: i16) -> u8
    ensures { result ≡ to_alaw x }
{
    let code = if x < 0 {
        interval(!x as u16)
    } else {
        0x80 + interval(x as u16)
    };
    code ^ EVEN_BITS
}

// The interval of a magnitude, 0..127, without a table, as mu-law has it. The first two segments lie on one line.
#[inline(always)]
fn interval_by_lines(magnitude: u16) -> u8
    requires { magnitude < 32768 }
    ensures value { result ≡ interval_of alaw_starts magnitude }
    ensures range { result < 128 }
{
    let least = (magnitude >> 4)
        .min((magnitude >> 5) + 16)
        .min((magnitude >> 6) + 32)
        .min((magnitude >> 7) + 48)
        .min((magnitude >> 8) + 64)
        .min((magnitude >> 9) + 80)
        .min((magnitude >> 10) + 96);
    least as u8
}

/// The A-law byte of a sample of a run. Its magnitude is the greater of the sample and its complement.
#[inline(always)]
pub(crate) fn compressed_in_run(x: i16) -> u8
    ensures { result ≡ to_alaw x }
{
    let interval = interval_by_lines(x.max(!x) as u16);
    let code = if x < 0 { interval } else { 0x80 + interval };
    code ^ EVEN_BITS
}
