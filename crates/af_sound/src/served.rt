// The sound of a file as a server takes it, and the reverse.
ghost use Rattle.std.specs.Prelude.{◌≡◌, ◌≢◌, ◌*◌, ◌%◌, length, map};
ghost use Rattle.af_sample.specs.declared.sample_type.SampleType.TheVariants as ty;
ghost use Rattle.af_sample.specs.Samples.{bytes_of};
ghost use Rattle.af_sound.specs.Served.{HasWholePairs, filed_bytes, sample_of, served_bytes, served_length, swapped_pairs};

use crate::Coding;
use af_sample::{SampleType, encode};

/// Writes the sound of a file as a server takes it, as mu-law, A-law or big-endian samples of 16 bits. The samples are whole in
/// what is passed. A sample of 8 bits becomes one of 16.
pub fn to_server(coding: Coding, bytes: &[u8], out: &mut [u8])
    requires room { length out.old ≡ served_length coding (length bytes.now) }
    requires whole { HasWholePairs coding (length bytes.now) }
    ensures { out.new ≡ served_bytes coding bytes.now }
{
    match coding {
        Coding::Mu255 | Coding::Alaw | Coding::Lin16Big => out.copy_from_slice(bytes),
        Coding::Lin16Little => swap_pairs(bytes, out),
        Coding::U8 => widen(bytes, out),
    }
}

/// Turns samples of a server, mu-law, A-law or big-endian ones of 16 bits, into the sound of a file. No file of 8 bits without a
/// sign is written.
pub fn to_file(coding: Coding, samples: &mut [u8])
    requires written { coding ≢ Coding.U8 }
    requires whole { HasWholePairs coding (length samples.old) }
    ensures sound { samples.new ≡ filed_bytes coding samples.old }
    ensures again { served_bytes coding samples.new ≡ samples.old }
{
    if coding == Coding::Lin16Little {
        swap_in_place(samples);
    }
}

// Swaps the bytes of each pair.
fn swap_in_place(bytes: &mut [u8])
    requires { length bytes.old % 2 ≡ 0 }
    ensures { bytes.new ≡ swapped_pairs bytes.old }
{
    for i in 0..bytes.len() / 2 {
        bytes.swap(2 * i, 2 * i + 1);
    }
}

// Copies bytes with each pair swapped.
fn swap_pairs(bytes: &[u8], out: &mut [u8])
    requires room { length out.old ≡ length bytes.now }
    requires whole { length bytes.now % 2 ≡ 0 }
    ensures { out.new ≡ swapped_pairs bytes.now }
{
    for (i, byte) in out.iter_mut().enumerate() {
        let partner = if i % 2 == 0 { i + 1 } else { i - 1 };
        *byte = bytes[partner];
    }
}

// A byte becomes the upper half of its sample. Its silence is 128.
fn widen(bytes: &[u8], out: &mut [u8])
    requires { length out.old ≡ length bytes.now * 2 }
    ensures { out.new ≡ bytes_of ty.Lin16 (map sample_of bytes.now) }
{
    for (i, byte) in bytes.iter().enumerate() {
        let sample = (i16::from(*byte) - 128) * 256;
        encode(SampleType::Lin16, sample, &mut out[2 * i..2 * i + 2]);
    }
}
