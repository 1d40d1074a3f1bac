// Samples between their bytes and 16 bits: one sample, and runs of them.
ghost use Rattle.std.specs.Prelude.{◌≡◌, ◌*◌, ◌<◌, pos, length, get_or, replicate, true};
ghost use Rattle.af_sample.specs.SampleTypes.{width_of};
ghost use Rattle.af_sample.specs.Samples.{bytes_of, decoded, encoded, samples};

use crate::{SampleType, alaw, mu_law};

/// The sample that the bytes of one sample mean. 32 bits lose the lower 16.
pub fn decode(ty: SampleType, bytes: &[u8]) -> i16
    requires { length bytes.now ≡ width_of ty }
    ensures { result ≡ decoded ty bytes.now }
{
    match ty {
        SampleType::Mu255 => mu_law::expanded(bytes[0]),
        SampleType::Alaw => alaw::expanded(bytes[0]),
        SampleType::Lin16 => i16::from_be_bytes([bytes[0], bytes[1]]),
        SampleType::Lin32 => {
            (i32::from_be_bytes([bytes[0], bytes[1], bytes[2], bytes[3]]) >> 16) as i16
        }
    }
}

/// Writes the bytes of one sample.
pub fn encode(ty: SampleType, x: i16, out: &mut [u8])
    requires { length out.old ≡ width_of ty }
    ensures { out.new ≡ encoded ty x }
{
    match ty {
        SampleType::Mu255 => out.copy_from_slice(&[mu_law::compressed(x)]),
        SampleType::Alaw => out.copy_from_slice(&[alaw::compressed(x)]),
        SampleType::Lin16 => out.copy_from_slice(&x.to_be_bytes()),
        SampleType::Lin32 => out.copy_from_slice(&(i32::from(x) << 16).to_be_bytes()),
    }
}

// Decodes sample by sample. It is inlined where it is called, for the one type that is named there: the compiler makes vector
// code of a loop with a known width.
#[inline(always)]
fn decode_each(ty: SampleType, bytes: &[u8], out: &mut [i16])
    requires { length bytes.now ≡ length out.old * width_of ty }
    ensures { out.new ≡ samples ty bytes.now }
{
    let width = ty.width();
    for (i, x) in out.iter_mut().enumerate() {
        let at = i * width;
        *x = decode(ty, &bytes[at..at + width]);
    }
}

// Whether a run has one byte throughout, as the captures of a device that hears nothing: each is the one before it.
fn is_one_byte(run: &[u8]) -> bool
    requires { 0 < length run.now }
    ensures { result ≡ true → run.now ≡ replicate (length run.now) (get_or run.now 0 0) }
{
    run[1..] == run[..run.len() - 1]
}

// Decodes a run of a type with one byte for each sample, sample by sample unless all are the same.
#[inline(always)]
fn decode_law(ty: SampleType, bytes: &[u8], out: &mut [i16])
    requires width { width_of ty ≡ 1 }
    requires count { length bytes.now ≡ length out.old * width_of ty }
    ensures { out.new ≡ samples ty bytes.now }
{
    if !bytes.is_empty() && is_one_byte(bytes) {
        out.fill(decode(ty, &bytes[..1]));
    } else {
        decode_each(ty, bytes, out);
    }
}

/// Decodes a run: a sample for each width bytes.
pub fn convert_in(ty: SampleType, bytes: &[u8], out: &mut [i16])
    requires { length bytes.now ≡ length out.old * width_of ty }
    ensures { out.new ≡ samples ty bytes.now }
{
    match ty {
        SampleType::Mu255 => decode_law(SampleType::Mu255, bytes, out),
        SampleType::Alaw => decode_law(SampleType::Alaw, bytes, out),
        SampleType::Lin16 => decode_each(SampleType::Lin16, bytes, out),
        SampleType::Lin32 => decode_each(SampleType::Lin32, bytes, out),
    }
}

// Encodes a sample of a run. The laws go without a table, since the compiler makes vector code only of such a loop. `encode`
// keeps the table, which is faster for one sample.
#[inline(always)]
fn encode_in_run(ty: SampleType, x: i16, out: &mut [u8])
    requires { length out.old ≡ width_of ty }
    ensures { out.new ≡ encoded ty x }
{
    match ty {
        SampleType::Mu255 => out.copy_from_slice(&[mu_law::compressed_in_run(x)]),
        SampleType::Alaw => out.copy_from_slice(&[alaw::compressed_in_run(x)]),
        SampleType::Lin16 | SampleType::Lin32 => encode(ty, x, out),
    }
}

// Encodes sample by sample, for a type that is known where it is called, as `decode_each` decodes.
#[inline(always)]
fn encode_each(ty: SampleType, samples: &[i16], out: &mut [u8])
    requires { length out.old ≡ length samples.now * width_of ty }
    ensures { out.new ≡ bytes_of ty samples.now }
{
    let width = ty.width();
    for (i, x) in samples.iter().enumerate() {
        let at = i * width;
        encode_in_run(ty, *x, &mut out[at..at + width]);
    }
}

// Whether a run has one sample throughout, as what a device hands out while nobody plays.
fn is_one_sample(run: &[i16]) -> bool
    requires { 0 < length run.now }
    ensures { result ≡ true → run.now ≡ replicate (length run.now) (get_or run.now 0 (pos 0)) }
{
    run[1..] == run[..run.len() - 1]
}

// Encodes a run in a type with one byte for each sample, sample by sample unless all are the same.
#[inline(always)]
fn encode_law(ty: SampleType, samples: &[i16], out: &mut [u8])
    requires width { width_of ty ≡ 1 }
    requires count { length out.old ≡ length samples.now * width_of ty }
    ensures { out.new ≡ bytes_of ty samples.now }
{
    if !samples.is_empty() && is_one_sample(samples) {
        let mut byte = [0];
        encode(ty, samples[0], &mut byte);
        out.fill(byte[0]);
    } else {
        encode_each(ty, samples, out);
    }
}

/// Encodes a run: width bytes for each sample.
pub fn convert_out(ty: SampleType, samples: &[i16], out: &mut [u8])
    requires { length out.old ≡ length samples.now * width_of ty }
    ensures { out.new ≡ bytes_of ty samples.now }
{
    match ty {
        SampleType::Mu255 => encode_law(SampleType::Mu255, samples, out),
        SampleType::Alaw => encode_law(SampleType::Alaw, samples, out),
        SampleType::Lin16 => encode_each(SampleType::Lin16, samples, out),
        SampleType::Lin32 => encode_each(SampleType::Lin32, samples, out),
    }
}
