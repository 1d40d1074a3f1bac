// Writing the header of a sound file.
ghost use Rattle.std.specs.Prelude.{◌≡◌, ◌<◌, ◌≤◌, ◌+◌, ◌^◌, ◌++◌, IsTrue, ℕ, length, slice_index, take};
ghost use Rattle.af_sound.specs.Fields.{has_shape};
ghost use Rattle.af_sound.specs.Heads.{IsHead};
ghost use Rattle.af_sound.specs.Au.{IsAuHead};
ghost use Rattle.af_sound.specs.Wave.{IsWaveHead};
ghost use Rattle.af_sound.specs.declared.head.SoundForm.TheVariants.{Au, Wave};
ghost use Rattle.af_sound.specs.Written.{IsStatable, IsWritableHead, au_bytes, big_bytes, encoding_of, head_size, little_bytes, riff_bytes, riff_size, sample_size, size_of, tag_of, wave_bytes, with_format, written_head};

use crate::{Coding, SoundForm, SoundHead};

/// Writes the header of a sound file, and answers how many bytes that are: 24 of an .au file, 44 of a WAVE file. The coding is
/// one of the form: linear samples are big-endian in an .au file and little-endian in a WAVE file.
pub fn write_sound_head(form: SoundForm, head: &SoundHead, out: &mut [u8]) -> usize
    requires room { 44 ≤ length out.old }
    requires writable { IsWritableHead form head.now }
    ensures size { result ≡ head_size form }
    ensures bytes { take result out.new ≡ written_head form head.now }
    ensures rest { (k : ℕ) → result ≤ k → slice_index out.new k ≡ slice_index out.old k }
    ensures head { IsHead form (take result out.new) head.now }
{
    match form {
        SoundForm::Au => write_au(*head, out),
        SoundForm::Wave => write_wave(*head, out),
    }
}

// An .au header without an annotation.
#[tactic(auto, unfolding(crate::specs::Written::au_bytes))]
fn write_au(head: SoundHead, out: &mut [u8]) -> usize
    requires room { 44 ≤ length out.old }
    requires writable { IsWritableHead Au head }
    ensures size { result ≡ 24 }
    ensures bytes { take result out.new ≡ au_bytes head }
    ensures rest { (k : ℕ) → result ≤ k → slice_index out.new k ≡ slice_index out.old k }
    ensures head { IsAuHead (take result out.new) head }
{
    let at = put(out, 0, b".snd");
    let at = put_big(out, at, 24);
    let at = put_big(out, at, size_of(head.length));
    let at = put_big(out, at, encoding_of(head.coding));
    let at = put_big(out, at, head.rate);
    put_big(out, at, u32::from(head.channels))
}

// A WAVE header with one chunk before the data, `fmt `.
#[tactic(auto, unfolding(crate::specs::Written::wave_bytes))]
fn write_wave(head: SoundHead, out: &mut [u8]) -> usize
    requires room { 44 ≤ length out.old }
    requires writable { IsWritableHead Wave head }
    ensures size { result ≡ 44 }
    ensures bytes { take result out.new ≡ wave_bytes head }
    ensures rest { (k : ℕ) → result ≤ k → slice_index out.new k ≡ slice_index out.old k }
    ensures head { IsWaveHead (take result out.new) head }
{
    let at = put_riff(head, out);
    let at = put_format(head, at, out);
    let at = put(out, at, b"data");
    put_little(out, at, size_of(head.length))
}

// The front of a WAVE header, up to the size of `fmt `.
fn put_riff(head: SoundHead, out: &mut [u8]) -> usize
    requires room { 44 ≤ length out.old }
    requires stated { IsStatable head.length }
    ensures size { result ≡ 20 }
    ensures bytes { take result out.new ≡ riff_bytes head }
    ensures rest { (k : ℕ) → result ≤ k → slice_index out.new k ≡ slice_index out.old k }
{
    let at = put(out, 0, b"RIFF");
    let at = put_little(out, at, riff_size(head.length));
    let at = put(out, at, b"WAVE");
    let at = put(out, at, b"fmt ");
    put_little(out, at, 16)
}

// The sixteen bytes of `fmt `.
fn put_format(head: SoundHead, at: usize, out: &mut [u8]) -> usize
    requires room { at + 16 ≤ length out.old }
    requires shape { IsTrue (has_shape head.channels) }
    ensures size { result ≡ at + 16 }
    ensures bytes { take result out.new ≡ with_format (take at out.old) head }
    ensures rest { (k : ℕ) → result ≤ k → slice_index out.new k ≡ slice_index out.old k }
    ensures low { head.rate < 2 ^ 32 }
{
    let sample_size = sample_size(head.coding);
    let frame_size = u16::from(head.channels) * sample_size;
    let at = put(out, at, &tag_of(head.coding).to_le_bytes());
    let at = put(out, at, &u16::from(head.channels).to_le_bytes());
    let at = put_little(out, at, head.rate);
    let at = put_little(out, at, head.rate.wrapping_mul(u32::from(frame_size)));
    let at = put(out, at, &frame_size.to_le_bytes());
    put(out, at, &(sample_size * 8).to_le_bytes())
}

// Writes a number of four bytes at `at`, the most significant byte first, and answers where it ends.
fn put_big(out: &mut [u8], at: usize, number: u32) -> usize
    requires { at + 4 ≤ length out.old }
    ensures end { result ≡ at + 4 }
    ensures bytes { take result out.new ≡ take at out.old ++ big_bytes number }
    ensures rest { (k : ℕ) → result ≤ k → slice_index out.new k ≡ slice_index out.old k }
    ensures low { number < 2 ^ 32 }
{
    put(out, at, &number.to_be_bytes())
}

// The same, the least significant byte first.
fn put_little(out: &mut [u8], at: usize, number: u32) -> usize
    requires { at + 4 ≤ length out.old }
    ensures end { result ≡ at + 4 }
    ensures bytes { take result out.new ≡ take at out.old ++ little_bytes number }
    ensures rest { (k : ℕ) → result ≤ k → slice_index out.new k ≡ slice_index out.old k }
    ensures low { number < 2 ^ 32 }
{
    put(out, at, &number.to_le_bytes())
}

// Writes a piece at `at`, and answers where it ends.
fn put(out: &mut [u8], at: usize, piece: &[u8]) -> usize
    requires { at + length piece.now ≤ length out.old }
    ensures end { result ≡ at + length piece.now }
    ensures bytes { take result out.new ≡ take at out.old ++ piece.now }
    ensures rest { (k : ℕ) → result ≤ k → slice_index out.new k ≡ slice_index out.old k }
{
    let end = at + piece.len();
    out[at..end].copy_from_slice(piece);
    end
}

// The number that states a length.
fn size_of(length: Option<u32>) -> u32
    ensures { result ≡ size_of length }
{
    length.unwrap_or(u32::MAX)
}

// The number of a coding in an .au file.
fn encoding_of(coding: Coding) -> u32
    ensures { result ≡ encoding_of coding }
{
    match coding {
        Coding::Mu255 => 1,
        Coding::Alaw => 27,
        _ => 3,
    }
}

// The tag of a coding in a WAVE file.
fn tag_of(coding: Coding) -> u16
    ensures { result ≡ tag_of coding }
{
    match coding {
        Coding::Mu255 => 7,
        Coding::Alaw => 6,
        _ => 1,
    }
}

// The bytes of a sample in a file.
fn sample_size(coding: Coding) -> u16
    ensures value { result ≡ sample_size coding }
    ensures most { result ≤ 2 }
{
    match coding {
        Coding::Lin16Big | Coding::Lin16Little => 2,
        _ => 1,
    }
}

// What `RIFF` counts: all bytes after its size, if that is known and fits.
fn riff_size(length: Option<u32>) -> u32
    ensures { result ≡ riff_size length }
{
    match length {
        Some(length) => riff_size_with(length),
        None => u32::MAX,
    }
}

fn riff_size_with(length: u32) -> u32
    ensures { result ≡ riff_size (Some length) }
{
    let size = 36 + u64::from(length) + u64::from(length % 2);
    u32::try_from(size).unwrap_or(u32::MAX)
}
