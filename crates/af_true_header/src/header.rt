// Headers: the one that a piece is, and the one that is true to what was written after it.
ghost use Rattle.std.specs.Prelude.{◌≡◌, ◌↔◌, ◌<◌, ◌≤◌, ◌+◌, ◌++◌, ℕ, IfSome, IsTrue, List, length, min, take, slice_index};
ghost use Rattle.std.specs.declared.option.Option.TheVariants.{Some};
ghost use Rattle.af_sound.specs.declared.head.SoundHead.{SoundHead};
ghost use Rattle.af_sound.specs.declared.head.SoundForm.TheVariants.{Wave};
ghost use Rattle.af_sound.specs.Heads.{IsHead};
ghost use Rattle.af_sound.specs.Fields.{has_shape, unknown_length};
ghost use Rattle.af_sound.specs.Written.{IsStatable, IsWritableHead, head_size, is_written, little_bytes, written_head};
ghost use Rattle.af_true_header.specs.Headers.{header_of, lacks_pad, statable, true_header, with_riff};
ghost use Rattle.af_true_header.specs.Files.{IsShaped};

use crate::extent::{Extent, sound_bytes};
use af_sound::{Coding, HeadReader, HeadStep, SoundForm, SoundHead, write_sound_head};

/// The most bytes that a header has.
pub const LONGEST_HEADER: usize = 44;

// What the header says that a piece is, if it is the whole of one.
fn read_head(form: SoundForm, piece: &[u8]) -> Option<SoundHead>
    ensures { (head : SoundHead) → IsHead form piece.now head → result ≡ Some head }
{
    let mut reader = HeadReader::new(form);
    for byte in piece {
        match reader.take(*byte) {
            HeadStep::More => {}
            HeadStep::Head(head) => return Some(head),
            HeadStep::Bad(_fault) => return None,
        }
    }
    None
}

// Whether a header of a form has this coding.
fn is_written(form: SoundForm, coding: Coding) -> bool
    ensures { result ≡ is_written form coding }
{
    match coding {
        Coding::Mu255 | Coding::Alaw => true,
        Coding::Lin16Big => form == SoundForm::Au,
        Coding::Lin16Little => form == SoundForm::Wave,
        Coding::U8 => false,
    }
}

// Whether a sound has one channel or two.
fn has_shape(channels: u8) -> bool
    ensures { result ≡ has_shape channels }
{
    channels == 1 || channels == 2
}

// Whether a header can state a length.
fn is_statable(length: Option<u32>) -> bool
    ensures { IsTrue result ↔ IsStatable length }
{
    match length {
        Some(length) => length < u32::MAX,
        None => true,
    }
}

// Whether a header can be written in a form.
fn is_writable(form: SoundForm, head: &SoundHead) -> bool
    ensures { IsTrue result ↔ IsWritableHead form head.now }
{
    has_shape(head.channels) && is_statable(head.length) && is_written(form, head.coding)
}

/// The header that a piece is, if it is one that is written in a form.
pub fn head_of(form: SoundForm, piece: &[u8]) -> Option<SoundHead>
    ensures some { IfSome result (λ head. (piece.now ≡ written_head form head) × IsWritableHead form head
        × (length piece.now ≡ head_size form)) }
    ensures each { (head : SoundHead) → IsWritableHead form head → IsHead form piece.now head →
        piece.now ≡ written_head form head → result ≡ Some head }
{
    let head = read_head(form, piece)?;
    if !is_writable(form, &head) {
        return None;
    }
    let mut room = [0; LONGEST_HEADER];
    let size = write_sound_head(form, &head, &mut room);
    if &room[..size] == piece {
        Some(head)
    } else {
        None
    }
}

// A length, if a header can state it.
fn statable(length: u64) -> Option<u32>
    ensures value { result ≡ statable length }
    ensures stated { IsStatable result }
{
    if length < u64::from(u32::MAX) {
        Some(length as u32)
    } else {
        None
    }
}

// Whether the sound of a WAVE file is odd, and its pad byte was not written yet.
fn lacks_pad(form: SoundForm, sound: u64, padded: bool) -> bool
    ensures { result ≡ lacks_pad form sound padded }
{
    match form {
        SoundForm::Au => false,
        SoundForm::Wave => sound % 2 == 1 && !padded,
    }
}

// Writes another number into the size of `RIFF`.
fn put_riff(out: &mut [u8], size: u32)
    requires { 44 ≤ length out.old }
    ensures size { length out.new ≡ length out.old }
    ensures bytes { take 44 out.new ≡ with_riff size (take 44 out.old) }
{
    out[4..8].copy_from_slice(&size.to_le_bytes());
}

// What `RIFF` counts of a sound without its pad byte.
fn unpadded_riff(sound: u64) -> u32
    ensures { result ≡ min (36 + sound) unknown_length }
{
    match u32::try_from(sound) {
        Ok(sound) => sound.saturating_add(36),
        Err(_) => u32::MAX,
    }
}

/// Writes the header that is true to what was written after it, and answers how many bytes that are.
#[tactic(auto, unfolding(crate::specs::Headers::true_header))]
pub fn write_true_header(form: SoundForm, head: &SoundHead, extent: Extent, out: &mut [u8]) -> usize
    requires room { 44 ≤ length out.old }
    requires shaped { IsShaped form head.now }
    ensures size { result ≡ head_size form }
    ensures room { length out.new ≡ length out.old }
    ensures bytes { take result out.new ≡ true_header form head.now extent }
{
    let sound = sound_bytes(head, extent);
    let stated = SoundHead {
        length: statable(sound),
        ..*head
    };
    let size = write_sound_head(form, &stated, out);
    if lacks_pad(form, sound, extent.padded) {
        put_riff(out, unpadded_riff(sound));
    }
    size
}
