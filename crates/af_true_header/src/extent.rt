// How much was written after a header.
ghost use Rattle.std.specs.Prelude.{◌≡◌, ◌^◌, ◌<◌, ◌≤◌, ◌+◌, ◌*◌, IsTrue, length, max};
ghost use Rattle.af_sound.specs.Written.{frame_size};
ghost use Rattle.af_true_header.specs.Headers.{allows, is_pad, second_bytes, sound_bytes};

use af_sound::{Coding, SoundForm, SoundHead};

/// What was written after a header: so many bytes, of which the last may be a pad byte.
#[derive(Clone, Copy, Debug, PartialEq, Eq)]
pub struct Extent {
    pub bytes: u64,
    pub padded: bool,
}

/// The bytes of a frame.
pub fn frame_bytes(head: &SoundHead) -> u64
    ensures value { result ≡ frame_size head.now }
    ensures most { result ≤ 510 }
{
    let sample: u64 = match head.coding {
        Coding::Lin16Big | Coding::Lin16Little => 2,
        Coding::Mu255 | Coding::Alaw | Coding::U8 => 1,
    };
    u64::from(head.channels) * sample
}

/// The bytes of a second, at least one.
pub fn second_bytes(head: &SoundHead) -> u64
    ensures { result ≡ second_bytes head.now }
{
    let bytes = u64::from(head.rate) * frame_bytes(head);
    bytes.max(1)
}

/// The bytes of sound in an extent: whole frames, and not the pad byte.
pub fn sound_bytes(head: &SoundHead, extent: Extent) -> u64
    ensures { result ≡ sound_bytes head.now extent }
{
    if extent.padded {
        extent.bytes.saturating_sub(1)
    } else {
        let frame = frame_bytes(head).max(1);
        extent.bytes / frame * frame
    }
}

// Whether a header states no length, or this one.
fn allows(length: Option<u32>, bytes: u64) -> bool
    ensures { result ≡ allows length bytes }
{
    match length {
        Some(length) => u64::from(length) == bytes,
        None => true,
    }
}

/// Whether a piece is the pad byte of a WAVE file.
pub fn is_pad(form: SoundForm, head: &SoundHead, extent: Extent, piece: &[u8]) -> bool
    ensures { result ≡ is_pad form head.now extent piece.now }
{
    match form {
        SoundForm::Au => false,
        SoundForm::Wave => {
            frame_bytes(head) == 1
                && extent.bytes % 2 == 1
                && allows(head.length, extent.bytes)
                && piece.len() == 1
                && piece[0] == 0
        }
    }
}
