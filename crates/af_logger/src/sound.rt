// The sound file of a piece: its header, its samples, and the byte that makes the sound of a WAVE file even.
ghost use Rattle.std.specs.Prelude.{◌≡◌, ◌≤◌, ℕ, ◌*◌, length, take};
ghost use Rattle.af_sound.specs.Written.{IsWritableHead};
ghost use Rattle.af_logger.specs.Plans.{frame_size, IsPlan};
ghost use Rattle.af_logger.specs.Sound.{as_filed, head_in, head_of, pad_of, sound_size, stated_length};

use crate::plan::Plan;
use af_sound::{Coding, SoundForm, SoundHead, to_file, write_sound_head};

/// The most bytes of a header.
pub const HEAD_ROOM: usize = 44;

// The bytes of the sound of a whole piece.
fn sound_size(plan: &Plan) -> u64
    requires { IsPlan plan.now }
    ensures { result ≡ sound_size plan.now }
{
    u64::from(plan.frames) * plan.frame_bytes() as u64
}

// The length that the header states, if it can.
fn stated_length(plan: &Plan) -> Option<u32>
    requires { IsPlan plan.now }
    ensures { result ≡ stated_length plan.now }
{
    let size = sound_size(plan);
    if size < u64::from(u32::MAX) {
        Some(size as u32)
    } else {
        None
    }
}

// The header in a form.
fn head_in(form: SoundForm, coding: Coding, plan: &Plan) -> SoundHead
    requires plan { IsPlan plan.now }
    requires coding { coding ≡ Rattle.af_logger.specs.Plans.coding_in form plan.now.ty }
    ensures value { result ≡ head_in form plan.now }
    ensures writable { IsWritableHead form result }
{
    SoundHead {
        coding,
        rate: plan.rate,
        channels: plan.channels,
        length: stated_length(plan),
    }
}

/// Writes the header of a piece into a room, and answers its length, which is 0 where there is no file.
pub fn write_head(plan: &Plan, room: &mut [u8]) -> usize
    requires plan { IsPlan plan.now }
    requires room { 44 ≤ length room.old }
    ensures within { result ≤ length room.new }
    ensures bytes { take result room.new ≡ head_of plan.now }
{
    match (plan.form, plan.coding) {
        (Some(form), Some(coding)) => write_sound_head(form, &head_in(form, coding, plan), room),
        _ => 0,
    }
}

/// Turns samples of whole frames into those of a file, if they are for one.
pub fn file_samples(plan: &Plan, samples: &mut [u8])
    requires plan { IsPlan plan.now }
    requires whole { (n : ℕ) × (length samples.old ≡ n * frame_size plan.now) }
    ensures { samples.new ≡ as_filed plan.now.coding samples.old }
{
    if let Some(coding) = plan.coding {
        to_file(coding, samples);
    }
}

/// What makes the sound of a WAVE file even, after a whole piece.
pub fn pad_of<'a>(plan: &Plan) -> &'a [u8]
    requires { IsPlan plan.now }
    ensures { result.now ≡ pad_of plan.now }
{
    match plan.form {
        Some(SoundForm::Wave) if sound_size(plan) % 2 == 1 => &[0],
        _ => &[],
    }
}
