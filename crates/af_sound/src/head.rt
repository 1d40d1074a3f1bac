// What the header of a sound file says.
ghost use Rattle.std.specs.Prelude.{◌≡◌};
ghost use Rattle.af_sound.specs.Fields.{length_of};

/// The form of a sound file.
#[derive(Clone, Copy, Debug, PartialEq, Eq)]
pub enum SoundForm {
    /// .au: six big-endian numbers, an annotation, and the sound.
    Au,
    /// WAVE: chunks. `fmt ` says what the sound is, and `data` has it.
    Wave,
}

/// How a file codes its samples.
#[derive(Clone, Copy, Debug, PartialEq, Eq)]
pub enum Coding {
    /// Mu-law (ITU-T G.711).
    Mu255,
    /// A-law (ITU-T G.711).
    Alaw,
    /// Two's complement numbers of 16 bits, the high byte first.
    Lin16Big,
    /// Two's complement numbers of 16 bits, the low byte first.
    Lin16Little,
    /// Numbers of 8 bits, with 128 as silence.
    U8,
}

/// What a header says of the sound after it.
#[derive(Clone, Copy, Debug, PartialEq, Eq)]
pub struct SoundHead {
    pub coding: Coding,
    /// Frames in a second.
    pub rate: u32,
    pub channels: u8,
    /// The bytes of sound. None where the file was begun before that was known.
    pub length: Option<u32>,
}

/// Why bytes are no header.
#[derive(Clone, Copy, Debug, PartialEq, Eq)]
pub enum SoundFault {
    /// A file of another form.
    BadMagic,
    /// An offset inside of the six numbers; `data` before `fmt `, a second `fmt `, or one that is too short.
    BadHead,
    /// A coding that is not read here, by its number in the file. In .au files `bits` is 0.
    BadCoding { tag: u32, bits: u32 },
    /// Neither one channel nor two.
    BadShape { rate: u32, channels: u32 },
}

/// What a reader says to a byte.
#[derive(Clone, Copy, Debug, PartialEq, Eq)]
pub enum HeadStep {
    /// The header goes on.
    More,
    /// The byte was the last of the header. The sound begins after it.
    Head(SoundHead),
    /// The bytes are no header, whatever follows.
    Bad(SoundFault),
}

// The length that a number in a header states.
pub(crate) fn length_of(size: u32) -> Option<u32>
    ensures { result ≡ length_of size }
{
    if size == u32::MAX { None } else { Some(size) }
}
