// What a file is that cannot be played, as far as its header shows.
use af_sound::{SoundFault, SoundForm};
use std::fmt;
use std::fmt::{Formatter, Write};

/// A file that cannot be played: the form that was expected, what is wrong, and its first bytes.
#[derive(Clone, Copy)]
pub struct Unplayable<'a> {
    pub form: SoundForm,
    pub fault: SoundFault,
    pub first: &'a [u8],
}

impl<'a> Unplayable<'a> {
    /// Whether it is sound that another program may convert: it is of a kind that is known, and another option would not do.
    pub fn is_sound(&self) -> bool {
        match (self.fault, self.form, self.first) {
            (SoundFault::BadMagic, SoundForm::Au, [b'R', b'I', b'F', b'F', ..]) => false,
            (SoundFault::BadMagic, _, [b'.', b's', b'n', b'd', ..]) => false,
            (SoundFault::BadMagic, form, first) => kind_of(form, first) != UNKNOWN,
            _ => true,
        }
    }
}

impl<'a> fmt::Display for Unplayable<'a> {
    fn fmt<W: Write>(&self, f: &mut Formatter<W>) -> fmt::Result {
        match (self.fault, self.form) {
            (SoundFault::BadMagic, form) => f.write_str(kind_of(form, self.first)),
            (SoundFault::BadHead, SoundForm::Au) => f.write_str(".au, with a head that is broken"),
            (SoundFault::BadHead, SoundForm::Wave) => {
                f.write_str("WAVE, with a head that is broken")
            }
            (SoundFault::BadCoding { tag, bits: _ }, SoundForm::Au) => au_coding(tag, f),
            (SoundFault::BadCoding { tag, bits }, SoundForm::Wave) => wave_coding(tag, bits, f),
            (SoundFault::BadShape { rate: _, channels }, SoundForm::Au) => {
                write!(f, ".au with {channels} channels")
            }
            (SoundFault::BadShape { rate: _, channels }, SoundForm::Wave) => {
                write!(f, "WAVE with {channels} channels")
            }
        }
    }
}

const UNKNOWN: &str =
    "no sound file that is known here; samples without a head are played with --file=raw";

// The kind of a file that has another form than expected. An .au file is ruled out by four bytes, and a WAVE file by twelve: more
// was not read.
fn kind_of<'a>(form: SoundForm, first: &[u8]) -> &'a str {
    match first {
        [b'R', b'I', b'F', b'F', ..] if form == SoundForm::Au =>
            "RIFF, as WAVE is: is --file=wave meant?",
        [b'R', b'I', b'F', b'F', ..] => "RIFF, but not WAVE",
        [b'.', b's', b'n', b'd', ..] => ".au: is --file=au meant?",
        [b'I', b'D', b'3', ..] => "MP3",
        [0xff, second, ..] if second & 0xe0 == 0xe0 => "MP3",
        [b'O', b'g', b'g', b'S', ..] => "Ogg, such as Vorbis or Opus",
        [b'f', b'L', b'a', b'C', ..] => "FLAC",
        [b'F', b'O', b'R', b'M', ..] => "AIFF",
        [b'R', b'F', b'6', b'4', ..] => "RF64",
        [b'R', b'I', b'F', b'X', ..] => "RIFX",
        [b'c', b'a', b'f', b'f', ..] => "CAF",
        [0x1a, 0x45, 0xdf, 0xa3, ..] => "Matroska or WebM",
        [_, _, _, _, b'f', b't', b'y', b'p', ..] => "MP4",
        _ => UNKNOWN,
    }
}

// An .au coding that is not read, by its number.
fn au_coding<W: Write>(tag: u32, f: &mut Formatter<W>) -> fmt::Result {
    match tag {
        2 => f.write_str(".au with 8 bits"),
        4 => f.write_str(".au with 24 bits"),
        5 => f.write_str(".au with 32 bits"),
        6 | 7 => f.write_str(".au with floats"),
        _ => write!(f, ".au of the encoding {tag}"),
    }
}

// A WAVE coding that is not read, by its tag and its bits.
fn wave_coding<W: Write>(tag: u32, bits: u32, f: &mut Formatter<W>) -> fmt::Result {
    match tag {
        1 => write!(f, "WAVE with {bits} bits"),
        3 => write!(f, "WAVE with floats of {bits} bits"),
        85 => f.write_str("WAVE with MP3 inside"),
        0xfffe => write!(f, "WAVE, extensible, {bits} bits"),
        _ => write!(f, "WAVE of the coding {tag}, {bits} bits"),
    }
}

/// A sound file that was taken for raw samples.
#[derive(Clone, Copy)]
pub struct TakenForSamples<'a> {
    /// Its kind, in words.
    pub kind: &'a str,
    /// Its form, if it is one that can be played.
    pub form: Option<SoundForm>,
}

/// The sound file that samples begin as, if they do.
pub fn taken_for_samples<'a>(first: &[u8]) -> Option<TakenForSamples<'a>> {
    let (kind, form) = match first {
        [
            b'R',
            b'I',
            b'F',
            b'F',
            _,
            _,
            _,
            _,
            b'W',
            b'A',
            b'V',
            b'E',
            ..
        ] => { ("WAVE", Some(SoundForm::Wave)) }
        [b'.', b's', b'n', b'd', ..] => (".au", Some(SoundForm::Au)),
        [b'I', b'D', b'3', ..] => ("MP3", None),
        [b'f', b'L', b'a', b'C', ..] => ("FLAC", None),
        [b'O', b'g', b'g', b'S', ..] => ("Ogg, such as Vorbis or Opus", None),
        [b'F', b'O', b'R', b'M', ..] => ("AIFF", None),
        _ => return None,
    };
    Some(TakenForSamples { kind, form })
}

/// Whether a file that begins so is of a kind that ffmpeg reads, and sox as Debian has it does not: MP3, MP4 and Matroska.
pub fn is_for_ffmpeg(first: &[u8]) -> bool {
    match first {
        [b'I', b'D', b'3', ..] => true,
        [0xff, second, ..] => second & 0xe0 == 0xe0,
        [0x1a, 0x45, 0xdf, 0xa3, ..] => true,
        [_, _, _, _, b'f', b't', b'y', b'p', ..] => true,
        _ => false,
    }
}

/// The ending of a file's name, by its form.
pub fn ending<'a>(form: SoundForm) -> &'a str {
    match form {
        SoundForm::Au => "au",
        SoundForm::Wave => "wav",
    }
}
