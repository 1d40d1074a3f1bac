// The chunks of a WAVE file.
ghost use Rattle.std.specs.Prelude.{◌≡◌, ◌<◌, ◌^◌};
ghost use Rattle.af_sound.specs.Wave.{wave_coding};
ghost use Rattle.af_sound.specs.Reading.{after_name, chunk_start, chunk_kind, format_end, format_of, head_with, wave_after};

use crate::head::length_of;
use crate::head_reader::{Field, Place};
use crate::{Coding, SoundFault, SoundHead};

// Four bytes of a WAVE file, with the values from those before them that are still needed.
#[derive(Clone, Copy, Debug)]
pub(crate) enum WaveField {
    Riff,
    RiffSize { riff: bool },
    Wave { riff: bool },
    /// The name of a chunk, with what `fmt ` said if it came.
    ChunkName { format: Option<Format> },
    ChunkSize { format: Option<Format> },
    FormatSize,
    /// The tag and the channels.
    FormatTag { more: u32 },
    FormatRate { more: u32, tag: u16, channels: u16 },
    FormatIgnored(FormatFields),
    /// Two bytes that are ignored, and the bits of a sample.
    FormatBits(FormatFields),
    DataSize { format: Format },
}

// What `fmt ` says of the sound.
#[derive(Clone, Copy, Debug)]
pub(crate) struct Format {
    coding: Coding,
    rate: u32,
    channels: u8,
}

// The values of `fmt ` before the bits of a sample. Each such chunk has these sixteen bytes.
#[derive(Clone, Copy, Debug)]
pub(crate) struct FormatFields {
    /// The bytes of the chunk after the sixteen that are read.
    more: u32,
    tag: u16,
    channels: u16,
    rate: u32,
}

// The kind of a chunk, by its name.
#[derive(Clone, Copy)]
pub(crate) enum ChunkKind {
    Format,
    Data,
    Other,
}

impl WaveField {
    // The place after four bytes.
    pub(crate) fn after(self, bytes: [u8; 4]) -> Place
        ensures { result ≡ wave_after self bytes }
    {
        let number = u32::from_le_bytes(bytes);
        let [a, b, c, d] = bytes;
        let next = match self {
            WaveField::Riff => WaveField::RiffSize {
                riff: bytes == *b"RIFF",
            },
            WaveField::RiffSize { riff } => WaveField::Wave { riff },
            WaveField::Wave { riff } if riff && bytes == *b"WAVE" => WaveField::ChunkName {
                format: None,
            },
            WaveField::Wave { .. } => return Place::Bad(SoundFault::BadMagic),
            WaveField::ChunkName { format } => return ChunkKind::of(bytes).after(format),
            WaveField::ChunkSize { format } => return chunk_begun(u64::from(number), format),
            WaveField::FormatSize if number < 16 => return Place::Bad(SoundFault::BadHead),
            WaveField::FormatSize => WaveField::FormatTag { more: number - 16 },
            WaveField::FormatTag { more } => WaveField::FormatRate {
                more,
                tag: u16::from_le_bytes([a, b]),
                channels: u16::from_le_bytes([c, d]),
            },
            WaveField::FormatRate {
                more,
                tag,
                channels,
            } => WaveField::FormatIgnored(FormatFields {
                more,
                tag,
                channels,
                rate: number,
            }),
            WaveField::FormatIgnored(fields) => WaveField::FormatBits(fields),
            WaveField::FormatBits(fields) => return fields.after(u16::from_le_bytes([c, d])),
            WaveField::DataSize { format } => return Place::Head(format.head(number)),
        };
        Field::Wave(next).field_begun()
    }
}

impl ChunkKind {
    fn of(name: [u8; 4]) -> ChunkKind
        ensures { result ≡ chunk_kind name }
    {
        if name == *b"fmt " {
            ChunkKind::Format
        } else if name == *b"data" {
            ChunkKind::Data
        } else {
            ChunkKind::Other
        }
    }

    // The place after the name of a chunk: `data` has to come after `fmt `, which has to come only once.
    fn after(self, format: Option<Format>) -> Place
        ensures { result ≡ after_name self format }
    {
        let next = match (self, format) {
            (ChunkKind::Format, None) => WaveField::FormatSize,
            (ChunkKind::Data, Some(format)) => WaveField::DataSize { format },
            (ChunkKind::Other, format) => WaveField::ChunkSize { format },
            _ => return Place::Bad(SoundFault::BadHead),
        };
        Field::Wave(next).field_begun()
    }
}

// The place before the last bytes of a chunk. A chunk with an odd number of them has a pad byte.
fn chunk_begun(count: u64, format: Option<Format>) -> Place
    requires { count < 2 ^ 32 }
    ensures { result ≡ chunk_start count format }
{
    match count + count % 2 {
        0 => Field::Wave(WaveField::ChunkName { format }).field_begun(),
        left => Place::Chunk { left, format },
    }
}

impl FormatFields {
    // The place after the sixteen bytes of `fmt `.
    fn after(self, bits: u16) -> Place
        ensures { result ≡ format_end self (format_of self bits) }
    {
        match self.format(bits) {
            Err(fault) => Place::Bad(fault),
            Ok(format) => chunk_begun(u64::from(self.more), Some(format)),
        }
    }

    // What the fields say of the sound.
    fn format(self, bits: u16) -> Result<Format, SoundFault>
        ensures { result ≡ format_of self bits }
    {
        let Some(coding) = coding_of(self.tag, bits) else {
            return Err(SoundFault::BadCoding {
                tag: u32::from(self.tag),
                bits: u32::from(bits),
            });
        };
        if self.channels != 1 && self.channels != 2 {
            return Err(SoundFault::BadShape {
                rate: self.rate,
                channels: u32::from(self.channels),
            });
        }
        Ok(Format {
            coding,
            rate: self.rate,
            channels: self.channels as u8,
        })
    }
}

impl Format {
    // What the header of a file says if its sound has so many bytes.
    fn head(self, size: u32) -> SoundHead
        ensures { result ≡ head_with self size }
    {
        SoundHead {
            coding: self.coding,
            rate: self.rate,
            channels: self.channels,
            length: length_of(size),
        }
    }
}

// The coding of a tag and of the bits of a sample.
fn coding_of(tag: u16, bits: u16) -> Option<Coding>
    ensures { result ≡ wave_coding tag bits }
{
    match (tag, bits) {
        (1, 16) => Some(Coding::Lin16Little),
        (1, 8) => Some(Coding::U8),
        (6, 8) => Some(Coding::Alaw),
        (7, 8) => Some(Coding::Mu255),
        _ => None,
    }
}
