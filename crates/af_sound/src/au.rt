// The six numbers of an .au header.
ghost use Rattle.std.specs.Prelude.{◌≡◌};
ghost use Rattle.af_sound.specs.Au.{au_coding};
ghost use Rattle.af_sound.specs.Reading.{au_after, au_end, au_head};

use crate::head::length_of;
use crate::head_reader::{Field, Place};
use crate::{Coding, SoundFault, SoundHead};

// A field of an .au file, with the values of those before it.
#[derive(Clone, Copy, Debug)]
pub(crate) enum AuField {
    Name,
    Offset,
    Size {
        offset: u32,
    },
    Encoding {
        offset: u32,
        size: u32,
    },
    Rate {
        offset: u32,
        size: u32,
        encoding: u32,
    },
    Channels(AuNumbers),
}

// The numbers before the channels.
#[derive(Clone, Copy, Debug)]
pub(crate) struct AuNumbers {
    offset: u32,
    size: u32,
    encoding: u32,
    rate: u32,
}

impl AuField {
    // The place after the field.
    pub(crate) fn after(self, bytes: [u8; 4]) -> Place
        ensures { result ≡ au_after self bytes }
    {
        let number = u32::from_be_bytes(bytes);
        let next = match self {
            AuField::Name if bytes == *b".snd" => AuField::Offset,
            AuField::Name => return Place::Bad(SoundFault::BadMagic),
            AuField::Offset => AuField::Size { offset: number },
            AuField::Size { offset } => AuField::Encoding {
                offset,
                size: number,
            },
            AuField::Encoding { offset, size } => AuField::Rate {
                offset,
                size,
                encoding: number,
            },
            AuField::Rate {
                offset,
                size,
                encoding,
            } => AuField::Channels(AuNumbers {
                offset,
                size,
                encoding,
                rate: number,
            }),
            AuField::Channels(numbers) => return numbers.after(number),
        };
        Field::Au(next).field_begun()
    }
}

impl AuNumbers {
    // The place after all six numbers.
    fn after(self, channels: u32) -> Place
        ensures { result ≡ au_end self (au_head self channels) }
    {
        match self.head(channels) {
            Err(fault) => Place::Bad(fault),
            Ok(head) if self.offset > 24 => Place::Annotation {
                left: self.offset - 24,
                head,
            },
            Ok(head) => Place::Head(head),
        }
    }

    // What the numbers say of the sound.
    fn head(self, channels: u32) -> Result<SoundHead, SoundFault>
        ensures { result ≡ au_head self channels }
    {
        if self.offset < 24 {
            return Err(SoundFault::BadHead);
        }
        let Some(coding) = coding_of(self.encoding) else {
            return Err(SoundFault::BadCoding {
                tag: self.encoding,
                bits: 0,
            });
        };
        if channels != 1 && channels != 2 {
            return Err(SoundFault::BadShape {
                rate: self.rate,
                channels,
            });
        }
        Ok(SoundHead {
            coding,
            rate: self.rate,
            channels: channels as u8,
            length: length_of(self.size),
        })
    }
}

// The coding of an encoding's number.
fn coding_of(encoding: u32) -> Option<Coding>
    ensures { result ≡ au_coding encoding }
{
    match encoding {
        1 => Some(Coding::Mu255),
        3 => Some(Coding::Lin16Big),
        27 => Some(Coding::Alaw),
        _ => None,
    }
}
