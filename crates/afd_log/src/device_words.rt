// What a device is, in words.
use af_process::Words;
use af_sample::SampleType;
use af_shown::Shown;
use af_world::{CardKind, DeviceSpec, Kind};
use std::fmt;
use std::fmt::{Formatter, Write};

/// A device, by its number, and its backend.
#[derive(Clone, Copy)]
pub(crate) struct DeviceWords<'a> {
    pub number: u8,
    pub spec: &'a DeviceSpec,
    pub kind: Kind<'a>,
}

impl fmt::Display for DeviceWords<'_> {
    fn fmt<W: Write>(&self, f: &mut Formatter<W>) -> fmt::Result {
        let number = self.number;
        let ty = type_name(self.spec.ty);
        let rate = self.spec.rate;
        let channels = channels_name(self.spec.channels);
        let line = if self.spec.line { ", line" } else { "" };
        write!(f, "device {number}: {ty}, {rate} Hz, {channels}{line}, ")?;
        write_kind(self.kind, f)
    }
}

/// The name of a sample type, as a configuration has it.
fn type_name(ty: SampleType) -> &'static str {
    match ty {
        SampleType::Mu255 => "mu255",
        SampleType::Alaw => "alaw",
        SampleType::Lin16 => "lin16",
        SampleType::Lin32 => "lin32",
    }
}

/// The name of one channel, or of two.
fn channels_name(channels: u8) -> &'static str {
    if channels == 2 { "stereo" } else { "mono" }
}

/// Writes the backend of a device.
fn write_kind<W: Write>(kind: Kind<'_>, f: &mut Formatter<W>) -> fmt::Result {
    match kind {
        Kind::Silent => f.write_str("silent"),
        Kind::Files { input, output } => {
            let input = Shown::new(input.as_bytes());
            let output = Shown::new(output.as_bytes());
            write!(f, "captures from {input}, plays to {output}")
        }
        Kind::Loop => f.write_str("loop, captures what it plays"),
        Kind::Codec { restarts, words } => {
            write!(f, "codec, started again at most {restarts} times:")?;
            write_words(words, f)
        }
        Kind::Card {
            card,
            restarts,
            words,
        } => {
            let name = card_name(card);
            write!(f, "{name}, started again at most {restarts} times:")?;
            write_words(words, f)
        }
    }
}

/// The name of what the program of a device does, as a configuration has it.
fn card_name(card: CardKind) -> &'static str {
    match card {
        CardKind::Speaker => "speaker",
        CardKind::Microphone => "microphone",
        CardKind::Card => "card",
        CardKind::Encoder => "encoder",
    }
}

/// Writes the command line of a program, each word after a space.
pub(crate) fn write_words<W: Write>(words: &Words, f: &mut Formatter<W>) -> fmt::Result {
    for word in words {
        write!(f, " {}", Shown::new(word.as_bytes()))?;
    }
    Ok(())
}
