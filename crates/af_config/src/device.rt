// What a line of a configuration states: a device and its backend.
ghost use Rattle.std.specs.Prelude.{◌≡◌, IfOk, IfSome, MatchOption, None, option_map, string_bytes};
ghost use Rattle.std.specs.Str.{IsUtf8, is_utf8};
ghost use Rattle.af_sample.specs.Channels.{IsChannelCount};
ghost use Rattle.af_sample.specs.Rates.{IsListedRate};
ghost use Rattle.af_text.specs.Lines.{words};
ghost use Rattle.af_config.specs.Stating.{configured_of, configured_with, placed_at, ending_of, kind_of, silent_of, loop_of, files_of, codec_of, card_of, is_codec};
ghost use Rattle.af_config.specs.Kept.{told_device, told_owned_kind, stated_ending};

use crate::command_line::{LONGEST_CODEC_WORD, LONGEST_WORD, MOST_RESTARTS, command_line_stated};
use af_process::CommandLine;
use af_text::{
    channel_count, is_word, listed_rate, next_word, number_between, sample_type, two_words,
};
use af_time::OutOfMemory;
use af_world::{CardKind, DeviceSpec, MOST_CARD_RESTARTS};
use std::alloc::Global;
use std::str;

/// The backend of a device.
#[derive(Drop)]
pub enum OwnedKind {
    Silent,
    Files {
        input: String,
        output: String,
    },
    Loop,
    Codec {
        restarts: u32,
        words: CommandLine,
    },
    Card {
        card: CardKind,
        restarts: u32,
        words: CommandLine,
    },
}

impl OwnedKind {
    /// Whether the device has the codec.
    pub fn is_codec(&self) -> bool
        ensures { result ≡ is_codec (told_owned_kind self.now) }
    {
        matches!(self, OwnedKind::Codec { .. })
    }
}

/// A device of a configuration.
#[derive(Drop)]
pub struct ConfiguredDevice {
    pub spec: DeviceSpec,
    pub kind: OwnedKind,
}

/// How a device line ends: whether it states a telephone line, and the backend of the device.
#[derive(Drop)]
struct Ending {
    line: bool,
    kind: OwnedKind,
}

/// The device that a line of text states.
pub fn device_stated(alloc: Global, line: &[u8]) -> Result<Option<ConfiguredDevice>, OutOfMemory>
    requires { IsUtf8 line.now }
    ensures value { IfOk result (λ device. option_map told_device device ≡ configured_of (words line.now)) }
    ensures listed { IfOk result (λ device. IfSome device (λ d. IsListedRate d.spec.rate)) }
    ensures channels { IfOk result (λ device. IfSome device (λ d. IsChannelCount d.spec.channels)) }
{
    let Some((name, arguments)) = next_word(line) else {
        return Ok(None);
    };
    if !is_word(name, b"device") {
        return Ok(None);
    }
    let Some((spec, rest)) = front_stated(arguments) else {
        return Ok(None);
    };
    Ok(ending_stated(alloc, rest)?.map(|ending| ConfiguredDevice {
        spec: DeviceSpec {
            line: ending.line,
            ..spec
        },
        kind: ending.kind,
    }))
}

/// The device of `TYPE RATE START`, or of `TYPE RATE START stereo`, with no telephone line, and what comes after these words.
fn front_stated(arguments: &[u8]) -> Option<(DeviceSpec, &[u8])>
    ensures value { MatchOption result (configured_with (words arguments.now) ≡ None)
        (λ found. configured_with (words arguments.now) ≡ option_map (placed_at found.0) (ending_of (words found.1.now))) }
    ensures listed { IfSome result (λ found. IsListedRate found.0.rate) }
    ensures channels { IfSome result (λ found. IsChannelCount found.0.channels) }
    ensures text { IsUtf8 arguments.now → IfSome result (λ found. IsUtf8 found.1.now) }
{
    let (ty, rest) = next_word(arguments)?;
    let (rate, rest) = next_word(rest)?;
    let (start, rest) = next_word(rest)?;
    let (channels, rest) = channel_count(rest);
    let spec = DeviceSpec {
        ty: sample_type(ty)?,
        rate: listed_rate(rate)?,
        start: number_between(0, u32::MAX, start)?,
        channels,
        line: false,
    };
    Some((spec, rest))
}

/// `KIND`, or `line KIND`
fn ending_stated(alloc: Global, arguments: &[u8]) -> Result<Option<Ending>, OutOfMemory>
    requires { IsUtf8 arguments.now }
    ensures { IfOk result (λ stated. option_map stated_ending stated ≡ ending_of (words arguments.now)) }
{
    let Some((word, rest)) = next_word(arguments) else {
        return Ok(None);
    };
    if is_word(word, b"line") {
        Ok(kind_stated(alloc, rest)?.map(|kind| Ending { line: true, kind }))
    } else {
        Ok(kind_stated(alloc, arguments)?.map(|kind| Ending { line: false, kind }))
    }
}

/// `silent`, `loop`, `files INPUT OUTPUT`, or one of `codec`, `speaker`, `microphone`, `card` and `encoder` with
/// `RESTARTS WORD ..`
fn kind_stated(alloc: Global, arguments: &[u8]) -> Result<Option<OwnedKind>, OutOfMemory>
    requires { IsUtf8 arguments.now }
    ensures { IfOk result (λ kind. option_map told_owned_kind kind ≡ kind_of (words arguments.now)) }
{
    let Some((word, names)) = next_word(arguments) else {
        return Ok(None);
    };
    if is_word(word, b"silent") {
        Ok(silent_stated(names))
    } else if is_word(word, b"loop") {
        Ok(loop_stated(names))
    } else if is_word(word, b"files") {
        files_stated(alloc, names)
    } else if is_word(word, b"codec") {
        Ok(codec_stated(names))
    } else if is_word(word, b"speaker") {
        Ok(card_stated(CardKind::Speaker, names))
    } else if is_word(word, b"microphone") {
        Ok(card_stated(CardKind::Microphone, names))
    } else if is_word(word, b"card") {
        Ok(card_stated(CardKind::Card, names))
    } else if is_word(word, b"encoder") {
        Ok(card_stated(CardKind::Encoder, names))
    } else {
        Ok(None)
    }
}

/// No words, after `silent`.
fn silent_stated(names: &[u8]) -> Option<OwnedKind>
    ensures { option_map told_owned_kind result ≡ silent_of (words names.now) }
{
    match next_word(names) {
        None => Some(OwnedKind::Silent),
        Some(_) => None,
    }
}

/// No words, after `loop`.
fn loop_stated(names: &[u8]) -> Option<OwnedKind>
    ensures { option_map told_owned_kind result ≡ loop_of (words names.now) }
{
    match next_word(names) {
        None => Some(OwnedKind::Loop),
        Some(_) => None,
    }
}

/// `INPUT OUTPUT`, after `files`.
fn files_stated(alloc: Global, names: &[u8]) -> Result<Option<OwnedKind>, OutOfMemory>
    requires { IsUtf8 names.now }
    ensures { IfOk result (λ kind. option_map told_owned_kind kind ≡ files_of (words names.now)) }
{
    match two_words(names) {
        Some((input, output)) => Ok(Some(OwnedKind::Files {
            input: name(alloc, input)?,
            output: name(alloc, output)?,
        })),
        None => Ok(None),
    }
}

/// `RESTARTS WORD ..`, after `codec`.
fn codec_stated(names: &[u8]) -> Option<OwnedKind>
    requires { IsUtf8 names.now }
    ensures { option_map told_owned_kind result ≡ codec_of (words names.now) }
{
    let (restarts, rest) = next_word(names)?;
    let restarts = number_between(0, MOST_RESTARTS, restarts)?;
    let words = command_line_stated(rest, LONGEST_CODEC_WORD)?;
    Some(OwnedKind::Codec { restarts, words })
}

/// `RESTARTS WORD ..`, after `speaker`, `microphone`, `card` or `encoder`.
fn card_stated(card: CardKind, names: &[u8]) -> Option<OwnedKind>
    requires { IsUtf8 names.now }
    ensures { option_map told_owned_kind result ≡ card_of card (words names.now) }
{
    let (restarts, rest) = next_word(names)?;
    let restarts = number_between(0, MOST_CARD_RESTARTS, restarts)?;
    let words = command_line_stated(rest, LONGEST_WORD)?;
    Some(OwnedKind::Card {
        card,
        restarts,
        words,
    })
}

/// A copy of a name.
fn name(alloc: Global, word: &[u8]) -> Result<String, OutOfMemory>
    requires { IsUtf8 word.now }
    ensures { IfOk result (λ name. string_bytes name ≡ word.now) }
{
    let text = str::from_utf8(word).unwrap();
    Ok(String::from_str(alloc, text)?)
}

/// Whether a line is text, in UTF-8.
pub fn is_text(line: &[u8]) -> bool
    ensures { result ≡ is_utf8 line.now }
{
    str::from_utf8(line).is_ok()
}
