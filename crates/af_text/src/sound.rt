// Words for the sound of a device: its sample type, its rate, and its channels.
ghost use Rattle.std.specs.Prelude.{◌≡◌, IfSome};
ghost use Rattle.std.specs.Str.{IsUtf8};
ghost use Rattle.af_sample.specs.Channels.{IsChannelCount};
ghost use Rattle.af_sample.specs.Rates.{IsListedRate};
ghost use Rattle.af_text.specs.Lines.{words};
ghost use Rattle.af_text.specs.Sound.{type_of, rate_of, channels_stated, after_channels};

use crate::{is_word, next_word, number};
use af_sample::{SampleType, is_listed_rate};

/// The sample type that a word names: `mu255`, `alaw`, `lin16` or `lin32`.
pub fn sample_type(word: &[u8]) -> Option<SampleType>
    ensures { result ≡ type_of word.now }
{
    if is_word(word, b"mu255") {
        Some(SampleType::Mu255)
    } else if is_word(word, b"alaw") {
        Some(SampleType::Alaw)
    } else if is_word(word, b"lin16") {
        Some(SampleType::Lin16)
    } else if is_word(word, b"lin32") {
        Some(SampleType::Lin32)
    } else {
        None
    }
}

/// The rate of a word, in frames a second, if it is one that a device can have.
pub fn listed_rate(word: &[u8]) -> Option<u32>
    ensures value { result ≡ rate_of word.now }
    ensures listed { IfSome result IsListedRate }
{
    let rate = number(word)?;
    if rate <= 48000 && is_listed_rate(rate as u32) {
        Some(rate as u32)
    } else {
        None
    }
}

/// How many channels a device has by the words after its type, its rate and its start: two if `stereo` is the first of them,
/// and else one. And the words after `stereo`, or all of them.
pub fn channel_count(arguments: &[u8]) -> (u8, &[u8])
    ensures channels { result.0 ≡ channels_stated (words arguments.now) }
    ensures count { IsChannelCount result.0 }
    ensures rest { words result.1.now ≡ after_channels (words arguments.now) }
    ensures text { IsUtf8 arguments.now → IsUtf8 result.1.now }
{
    match next_word(arguments) {
        Some((word, rest)) if is_word(word, b"stereo") => (2, rest),
        _ => (1, arguments),
    }
}
