// What a line states: a device, or a step.
ghost use Rattle.std.specs.Prelude.{◌≡◌, ◌≤◌, IfOk, length};
ghost use Rattle.af_limits.specs.Limits.{most_devices};
ghost use Rattle.af_world.specs.Outside.{frame_bytes_at};
ghost use Rattle.af_script.specs.Lines.{words};
ghost use Rattle.af_script.specs.Words.{bytes_within};
ghost use Rattle.af_script.specs.Statement.{line_kind_of, line_stated, device_with, device_number, line_number, link_of, switch_of, digit_of, number_alone, with_number, send_of, room_stated, room_of, capture_of, tick_of, change_of, line_step_of, idle_of, step_of_kind};

use af_io::Bytes;
use af_limits::{LONGEST_SEND, LONGEST_TICK, MOST_LINKS};
use af_phone::{LineChange, is_digit};
use af_text::{
    channel_count, is_word, listed_rate, next_word, number, number_between, one_word, sample_type,
    two_words,
};
use af_time::OutOfMemory;
use af_world::{DeviceSpec, Step, has_line};
use hex::FromHexError;
use std::alloc::Global;

/// Links are numbered from 0 to this.
const LAST_LINK: u32 = MOST_LINKS as u32 - 1;

/// What the first word of a line says that the line is.
#[derive(Clone, Copy, Debug, PartialEq, Eq)]
pub enum LineKind {
    Device,
    Open,
    Send,
    End,
    Room,
    Tick,
    Ring,
    Loop,
    Digit,
    FailRead,
    FailWrite,
    FailCapture,
    FailEmit,
    FailHook,
    Idle,
}

/// The kind of a line by its first word.
pub fn kind_named(name: &[u8]) -> Option<LineKind>
    ensures { result ≡ line_kind_of name.now }
{
    if is_word(name, b"device") {
        Some(LineKind::Device)
    } else if is_word(name, b"open") {
        Some(LineKind::Open)
    } else if is_word(name, b"send") {
        Some(LineKind::Send)
    } else if is_word(name, b"end") {
        Some(LineKind::End)
    } else if is_word(name, b"room") {
        Some(LineKind::Room)
    } else if is_word(name, b"tick") {
        Some(LineKind::Tick)
    } else if is_word(name, b"ring") {
        Some(LineKind::Ring)
    } else if is_word(name, b"loop") {
        Some(LineKind::Loop)
    } else if is_word(name, b"digit") {
        Some(LineKind::Digit)
    } else if is_word(name, b"failread") {
        Some(LineKind::FailRead)
    } else if is_word(name, b"failwrite") {
        Some(LineKind::FailWrite)
    } else if is_word(name, b"failcapture") {
        Some(LineKind::FailCapture)
    } else if is_word(name, b"failemit") {
        Some(LineKind::FailEmit)
    } else if is_word(name, b"failhook") {
        Some(LineKind::FailHook)
    } else if is_word(name, b"idle") {
        Some(LineKind::Idle)
    } else {
        None
    }
}

/// The device that the words after `device` state.
pub fn device_stated(arguments: &[u8]) -> Option<DeviceSpec>
    ensures { result ≡ device_with (words arguments.now) }
{
    let (ty, rest) = next_word(arguments)?;
    let (rate, rest) = next_word(rest)?;
    let (start, rest) = next_word(rest)?;
    let ty = sample_type(ty)?;
    let rate = listed_rate(rate)?;
    let start = number_between(0, u32::MAX, start)?;
    let (channels, rest) = channel_count(rest);
    let line = line_stated(rest)?;
    Some(DeviceSpec {
        ty,
        rate,
        start,
        channels,
        line,
    })
}

/// Whether the words after these state a line: `line` does, and no word does not.
fn line_stated(arguments: &[u8]) -> Option<bool>
    ensures { result ≡ line_stated (words arguments.now) }
{
    if next_word(arguments).is_none() {
        return Some(false);
    }
    if is_word(one_word(arguments)?, b"line") {
        Some(true)
    } else {
        None
    }
}

/// The number of a link.
fn link(word: &[u8]) -> Option<u8>
    ensures { result ≡ link_of word.now }
{
    let number = number_between(0, LAST_LINK, word)?;
    Some(number as u8)
}

/// The number of one of these devices.
fn device(config: &[DeviceSpec], word: &[u8]) -> Option<u8>
    requires { length config.now ≤ most_devices }
    ensures { result ≡ device_number config.now word.now }
{
    let number = number(word)?;
    if number < config.len() as u64 {
        Some(number as u8)
    } else {
        None
    }
}

/// The number of one of these devices that has a line.
fn line(config: &[DeviceSpec], word: &[u8]) -> Option<u8>
    requires { length config.now ≤ most_devices }
    ensures { result ≡ line_number config.now word.now }
{
    let device = device(config, word)?;
    if has_line(config, device) {
        Some(device)
    } else {
        None
    }
}

/// How many bytes a frame of a device has.
fn frame_bytes(config: &[DeviceSpec], device: u8) -> usize
    ensures value { result ≡ frame_bytes_at config.now device }
    ensures bound { result ≤ 1020 }
{
    match config.get(device as usize) {
        Some(device) => device.ty.frame_bytes(device.channels),
        None => 0,
    }
}

/// The bytes of a word in hexadecimal, if their number lies between these two.
fn bytes_between(
    alloc: Global,
    low: usize,
    high: usize,
    word: &[u8],
) -> Result<Option<Bytes>, OutOfMemory>
    ensures { IfOk result (λ bytes. bytes ≡ bytes_within low high word.now) }
{
    match hex::decode(alloc, word) {
        Ok(bytes) if low <= bytes.len() && bytes.len() <= high => Ok(Some(Bytes::copied(
            alloc, &bytes,
        )?)),
        Err(FromHexError::OutOfMemory) => Err(OutOfMemory),
        _ => Ok(None),
    }
}

/// The link that a line states alone, as `open K` does.
fn link_alone(arguments: &[u8]) -> Option<u8>
    ensures { result ≡ number_alone link_of (words arguments.now) }
{
    link(one_word(arguments)?)
}

/// The device that a line states alone, as `failemit D` does.
fn device_alone(config: &[DeviceSpec], arguments: &[u8]) -> Option<u8>
    requires { length config.now ≤ most_devices }
    ensures { result ≡ number_alone (device_number config.now) (words arguments.now) }
{
    device(config, one_word(arguments)?)
}

/// `failhook D`
fn fail_hook(config: &[DeviceSpec], arguments: &[u8]) -> Option<Step>
    requires { length config.now ≤ most_devices }
    ensures { result ≡ with_number (line_number config.now) Step.FailHook (words arguments.now) }
{
    let device = line(config, one_word(arguments)?)?;
    Some(Step::FailHook(device))
}

/// `send K HEX`
fn send(alloc: Global, arguments: &[u8]) -> Result<Option<Step>, OutOfMemory>
    ensures { IfOk result (λ step. step ≡ send_of (words arguments.now)) }
{
    let Some((first, second)) = two_words(arguments) else {
        return Ok(None);
    };
    let Some(link) = link(first) else {
        return Ok(None);
    };
    Ok(bytes_between(alloc, 1, LONGEST_SEND, second)?.map(|bytes| Step::Send(link, bytes)))
}

/// How many bytes the last word of `room K N` states that a link takes, or every byte, which is Some(None).
fn room_stated(word: &[u8]) -> Option<Option<u32>>
    ensures { result ≡ room_stated word.now }
{
    if is_word(word, b"all") {
        return Some(None);
    }
    let count = number_between(0, u32::MAX, word)?;
    Some(Some(count))
}

/// `room K N` or `room K all`
fn room(arguments: &[u8]) -> Option<Step>
    ensures { result ≡ room_of (words arguments.now) }
{
    let (first, second) = two_words(arguments)?;
    let link = link(first)?;
    let room = room_stated(second)?;
    Some(Step::Room(link, room))
}

/// What the words after `tick D N` state is captured: n bytes, or with no words nothing, which is Some(None).
fn capture(
    alloc: Global,
    size: usize,
    arguments: &[u8],
) -> Result<Option<Option<Bytes>>, OutOfMemory>
    ensures { IfOk result (λ capture. capture ≡ capture_of size (words arguments.now)) }
{
    if next_word(arguments).is_none() {
        return Ok(Some(None));
    }
    let Some(word) = one_word(arguments) else {
        return Ok(None);
    };
    Ok(bytes_between(alloc, size, size, word)?.map(Some))
}

/// `tick D N` or `tick D N HEX`
fn tick(alloc: Global, config: &[DeviceSpec], arguments: &[u8]) -> Result<Option<Step>, OutOfMemory>
    requires { length config.now ≤ most_devices }
    ensures { IfOk result (λ step. step ≡ tick_of config.now (words arguments.now)) }
{
    let Some((first, rest)) = next_word(arguments) else {
        return Ok(None);
    };
    let Some((second, rest)) = next_word(rest) else {
        return Ok(None);
    };
    let Some(device) = device(config, first) else {
        return Ok(None);
    };
    let Some(frames) = number_between(1, LONGEST_TICK, second) else {
        return Ok(None);
    };
    let size = frames as usize * frame_bytes(config, device);
    Ok(capture(alloc, size, rest)?.map(|captured| Step::Tick(device, frames, captured)))
}

/// Whether a word is `on`, or `off`.
fn switch(word: &[u8]) -> Option<bool>
    ensures { result ≡ switch_of word.now }
{
    if is_word(word, b"on") {
        Some(true)
    } else if is_word(word, b"off") {
        Some(false)
    } else {
        None
    }
}

/// The digit of a word, by its ASCII code.
fn digit(word: &[u8]) -> Option<u8>
    ensures { result ≡ digit_of word.now }
{
    match word {
        [code] if is_digit(*code) => Some(*code),
        _ => None,
    }
}

/// What the last word of a line of this kind changes on the line of a device.
fn change(kind: LineKind, word: &[u8]) -> Option<LineChange>
    ensures { result ≡ change_of kind word.now }
{
    match kind {
        LineKind::Ring => Some(LineChange::Ring(switch(word)?)),
        LineKind::Loop => Some(LineChange::Current(switch(word)?)),
        LineKind::Digit => Some(LineChange::Digit(digit(word)?)),
        _ => None,
    }
}

/// `ring D on` or `ring D off`, `loop D on` or `loop D off`, or `digit D C`
fn line_step(kind: LineKind, config: &[DeviceSpec], arguments: &[u8]) -> Option<Step>
    requires { length config.now ≤ most_devices }
    ensures { result ≡ line_step_of kind config.now (words arguments.now) }
{
    let (first, second) = two_words(arguments)?;
    let device = line(config, first)?;
    let change = change(kind, second)?;
    Some(Step::Line(device, change))
}

/// `idle`
fn idle(arguments: &[u8]) -> Option<Step>
    ensures { result ≡ idle_of (words arguments.now) }
{
    match next_word(arguments) {
        None => Some(Step::Idle),
        Some(_) => None,
    }
}

/// The step of a line of this kind, by the words after its name, where these are the devices.
pub fn step_stated(
    alloc: Global,
    config: &[DeviceSpec],
    kind: LineKind,
    arguments: &[u8],
) -> Result<Option<Step>, OutOfMemory>
    requires { length config.now ≤ most_devices }
    ensures { IfOk result (λ step. step ≡ step_of_kind config.now (Some kind) (words arguments.now)) }
{
    match kind {
        LineKind::Device => Ok(None),
        LineKind::Open => Ok(link_alone(arguments).map(Step::Open)),
        LineKind::Send => send(alloc, arguments),
        LineKind::End => Ok(link_alone(arguments).map(Step::End)),
        LineKind::Room => Ok(room(arguments)),
        LineKind::Tick => tick(alloc, config, arguments),
        LineKind::Ring | LineKind::Loop | LineKind::Digit => {
            Ok(line_step(kind, config, arguments))
        }
        LineKind::FailRead => Ok(link_alone(arguments).map(Step::FailRead)),
        LineKind::FailWrite => Ok(link_alone(arguments).map(Step::FailWrite)),
        LineKind::FailCapture => Ok(device_alone(config, arguments).map(Step::FailCapture)),
        LineKind::FailEmit => Ok(device_alone(config, arguments).map(Step::FailEmit)),
        LineKind::FailHook => Ok(fail_hook(config, arguments)),
        LineKind::Idle => Ok(idle(arguments)),
    }
}
