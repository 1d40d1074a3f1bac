// Record: sound of a device from a time on.
ghost use Rattle.std.specs.Prelude.{◌≡◌, ℕ, ◌≤◌, ◌<◌, ◌*◌, ◌&&◌, nat_lt, drop, length, min, take, if◌then◌else◌};
ghost use Rattle.af_limits.specs.Limits.{longest_frame, longest_record, longest_message, perform_limit, event_limit};
ghost use Rattle.af_request.specs.Opcodes as opcodes;
ghost use Rattle.af_time.specs.DeviceTime.{unwrap};
ghost use Rattle.af_sample.specs.Channels.{IsChannelCount};
ghost use Rattle.af_sample.specs.SampleTypes.{frame_bytes};
ghost use Rattle.af_model.specs.State.{DeviceState};
ghost use Rattle.af_model.specs.Record.{give_record, given_frames, record_refusal, recorded_bytes, start_record};
ghost use Rattle.af_model.specs.Perform.{request_effect};
ghost use Rattle.af_state.specs.Kept.{OfDeviceAt, StandsForDevice};
ghost use Rattle.af_state.specs.SharedState.{StepsLink, StepsLinkFor, ChangesLink, Leaves, MayAsk};
ghost use Rattle.af_perform.specs.Asked.{new_record};
ghost use Rattle.af_perform.specs.Sounds.{record_by_context, with_named_device, IsRecordOn};

use crate::checks::{check, first_refusal, is_missing, no_context, no_device};
use af_context::Context;
use af_limits::LONGEST_RECORD;
use af_model::{Refusal, RefusalCause};
use af_request::{RECORDED_AT, opcode};
use af_state::{Device, Record, ServedLink, SharedState, Work};
use af_time::DevTime;

/// What Record asks, as it came.
#[derive(Clone, Copy, Debug, PartialEq, Eq)]
pub struct NewRecord {
    pub blocking: bool,
    pub ac: u32,
    pub start: DevTime,
    pub bytes: u32,
}

/// A record whose context is found.
#[derive(Clone, Copy, Debug, PartialEq, Eq)]
pub struct ContextRecord {
    pub blocking: bool,
    pub context: Context,
    pub start: DevTime,
    pub bytes: u32,
}

// Refuses a record with more than 16000 bytes, or with bytes that are not whole frames.
fn record_refusal(context: &Context, channels: u8, bytes: u32) -> Option<Refusal>
    requires { IsChannelCount channels }
    ensures { result ≡ record_refusal channels context.now bytes }
{
    let frame = context.ty.frame_bytes(channels) as u32;
    first_refusal(&[
        check(bytes > LONGEST_RECORD as u32, RefusalCause::BadValue, bytes),
        check(bytes % frame != 0, RefusalCause::BadValue, bytes),
    ])
}

// How many frames a record gives: all, or, if it does not block, those before now, of which there are `before`.
fn given_frames(blocking: bool, before: u32, frames: u32) -> u32
    ensures given { result ≡ (if blocking then frames else min before frames) }
    ensures few { result ≤ frames }
{
    if blocking { frames } else { before.min(frames) }
}

// Reads the frames of a record into the message that answers it. Their samples stand at the front of `samples`.
fn read_frames(asked: Record, device: &Device, samples: &mut [i16], message: &mut [u8])
    requires fits { asked.frames * frame_bytes asked.context.ty device.now.next.channels ≤ longest_record }
    requires samples { length samples.old ≡ longest_frame }
    requires message { length message.old ≡ longest_message }
    ensures size { length message.new ≡ longest_message }
    ensures frames { (s : DeviceState) → StandsForDevice device.now s →
        take (asked.frames * frame_bytes asked.context.ty device.now.next.channels) (drop 16 message.new)
        ≡ recorded_bytes asked.context s (unwrap s.now asked.start.0) asked.frames }
{
    let n = asked.frames as usize * usize::from(device.channels());
    let size = n * asked.context.ty.width();
    let samples = &mut samples[..n];
    let (_, after) = message.split_at_mut(RECORDED_AT);
    device.record(&asked.context, asked.start, samples, &mut after[..size]);
}

/// A record is answered with its frames.
pub fn answer_record(asked: Record, device: &Device, link: &mut ServedLink, work: &mut Work)
    requires room { length link.old.pending ≤ event_limit }
    requires fits { asked.frames * frame_bytes asked.context.ty device.now.next.channels ≤ longest_record }
    ensures step { (s : DeviceState) → StandsForDevice device.now s →
        ChangesLink (give_record asked.context (unwrap s.now asked.start.0) asked.frames s) link.old link.new }
    ensures rest { link.new.rest ≡ link.old.rest }
{
    let size = asked.frames as usize * asked.context.ty.frame_bytes(device.channels());
    read_frames(asked, device, &mut work.samples, &mut work.message);
    link.reply_recorded(device.time(), size, &mut work.message);
}

// Answers a record with all of its frames, or, if it does not block, with those before now.
fn answer_available(asked: Record, device: &Device, link: &mut ServedLink, work: &mut Work)
    requires room { length link.old.pending ≤ perform_limit }
    requires fits { asked.frames * frame_bytes asked.context.ty device.now.next.channels ≤ longest_record }
    ensures step { (s : DeviceState) → StandsForDevice device.now s → ChangesLink
        (give_record asked.context (unwrap s.now asked.start.0) (given_frames asked.blocking s asked.start.0 asked.frames) s)
        link.old link.new }
    ensures rest { link.new.rest ≡ link.old.rest }
{
    let before = device.frames_before(asked.start);
    let frames = given_frames(asked.blocking, before, asked.frames);
    answer_record(Record { frames, ..asked }, device, link, work);
}

// A record is deferred if it blocks and has a frame that is not before now.
fn is_to_wait(blocking: bool, before: u32, frames: u32) -> bool
    ensures { result ≡ (blocking && nat_lt before frames) }
{
    blocking && before < frames
}

// Defers a record, or answers it now.
fn answer_or_defer(
    number: u8,
    asked: Record,
    shared: &mut SharedState,
    link: &mut ServedLink,
    work: &mut Work,
)
    requires asks { MayAsk number shared.old link.old }
    requires there { asked.context.device < length shared.old.devices }
    requires few { asked.frames ≤ longest_record }
    requires fits { OfDeviceAt shared.old.devices asked.context.device
        (λ d. asked.frames * frame_bytes asked.context.ty d.next.channels ≤ longest_record) }
    ensures step { (bytes : ℕ) → OfDeviceAt shared.old.devices asked.context.device (IsRecordOn asked bytes) →
        StepsLinkFor asked.context.device (start_record number asked.blocking asked.context asked.start.0 bytes)
        shared.old link.old shared.new link.new }
    ensures leaves { Leaves number shared.old link.old shared.new link.new }
{
    let device = &shared.devices[usize::from(asked.context.device)];
    if is_to_wait(
        asked.blocking,
        device.frames_before(asked.start),
        asked.frames,
    ) {
        let left = device.record_due_in(asked.start, asked.frames);
        shared.waits.begin_record(number, left, asked);
    } else {
        answer_available(asked, device, link, work);
    }
}

// Checks that the device of a record exists, and that its bytes are whole frames and not too many.
fn check_record(
    number: u8,
    asked: ContextRecord,
    shared: &mut SharedState,
    link: &mut ServedLink,
    work: &mut Work,
)
    requires asks { MayAsk number shared.old link.old }
    ensures step { StepsLink (with_named_device opcodes.record asked.context.device (record_by_context number asked))
        shared.old link.old shared.new link.new }
    ensures leaves { Leaves number shared.old link.old shared.new link.new }
{
    if is_missing(asked.context.device, &shared.devices) {
        link.refuse(opcode::RECORD, no_device(asked.context.device));
        return;
    }
    let channels = shared.devices[usize::from(asked.context.device)].channels();
    match record_refusal(&asked.context, channels, asked.bytes) {
        Some(refusal) => link.refuse(opcode::RECORD, refusal),
        None => {
            let frames = asked.bytes / asked.context.ty.frame_bytes(channels) as u32;
            let asked = Record {
                blocking: asked.blocking,
                context: asked.context,
                start: asked.start,
                frames,
            };
            answer_or_defer(number, asked, shared, link, work);
        }
    }
}

/// Record.
pub fn perform_record(
    number: u8,
    asked: NewRecord,
    shared: &mut SharedState,
    link: &mut ServedLink,
    work: &mut Work,
)
    requires asks { MayAsk number shared.old link.old }
    ensures step { StepsLink (request_effect number (new_record asked)) shared.old link.old shared.new link.new }
    ensures leaves { Leaves number shared.old link.old shared.new link.new }
{
    match link.context(asked.ac) {
        Some(context) => {
            let asked = ContextRecord {
                blocking: asked.blocking,
                context,
                start: asked.start,
                bytes: asked.bytes,
            };
            check_record(number, asked, shared, link, work);
        }
        None => link.refuse(opcode::RECORD, no_context(asked.ac)),
    }
}
