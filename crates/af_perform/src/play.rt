// Play: sound of a client from a time on.
ghost use Rattle.std.specs.Prelude.{◌≡◌, ℕ, ◌≤◌, ◌<◌, ◌*◌, ◌/◌, ◌%◌, ◌++◌, List, length, take, if◌then◌else◌};
ghost use Rattle.af_limits.specs.Limits.{longest_play, longest_message, event_limit};
ghost use Rattle.af_sample.specs.Channels.{AreWholeFrames, IsChannelCount};
ghost use Rattle.af_sample.specs.SampleTypes.{width_of};
ghost use Rattle.af_context.specs.declared.Context.{Context};
ghost use Rattle.af_request.specs.Answer.{played};
ghost use Rattle.af_request.specs.Opcodes as opcodes;
ghost use Rattle.af_model.specs.Reply.{reply_message};
ghost use Rattle.af_model.specs.Play.{play_refusal, sent_sound, start_play};
ghost use Rattle.af_model.specs.Perform.{request_effect};
ghost use Rattle.af_state.specs.Deferred.{deferred_of_play};
ghost use Rattle.af_state.specs.Kept.{OfDeviceAt};
ghost use Rattle.af_state.specs.Deferrals.{CanComplete};
ghost use Rattle.af_state.specs.SharedState.{StepsLink, StepsLinkFor, Leaves, MayAsk};
ghost use Rattle.af_perform.specs.Asked.{new_play};
ghost use Rattle.af_perform.specs.Sounds.{play_by_context, start_play_of, with_named_device, AcceptsPlay, CompletesDeferred, IsSoundOf, WholeBytes};

use crate::checks::{check, is_missing, no_context, no_device};
use af_context::Context;
use af_model::{Refusal, RefusalCause};
use af_request::{Reply, opcode};
use af_sample::{convert_in, gain_run};
use af_state::{Device, Play, ServedLink, SharedState, Work};
use af_time::DevTime;

/// What Play asks, as it came.
#[derive(Clone, Copy, Debug)]
pub struct NewPlay<'a> {
    pub quiet: bool,
    pub ac: u32,
    pub start: DevTime,
    pub bytes: &'a [u8],
}

/// A play whose context is found.
#[derive(Clone, Copy, Debug)]
pub struct ContextPlay<'a> {
    pub quiet: bool,
    pub context: Context,
    pub start: DevTime,
    pub bytes: &'a [u8],
}

// Refuses a play whose bytes are not whole frames.
fn play_refusal(context: &Context, channels: u8, bytes: usize) -> Option<Refusal>
    requires few { bytes ≤ longest_play }
    requires count { IsChannelCount channels }
    ensures { result ≡ play_refusal channels context.now bytes }
{
    check(
        bytes % context.ty.frame_bytes(channels) != 0,
        RefusalCause::BadValue,
        bytes as u32,
    )
}

// Fills the front of `samples` with what a client sends by a context, with the gain that the context has now.
fn read_sound(context: &Context, bytes: &[u8], samples: &mut [i16])
    requires few { length bytes.now ≤ length samples.old }
    requires whole { length bytes.now % width_of context.now.ty ≡ 0 }
    ensures { take (length bytes.now / width_of context.now.ty) samples.new ≡ sent_sound context.now bytes.now }
{
    let n = bytes.len() / context.ty.width();
    let sound = &mut samples[..n];
    convert_in(context.ty, bytes, sound);
    gain_run(sound, context.play_gain);
}

// Replies the device's time to a play, unless it is quiet.
fn tell_played(quiet: bool, time: DevTime, link: &mut ServedLink, message: &mut [u8])
    requires room { length link.old.pending ≤ event_limit }
    requires size { length message.old ≡ longest_message }
    ensures { link.new ≡ (if quiet then link.old else record link.old {
      pending = link.old.pending ++ reply_message link.old.order opcodes.play (played time.0) link.old.sequence;
    }) }
{
    if !quiet {
        link.reply(opcode::PLAY, &Reply::Played { time }, message);
    }
}

/// Its device accepts a play that ends within the horizon, and it is replied to.
pub fn accept(play: &Play<'_>, devices: &mut [Device], link: &mut ServedLink, message: &mut [u8])
    requires room { length link.old.pending ≤ event_limit }
    requires size { length message.old ≡ longest_message }
    requires few { length play.now.sound.now ≤ longest_play }
    requires there { play.now.device < length devices.old }
    requires can { OfDeviceAt devices.old play.now.device (λ d. CanComplete d (deferred_of_play play.now)) }
    ensures accepts { AcceptsPlay play.now devices.old link.old devices.new link.new }
    ensures completes { CompletesDeferred (deferred_of_play play.now) play.now.device devices.old link.old devices.new link.new }
    ensures rest { link.new.rest ≡ link.old.rest }
{
    let device = &mut devices[usize::from(play.device)];
    device.accept(play.start, play.sound, play.preempt);
    let time = device.time();
    tell_played(play.quiet, time, link, message);
}

// Accepts a play that ends within the horizon, and defers any other.
fn accept_or_defer(
    number: u8,
    play: &Play<'_>,
    shared: &mut SharedState,
    link: &mut ServedLink,
    message: &mut [u8],
)
    requires asks { MayAsk number shared.old link.old }
    requires size { length message.old ≡ longest_message }
    requires few { length play.now.sound.now ≤ longest_play }
    requires there { play.now.device < length shared.old.devices }
    requires whole { OfDeviceAt shared.old.devices play.now.device (λ d. AreWholeFrames d.next.channels play.now.sound.now) }
    ensures step { (c : Context) (bytes : List ℕ) → IsSoundOf play.now c bytes →
        StepsLinkFor c.device (start_play number play.now.quiet c play.now.start.0 bytes)
        shared.old link.old shared.new link.new }
    ensures leaves { Leaves number shared.old link.old shared.new link.new }
{
    let device = &shared.devices[usize::from(play.device)];
    let frames = (play.sound.len() / usize::from(device.channels())) as u32;
    if frames <= device.frames_within(play.start) {
        accept(play, &mut shared.devices, link, message);
    } else {
        let left = device.play_due_in(play.start, frames);
        shared.waits.begin_play(number, left, play);
    }
}

// Turns the bytes of a play into samples, by its context. Its device exists, and they are whole frames.
fn convert_play(
    number: u8,
    asked: &ContextPlay<'_>,
    shared: &mut SharedState,
    link: &mut ServedLink,
    work: &mut Work,
)
    requires asks { MayAsk number shared.old link.old }
    requires few { length asked.now.bytes.now ≤ longest_play }
    requires there { asked.now.context.device < length shared.old.devices }
    requires whole { OfDeviceAt shared.old.devices asked.now.context.device
        (λ d. WholeBytes asked.now.context.ty d.next.channels (length asked.now.bytes.now)) }
    ensures step { StepsLinkFor asked.now.context.device (start_play_of number asked.now)
        shared.old link.old shared.new link.new }
    ensures leaves { Leaves number shared.old link.old shared.new link.new }
{
    read_sound(&asked.context, asked.bytes, &mut work.samples);
    let n = asked.bytes.len() / asked.context.ty.width();
    let play = Play {
        device: asked.context.device,
        quiet: asked.quiet,
        start: asked.start,
        sound: &work.samples[..n],
        preempt: asked.context.preempt,
    };
    accept_or_defer(number, &play, shared, link, &mut work.message);
}

// Checks that the device of a play exists, and that its bytes are whole frames.
fn check_play(
    number: u8,
    asked: &ContextPlay<'_>,
    shared: &mut SharedState,
    link: &mut ServedLink,
    work: &mut Work,
)
    requires asks { MayAsk number shared.old link.old }
    requires few { length asked.now.bytes.now ≤ longest_play }
    ensures step { StepsLink (with_named_device opcodes.play asked.now.context.device (play_by_context number asked.now))
        shared.old link.old shared.new link.new }
    ensures leaves { Leaves number shared.old link.old shared.new link.new }
{
    if is_missing(asked.context.device, &shared.devices) {
        link.refuse(opcode::PLAY, no_device(asked.context.device));
        return;
    }
    let channels = shared.devices[usize::from(asked.context.device)].channels();
    match play_refusal(&asked.context, channels, asked.bytes.len()) {
        Some(refusal) => link.refuse(opcode::PLAY, refusal),
        None => convert_play(number, asked, shared, link, work),
    }
}

/// Play.
pub fn perform_play(
    number: u8,
    asked: &NewPlay<'_>,
    shared: &mut SharedState,
    link: &mut ServedLink,
    work: &mut Work,
)
    requires asks { MayAsk number shared.old link.old }
    requires few { length asked.now.bytes.now ≤ longest_play }
    ensures step { StepsLink (request_effect number (new_play asked.now)) shared.old link.old shared.new link.new }
    ensures leaves { Leaves number shared.old link.old shared.new link.new }
{
    match link.context(asked.ac) {
        Some(context) => {
            let asked = ContextPlay {
                quiet: asked.quiet,
                context,
                start: asked.start,
                bytes: asked.bytes,
            };
            check_play(number, &asked, shared, link, work);
        }
        None => link.refuse(opcode::PLAY, no_context(asked.ac)),
    }
}
