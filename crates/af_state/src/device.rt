// A device, as the core keeps it.
ghost use Rattle.std.specs.Prelude.{◌≡◌, ℕ, ◌*◌, ◌≤◌, length, IfOk, MatchOption, true};
ghost use Rattle.af_limits.specs.Limits.{longest_tick, longest_play, longest_record};
ghost use Rattle.af_time.specs.DeviceTime.{unwrap};
ghost use Rattle.af_sample.specs.SampleTypes.{width_of};
ghost use Rattle.af_sample.specs.Channels.{AreWholeFrames, IsChannelCount, frame_count};
ghost use Rattle.af_sample.specs.Rates.{IsListedRate};
ghost use Rattle.af_buffers.specs.PlayBuffer.{accepted_at, frames_beyond as play_beyond, frames_within};
ghost use Rattle.af_buffers.specs.RecordBuffer.{frames_before, frames_until_past as record_beyond};
ghost use Rattle.af_model.specs.State.{DeviceState, opening_controls, opening_device, opening_line};
ghost use Rattle.af_model.specs.Play.{accept_play};
ghost use Rattle.af_model.specs.Record.{recorded_bytes};
ghost use Rattle.af_model.specs.Controls.{through_output_control};
ghost use Rattle.af_model.specs.Tick.{device_after, next_sound};
ghost use Rattle.af_state.specs.Kept.{StandsForDevice, kept_info};

use crate::level::level;
use af_buffers::{PlayBuffer, RecordBuffer};
use af_context::Context;
use af_phone::Line;
use af_request::{Controls, DeviceInfo};
use af_sample::{Gain, SampleType, convert_out, gain_run};
use af_time::{DevTime, OutOfMemory};
use af_world::DeviceSpec;
use std::alloc::Global;
use std::marker::Model;

#[derive(Drop)]
pub struct Device {
    ty: SampleType,
    rate: u32,
    next: PlayBuffer,
    last: RecordBuffer,
    controls: Controls,
    line: Option<Line>,
    // a capture or an emit has failed
    is_dead: bool,
}

impl Model for Device {
    ghost use Rattle.std.specs.Prelude.{◌≡◌, length};
    ghost use Rattle.af_sample.specs.Rates.{IsListedRate};
    ghost use Rattle.af_state.specs.Kept.{KeptDevice};

    ghost Value = { KeptDevice };

    ghost view = { λ d.
        record {
          ty = d.ty;
          rate = d.rate;
          next = d.next;
          last = d.last;
          controls = d.controls;
          line = d.line;
          is_dead = d.is_dead;
        } };

    ghost invariant = { λ d. IsListedRate d.rate × (d.last.channels ≡ d.next.channels) };
}

// Input and output are on, and both gains 0.
fn opening_controls() -> Controls
    ensures { result ≡ opening_controls }
{
    Controls {
        input_on: true,
        output_on: true,
        input_gain: Gain::default(),
        output_gain: Gain::default(),
    }
}

// The line of a device that has one is quiet.
fn opening_line(has_line: bool) -> Option<Line>
    ensures { result ≡ opening_line has_line }
{
    if has_line { Some(Line::new()) } else { None }
}

impl Device {
    /// A device at its start, with silence before and after it.
    pub fn new(alloc: Global, spec: DeviceSpec) -> Result<Device, OutOfMemory>
        requires rate { IsListedRate spec.rate }
        requires channels { IsChannelCount spec.channels }
        ensures { IfOk result (λ d. StandsForDevice d (opening_device spec)) }
    {
        let start = DevTime(spec.start);
        let horizon = spec.rate * 4;
        let next = PlayBuffer::new(alloc, start, horizon, spec.channels)?;
        let last = RecordBuffer::new(alloc, start, horizon, spec.channels)?;
        Ok(Device {
            ty: spec.ty,
            rate: spec.rate,
            next,
            last,
            controls: opening_controls(),
            line: opening_line(spec.line),
            is_dead: false,
        })
    }

    pub fn ty(&self) -> SampleType
        ensures { result ≡ self.now.ty }
    {
        self.ty
    }

    /// Its channels: one or two.
    pub fn channels(&self) -> u8
        ensures value { result ≡ self.now.next.channels }
        ensures count { IsChannelCount result }
    {
        self.next.channels()
    }

    pub fn time(&self) -> DevTime
        ensures { result.0 ≡ self.now.next.time }
    {
        self.next.now()
    }

    pub fn is_dead(&self) -> bool
        ensures { result ≡ self.now.is_dead }
    {
        self.is_dead
    }

    /// What the reply to a setup says of it.
    pub fn info(&self) -> DeviceInfo
        ensures { result ≡ kept_info self.now }
    {
        DeviceInfo {
            ty: self.ty,
            channels: self.channels(),
            line: self.line.is_some(),
            rate: self.rate,
            horizon: self.rate * 4,
        }
    }

    pub fn next(&self) -> &PlayBuffer
        ensures { result.now ≡ self.now.next }
    {
        &self.next
    }

    pub fn last(&self) -> &RecordBuffer
        ensures { result.now ≡ self.now.last }
    {
        &self.last
    }

    /// How many frames from a time on end within the horizon.
    pub fn frames_within(&self, start: DevTime) -> u32
        ensures { result ≡ frames_within self.now.next start.0 }
    {
        self.next.frames_within(start)
    }

    /// How many frames from a time on are before now.
    pub fn frames_before(&self, start: DevTime) -> u32
        ensures { result ≡ frames_before self.now.last start.0 }
    {
        self.last.frames_before(start)
    }

    /// How many sample periods go by until n frames from a time on, at most 16368, end within the horizon.
    pub fn play_due_in(&self, start: DevTime, frames: u32) -> u32
        requires { frames ≤ longest_play }
        ensures { result ≡ play_beyond self.now.next start.0 frames }
    {
        self.next.frames_beyond(start, frames)
    }

    /// How many sample periods go by until n frames from a time on, at most 16000, are before now.
    pub fn record_due_in(&self, start: DevTime, frames: u32) -> u32
        requires { frames ≤ longest_record }
        ensures { result ≡ record_beyond self.now.last start.0 frames }
    {
        self.last.frames_beyond(start, frames)
    }

    /// Accepts a play, whose samples are whole frames and end within the horizon.
    pub fn accept(&mut self, start: DevTime, sound: &[i16], preempt: bool)
        requires few { length sound.now ≤ longest_play }
        requires whole { AreWholeFrames self.old.next.channels sound.now }
        requires within { frame_count self.old.next.channels sound.now ≤ frames_within self.old.next start.0 }
        ensures { (k : ℕ) (s : DeviceState) → StandsForDevice self.old s →
            StandsForDevice self.new (accept_play k (accepted_at s.now start.0 sound.now preempt) s) }
    {
        if sound.is_empty() {
            return;
        }
        self.next.play(start, sound, preempt);
    }

    /// The frames that were recorded from a time on, as a context takes them.
    pub fn record(&self, context: &Context, start: DevTime, samples: &mut [i16], bytes: &mut [u8])
        requires count { length bytes.old ≡ length samples.old * width_of context.now.ty }
        requires few { length samples.old ≤ longest_record }
        requires whole { AreWholeFrames self.now.next.channels samples.old }
        ensures { (s : DeviceState) → StandsForDevice self.now s →
            bytes.new ≡ recorded_bytes context.now s (unwrap s.now start.0) (frame_count s.channels samples.old) }
    {
        self.last.read(start, samples);
        gain_run(samples, context.record_gain);
        convert_out(context.ty, samples, bytes);
    }

    /// As many sample periods go by as frames came. These go through the input control and are kept, and the next ones are handed
    /// out through the output control.
    pub fn pass(&mut self, captured: &mut [i16], sound: &mut [i16])
        requires same { length sound.old ≡ length captured.old }
        requires few { frame_count self.old.next.channels captured.old ≤ longest_tick }
        requires whole { AreWholeFrames self.old.next.channels captured.old }
        ensures stands { (s : DeviceState) → StandsForDevice self.old s →
            StandsForDevice self.new (device_after (frame_count s.channels captured.old) captured.old s.is_dead s) }
        ensures sound { (s : DeviceState) → StandsForDevice self.old s →
            sound.new ≡ through_output_control s.controls (next_sound s (frame_count s.channels captured.old)) }
    {
        level(self.controls.input_on, self.controls.input_gain, captured);
        self.last.capture(captured);
        self.next.hand_out(sound);
        level(self.controls.output_on, self.controls.output_gain, sound);
    }

    pub fn controls(&self) -> Controls
        ensures { result ≡ self.now.controls }
    {
        self.controls
    }

    pub fn set_controls(&mut self, controls: Controls)
        ensures { self.new ≡ record self.old { controls = controls } }
    {
        self.controls = controls;
    }

    /// Its telephone line, if it has one.
    pub fn line(&self) -> Option<Line>
        ensures { result ≡ self.now.line }
    {
        self.line
    }

    /// The telephone line that it keeps, if it has one.
    pub fn kept_line(&self) -> Option<&Line>
        ensures { MatchOption result (self.now.line ≡ None) (λ line. self.now.line ≡ Some line.now) }
    {
        self.line.as_ref()
    }

    /// Its line, if it has one, becomes another.
    pub fn set_line(&mut self, line: Option<Line>)
        ensures { self.new ≡ record self.old { line = line } }
    {
        self.line = line;
    }

    /// A capture or an emit has failed.
    pub fn set_dead(&mut self)
        ensures { self.new ≡ record self.old { is_dead = true } }
    {
        self.is_dead = true;
    }
}
