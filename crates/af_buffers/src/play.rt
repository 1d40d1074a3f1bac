// The frames that a device is to play next.
// Layout: a ring (`time_ring.rt`). The sample of channel c at time t is in the cell of channels * t + c. Cells past the horizon
// are silent, so a time that goes on finds silence there.
ghost use Rattle.std.specs.Prelude.{◌≡◌, ◌≤◌, ◌*◌, ◌%◌, ◌^◌, length, IfOk, pos, replicate};
ghost use Rattle.af_limits.specs.Limits.{longest_tick, longest_play};
ghost use Rattle.af_ring.specs.Cells.{ClearsRun, IsRunAt};
ghost use Rattle.af_sample.specs.Channels.{AreWholeFrames, IsChannelCount, frame_count};
ghost use Rattle.af_buffers.specs.Horizons.{IsHorizon};
ghost use Rattle.af_buffers.specs.PlayBuffer.{accepted_by, frames_beyond, frames_within, ChangesCovered, EndsWithin, HandsOut, HoldsNext, OverlaysRun, Plays};

use crate::place::{Place, first_cell, place_of};
use crate::room::bits_for;
use af_ring::TimeRing;
use af_time::{DevTime, OutOfMemory};
use std::alloc::Global;
use std::marker::Model;

/// A device's time, and its frames from then on, each with one sample for each channel. They are in a ring: the sample of channel
/// c at time t is in the cell of channels * t + c. All other cells are silent.
#[derive(Drop)]
pub struct PlayBuffer {
    ring: TimeRing,
    time: DevTime,
    channels: u8,
    // How many frames are next. The code reads it only for the bound of a start: the ring is silent past the horizon.
    horizon: u32,
}

impl Model for PlayBuffer {
    ghost use Rattle.af_buffers.specs.PlayBuffer.{PlayWindow, next_of, IsRingOf};

    ghost Value = { PlayWindow };

    ghost view = { λ b. next_of b.ring b.time.0 b.channels b.horizon };

    ghost invariant = { λ b. IsRingOf b.ring b.time.0 b.channels b.horizon };
}

impl PlayBuffer {
    /// Silence from a time on, over a horizon of frames, four seconds at a listed rate, in one or two channels.
    pub fn new(
        alloc: Global,
        now: DevTime,
        horizon: u32,
        channels: u8,
    ) -> Result<PlayBuffer, OutOfMemory>
        requires horizon { IsHorizon horizon }
        requires channels { IsChannelCount channels }
        ensures time { IfOk result (λ b. b.time ≡ now.0) }
        ensures channels { IfOk result (λ b. b.channels ≡ channels) }
        ensures horizon { IfOk result (λ b. b.horizon ≡ horizon) }
        ensures next { IfOk result (λ b. b.next ≡ replicate (channels * horizon) (pos 0)) }
        ensures ring { IfOk result (λ b. b.ring ≡ replicate (length b.ring) (pos 0)) }
    {
        let ring = TimeRing::new(alloc, bits_for(u32::from(channels) * horizon))?;
        Ok(PlayBuffer {
            ring,
            time: now,
            channels,
            horizon,
        })
    }

    /// Its channels: one or two.
    pub fn channels(&self) -> u8
        ensures value { result ≡ self.now.channels }
        ensures count { IsChannelCount result }
    {
        self.channels
    }

    /// The time of the first of the next frames.
    pub fn now(&self) -> DevTime
        ensures { result.0 ≡ self.now.time }
    {
        self.time
    }

    /// How many frames lie from `start` to the end of the horizon. Those before now count too, and there are none if `start` is
    /// past that end.
    pub fn frames_within(&self, start: DevTime) -> u32
        ensures { result ≡ frames_within self.now start.0 }
    {
        match place_of(start, self.time) {
            Place::Before(late) => self.horizon + late,
            Place::Ahead(far) => self.horizon.saturating_sub(far),
        }
    }

    /// The sample periods until n frames from `start` end within the horizon: 0 if they do now.
    pub fn frames_beyond(&self, start: DevTime, frames: u32) -> u32
        requires { frames ≤ longest_play }
        ensures { result ≡ frames_beyond self.now start.0 frames }
    {
        match place_of(start, self.time) {
            Place::Before(_) => 0,
            Place::Ahead(far) => (far + frames).saturating_sub(self.horizon),
        }
    }

    /// The cells by time and channel: the next samples, and silence.
    pub fn ring(&self) -> &TimeRing
        ensures cells { result.now ≡ self.now.ring }
        ensures held { HoldsNext self.now }
    {
        &self.ring
    }

    /// Mixes frames from a time on into the next ones, each sum saturated, or puts them there. Frames for times before now are
    /// dropped. At most 16368 samples, which are whole frames and end within the horizon.
    pub fn play(&mut self, start: DevTime, samples: &[i16], preempt: bool)
        requires count { length samples.now ≤ longest_play }
        requires whole { AreWholeFrames self.old.channels samples.now }
        requires within { EndsWithin self.old start.0 (frame_count self.old.channels samples.now) }
        ensures next { Plays self.old self.new (accepted_by self.old start.0 samples.now preempt) }
        ensures ring { ChangesCovered self.old self.new (accepted_by self.old start.0 samples.now preempt) }
    {
        match place_of(start, self.time) {
            Place::Before(late) => {
                let past = late as usize * usize::from(self.channels);
                if past < samples.len() {
                    let cell = first_cell(self.time, self.channels);
                    overlay(&mut self.ring, cell, &samples[past..], preempt);
                }
            }
            Place::Ahead(_) => {
                let cell = first_cell(start, self.channels);
                overlay(&mut self.ring, cell, samples, preempt);
            }
        }
    }

    /// Gives the next frames, at most 4096, and moves now after them. The room is for whole frames.
    pub fn hand_out(&mut self, out: &mut [i16])
        requires count { frame_count self.old.channels out.old ≤ longest_tick }
        requires whole { AreWholeFrames self.old.channels out.old }
        ensures next { HandsOut self.old self.new out.new }
        ensures ring { ClearsRun self.old.ring self.new.ring (self.old.channels * self.old.time % 2 ^ 32) (length out.new) }
    {
        let cell = first_cell(self.time, self.channels);
        self.ring.read_run(cell, out);
        self.ring.clear_run(cell, out.len() as u32);
        let frames = out.len() / usize::from(self.channels);
        self.time = self.time.after(frames as u32);
    }
}

// Mixes samples into the cells from one on, or replaces those.
fn overlay(ring: &mut TimeRing, cell: DevTime, samples: &[i16], preempt: bool)
    requires { length samples.now ≤ length ring.old }
    ensures { OverlaysRun ring.old ring.new cell.0 samples.now preempt }
{
    if preempt {
        ring.put_run(cell, samples);
    } else {
        ring.mix_run(cell, samples);
    }
}
