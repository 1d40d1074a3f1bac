// The frames that a device captured last.
// Layout: a ring (`time_ring.rt`). The sample of channel c at time t is in the cell of channels * t + c.
ghost use Rattle.std.specs.Prelude.{◌≡◌, ◌≤◌, ◌*◌, ◌%◌, ◌^◌, length, IfOk, pos, replicate};
ghost use Rattle.af_limits.specs.Limits.{longest_tick, longest_record};
ghost use Rattle.af_ring.specs.Cells.{PutsRun};
ghost use Rattle.af_sample.specs.Channels.{AreWholeFrames, IsChannelCount, frame_count};
ghost use Rattle.af_buffers.specs.Horizons.{IsHorizon};
ghost use Rattle.af_buffers.specs.RecordBuffer.{frames_before, frames_until_past, Captures, HoldsLast, samples_from};

use crate::place::{Place, first_cell, place_of};
use crate::room::bits_for;
use af_ring::TimeRing;
use af_time::{DevTime, OutOfMemory};
use std::alloc::Global;
use std::marker::Model;

/// A device's time, and its frames up to then, each with one sample for each channel. They are in a ring: the sample of channel c
/// at time t is in the cell of channels * t + c.
#[derive(Drop)]
pub struct RecordBuffer {
    ring: TimeRing,
    time: DevTime,
    channels: u8,
    horizon: u32,
}

impl Model for RecordBuffer {
    ghost use Rattle.af_buffers.specs.RecordBuffer.{RecordWindow, last_of, IsRoomOf};

    ghost Value = { RecordWindow };

    ghost view = { λ b. last_of b.ring b.time.0 b.channels b.horizon };

    ghost invariant = { λ b. IsRoomOf b.ring b.channels b.horizon };
}

impl RecordBuffer {
    /// Silence up to a time, over a horizon of frames, four seconds at a listed rate, in one or two channels.
    pub fn new(
        alloc: Global,
        now: DevTime,
        horizon: u32,
        channels: u8,
    ) -> Result<RecordBuffer, OutOfMemory>
        requires horizon { IsHorizon horizon }
        requires channels { IsChannelCount channels }
        ensures time { IfOk result (λ b. b.time ≡ now.0) }
        ensures channels { IfOk result (λ b. b.channels ≡ channels) }
        ensures horizon { IfOk result (λ b. b.horizon ≡ horizon) }
        ensures last { IfOk result (λ b. b.last ≡ replicate (channels * horizon) (pos 0)) }
        ensures ring { IfOk result (λ b. b.ring ≡ replicate (length b.ring) (pos 0)) }
    {
        let ring = TimeRing::new(alloc, bits_for(u32::from(channels) * horizon))?;
        Ok(RecordBuffer {
            ring,
            time: now,
            channels,
            horizon,
        })
    }

    /// The cells by time and channel: among them the last samples.
    pub fn ring(&self) -> &TimeRing
        ensures cells { result.now ≡ self.now.ring }
        ensures held { HoldsLast self.now }
    {
        &self.ring
    }

    /// How many frames from a time on are before the buffer's time: none from a later one.
    pub fn frames_before(&self, start: DevTime) -> u32
        ensures { result ≡ frames_before self.now start.0 }
    {
        match place_of(start, self.time) {
            Place::Before(frames) => frames,
            Place::Ahead(_) => 0,
        }
    }

    /// How many sample periods go by until n frames from a time on, at most 16000, are before
    /// the buffer's time: none where they are.
    pub fn frames_beyond(&self, start: DevTime, frames: u32) -> u32
        requires { frames ≤ longest_record }
        ensures { result ≡ frames_until_past self.now start.0 frames }
    {
        match place_of(start, self.time) {
            Place::Before(late) => frames.saturating_sub(late),
            Place::Ahead(far) => far + frames,
        }
    }

    /// Appends frames, at most 4096, and moves the time after them.
    pub fn capture(&mut self, samples: &[i16])
        requires count { frame_count self.old.channels samples.now ≤ longest_tick }
        requires whole { AreWholeFrames self.old.channels samples.now }
        ensures last { Captures self.old self.new samples.now }
        ensures ring { PutsRun self.old.ring self.new.ring (self.old.channels * self.old.time % 2 ^ 32) samples.now }
    {
        let cell = first_cell(self.time, self.channels);
        self.ring.put_run(cell, samples);
        let frames = samples.len() / usize::from(self.channels);
        self.time = self.time.after(frames as u32);
    }

    /// Reads the frames from a time on, at most 16000 samples: silence further back than the horizon, and
    /// from now on. The room is for whole frames.
    pub fn read(&self, start: DevTime, out: &mut [i16])
        requires count { length out.old ≤ longest_record }
        requires whole { AreWholeFrames self.now.channels out.old }
        ensures { out.new ≡ samples_from self.now start.0 (frame_count self.now.channels out.new) }
    {
        // the frames among them that are still kept are at begin..end
        let channels = usize::from(self.channels);
        let before = self.frames_before(start) as usize;
        let end = (out.len() / channels).min(before);
        let begin = end.min(before.saturating_sub(self.horizon as usize));
        let (before_now, from_now) = out.split_at_mut(end * channels);
        let (further_back, kept) = before_now.split_at_mut(begin * channels);
        further_back.fill(0);
        self.ring
            .read_run(first_cell(start.after(begin as u32), self.channels), kept);
        from_now.fill(0);
    }
}
