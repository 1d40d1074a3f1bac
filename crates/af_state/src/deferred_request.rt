// A deferred request, with room for the samples of a play that is taken once.
ghost use Rattle.std.specs.Prelude.{◌≡◌, ◌≤◌, length};
ghost use Rattle.af_limits.specs.Limits.{longest_play};
ghost use Rattle.af_state.specs.Deferred.{deferred_as, deferred_of_play, deferred_of_record};

use af_context::Context;
use af_limits::LONGEST_PLAY;
use af_time::{DevTime, OutOfMemory};
use std::alloc::Global;
use std::marker::Model;

/// A play for a device from a time on, with its sound. One that is quiet is not replied to.
#[derive(Clone, Copy, Debug)]
pub struct Play<'a> {
    pub device: u8,
    pub quiet: bool,
    pub start: DevTime,
    pub sound: &'a [i16],
    pub preempt: bool,
}

/// A record by a context of n frames from a time on. One that blocks waits until all of them are there.
#[derive(Clone, Copy, Debug, PartialEq, Eq)]
pub struct Record {
    pub blocking: bool,
    pub context: Context,
    pub start: DevTime,
    pub frames: u32,
}

/// What a request will do.
#[derive(Clone, Copy, Debug, PartialEq, Eq)]
pub enum DeferredWork {
    Play { quiet: bool, preempt: bool },
    Record { context: Context, frames: u32 },
}

#[derive(Drop)]
pub struct DeferredRequest {
    what: DeferredWork,
    start: DevTime,
    // the sound of a play
    sound: Vec<i16>,
}

impl Model for DeferredRequest {
    ghost use Rattle.std.specs.Prelude.{◌≤◌, vec_capacity, vec_len};
    ghost use Rattle.af_model.specs.State.{Deferred};
    ghost use Rattle.af_state.specs.Deferred.{deferred_as};
    ghost use Rattle.af_limits.specs.Limits.{longest_play};

    ghost Value = { Deferred };

    ghost view = { λ a. deferred_as a.what a.start.0 a.sound.items };

    ghost invariant = { λ a. (vec_len a.sound ≤ longest_play) × (longest_play ≤ vec_capacity a.sound) };
}

impl DeferredRequest {
    pub fn new(alloc: Global) -> Result<DeferredRequest, OutOfMemory> {
        let sound = Vec::with_capacity(alloc, LONGEST_PLAY)?;
        Ok(DeferredRequest {
            what: DeferredWork::Play {
                quiet: false,
                preempt: false,
            },
            start: DevTime(0),
            sound,
        })
    }

    /// Holds a play of at most 16368 samples.
    pub fn defer_play(&mut self, play: &Play<'_>)
        requires { length play.now.sound.now ≤ longest_play }
        ensures { self.new ≡ deferred_of_play play.now }
    {
        self.sound.clear();
        let _ = self.sound.extend_from_slice(play.sound);
        self.what = DeferredWork::Play {
            quiet: play.quiet,
            preempt: play.preempt,
        };
        self.start = play.start;
    }

    /// Holds a record.
    pub fn defer_record(&mut self, asked: Record)
        ensures { self.new ≡ deferred_of_record asked }
    {
        self.what = DeferredWork::Record {
            context: asked.context,
            frames: asked.frames,
        };
        self.start = asked.start;
    }

    /// What it will do, from which time on, and the sound of a play.
    pub fn parts(&self) -> (DeferredWork, DevTime, &[i16])
        ensures deferred { self.now ≡ deferred_as result.0 result.1.0 result.2.now }
        ensures few { length result.2.now ≤ longest_play }
    {
        (self.what, self.start, &self.sound)
    }
}
