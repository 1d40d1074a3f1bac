//! Laws of how far a device ticks, each the contract of a function that does nothing.
ghost use Rattle.std.specs.Prelude.{◌≤◌, ◌<◌, ℕ, Option, Some, length};
ghost use Rattle.af_world.specs.declared.live.Kind.TheVariants.{Loop};
ghost use Rattle.af_loop.specs.DelayLine.{delay_frames};
ghost use Rattle.af_backend.specs.Rounds.{RoundState, round_with, source_at, GoesOn, TicksWithin};
ghost use Rattle.af_backend.specs.Backends.{source_of};

/// A device that hears itself ticks by at most as many frames as its sound is late, from its attach on and in all rounds.
pub fn a_loop_ticks_within_its_delay()
    ensures attached { (round : RoundState) (device rate : ℕ) → device < length round.sources →
        TicksWithin (delay_frames rate) (source_at (round_with round device (source_of Loop rate)) device) }
    ensures stays { (nanos most device : ℕ) (before after : RoundState) (found : Option (ℕ × ℕ)) →
        GoesOn nanos before found after → TicksWithin most (source_at before device) →
        TicksWithin most (source_at after device) }
    ensures ticks { (nanos most device frames : ℕ) (before after : RoundState) →
        GoesOn nanos before (Some (device, frames)) after → TicksWithin most (source_at before device) → frames ≤ most }
{}
