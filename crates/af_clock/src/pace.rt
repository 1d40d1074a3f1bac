// How many frames of a device are due, by readings of the system's clock.
ghost use Rattle.std.specs.Prelude.{◌≡◌, ◌≤◌, ◌-◌, ◌*◌, ◌/◌, min, nat_lt};
ghost use Rattle.af_limits.specs.Limits.{longest_tick};
ghost use Rattle.af_clock.specs.Pacing.{new_pace, pace_within, due_at, after_due};

use af_limits::LONGEST_TICK;
use std::marker::Model;

const NANOS_A_SECOND: u128 = 1_000_000_000;

/// The pace of a device: how many of its frames have been due since a clock was read first.
#[derive(Drop)]
pub struct Pace {
    rate: u32,
    // how many frames are due at once at most
    most: u32,
    first: Option<u64>,
    answered: u128,
}

impl Model for Pace {
    ghost use Rattle.std.specs.Prelude.{◌<◌, ◌≤◌, ◌^◌};
    ghost use Rattle.af_limits.specs.Limits.{longest_tick};
    ghost use Rattle.af_clock.specs.Pacing.{PaceState};

    ghost Value = { PaceState };

    ghost view = { λ p. record { rate = p.rate; most = p.most; first = p.first; answered = p.answered } };

    ghost invariant = { λ p. (p.answered < 2 ^ 96) × (p.most ≤ longest_tick) };
}

impl Pace {
    /// The pace of n frames a second. None was due yet.
    pub fn new(rate: u32) -> Pace
        ensures { result ≡ new_pace rate }
    {
        Pace::within(LONGEST_TICK, rate)
    }

    /// The pace of n frames a second, of which so many are due at once at most. None was due yet.
    pub fn within(most: u32, rate: u32) -> Pace
        ensures { result ≡ pace_within most rate }
    {
        Pace {
            rate,
            most: most.min(LONGEST_TICK),
            first: None,
            answered: 0,
        }
    }

    /// The frames that are due at this reading of the clock, in nanoseconds, and were not answered yet: at most 4096, or the
    /// fewer that were stated, and the others at later readings. The first reading is where the time begins. A reading before
    /// it counts as the first.
    pub fn due(&mut self, nanos: u64) -> u32
        ensures value { result ≡ due_at self.old nanos }
        ensures later { self.new ≡ after_due self.old nanos }
        ensures most { result ≤ longest_tick }
    {
        let first = *self.first.get_or_insert(nanos);
        let due = frames_since(first, nanos, self.rate, self.answered, self.most);
        self.answered += u128::from(due);
        due
    }

    /// Whether frames are due at this reading of the clock that were not answered yet.
    pub fn is_due(&self, nanos: u64) -> bool
        ensures { result ≡ nat_lt 0 (due_at self.now nanos) }
    {
        let first = self.first.unwrap_or(nanos);
        frames_since(first, nanos, self.rate, self.answered, self.most) > 0
    }
}

/// The frames that have gone by between two readings of the clock and were not answered, at most so many.
fn frames_since(first: u64, nanos: u64, rate: u32, answered: u128, most: u32) -> u32
    ensures value { result ≡ min ((nanos - first) * rate / 1000000000 - answered) most }
    ensures most { result ≤ most }
{
    let elapsed = u128::from(nanos.saturating_sub(first));
    let gone_by = elapsed * u128::from(rate) / NANOS_A_SECOND;
    gone_by.saturating_sub(answered).min(u128::from(most)) as u32
}
