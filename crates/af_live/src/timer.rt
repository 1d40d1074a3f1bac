// The clock of the system, and what it showed.
ghost use Rattle.std.specs.Prelude.{◌≡◌, [], ◌∷◌};
ghost use Rattle.af_io.specs.Observed.{Appended};
ghost use Rattle.af_live.specs.Timer.{moment_of, nanos_of, no_answers, whole_millis, AsksOnce};

use crate::told_clock::ToldClock;
use std::marker::Model;
use std::time::Duration;

pub(crate) const NANOS_A_MILLISECOND: u64 = 1_000_000;

/// The clock of a runtime: how often it was asked, and what it showed last, if it could be read. The count stands still at
/// 2^64 - 1.
#[derive(Drop)]
pub(crate) struct Timer {
    asked: u64,
    shown: Option<Duration>,
}

impl Model for Timer {
    ghost use Rattle.af_live.specs.Timer.{TimerState, shown_nanos};

    ghost Value = { TimerState };

    ghost view = { λ t. record { asked = t.asked; shown = shown_nanos t.shown } };
}

impl Timer {
    /// The clock was not asked so far.
    pub fn new() -> Timer
        ensures { result ≡ no_answers }
    {
        Timer {
            asked: 0,
            shown: None,
        }
    }

    /// Asks this clock what it shows, in nanoseconds. None if it cannot be read, or shows five centuries.
    pub fn nanos<C: ToldClock>(&mut self, clock: &mut C) -> Option<u64>
        ensures asks { AsksOnce self.old result self.new }
        ensures told { Appended (C.answers clock.old) (result ∷ []) (C.answers clock.new) }
    {
        self.asked = self.asked.saturating_add(1);
        self.shown = clock.ask();
        nanos_of(self.shown?)
    }

    /// The moment by this clock, in nanoseconds: a reading of it, or zero if it cannot be read.
    pub fn moment<C: ToldClock>(&mut self, clock: &mut C) -> u64
        ensures moment { result ≡ moment_of self.new.shown }
        ensures asks { AsksOnce self.old self.new.shown self.new }
        ensures told { Appended (C.answers clock.old) (self.new.shown ∷ []) (C.answers clock.new) }
    {
        match self.nanos(clock) {
            Some(shown) => whole_millis(shown),
            None => 0,
        }
    }
}

/// What a clock shows, in nanoseconds, if these are fewer than 2^64.
fn nanos_of(shown: Duration) -> Option<u64>
    ensures { result ≡ nanos_of shown }
{
    u64::try_from(shown.as_nanos()).ok()
}

/// What a clock shows, rounded down to whole milliseconds: no frame ticks before its time, and a round that follows another
/// within the millisecond finds nothing due, and sleeps.
pub(crate) fn whole_millis(nanos: u64) -> u64
    ensures { result ≡ whole_millis nanos }
{
    nanos - nanos % NANOS_A_MILLISECOND
}
