// A clock that may tell all that it has answered.
ghost use Rattle.std.specs.Prelude.{◌≡◌, ℕ, false, List, [], ◌∷◌};
ghost use Rattle.std.specs.declared.option.Option.{Option};
ghost use Rattle.std.specs.declared.option.Option.TheVariants.{None};
ghost use Rattle.af_io.specs.Observed.{Appended};
ghost use Rattle.af_live.specs.Timer.{answers_of, shown_nanos, ClockOfReadings};

use std::marker::Model;
use std::time::{Clock, Duration};

/// A clock. Contracts see all that it has answered, in nanoseconds, where it tells that.
pub trait ToldClock {
    ghost answers: { Self → Option (List (Option ℕ)) };

    /// Asks it what it shows. None if it cannot be read.
    fn ask(&mut self) -> Option<Duration>
        ensures { Appended (answers self.old) (shown_nanos result ∷ []) (answers self.new) };
}

/// The clock of a runtime. It tells nothing of its answers.
impl<C: Clock> ToldClock for C {
    ghost answers = { λ _. None };

    fn ask(&mut self) -> Option<Duration> {
        self.monotonic().ok()
    }
}

/// A clock in memory. It shows these times, one each time that it is asked, and cannot be read where None is listed. It tells its
/// answers up to the last of them; after that it cannot be read.
#[derive(Drop)]
pub struct MemClock<'a> {
    readings: &'a [Option<Duration>],
    asked: usize,
    is_over: bool,
}

impl<'a> Model for MemClock<'a> {
    ghost use Rattle.std.specs.Prelude.{◌≤◌, length};
    ghost use Rattle.af_live.specs.Timer.{ClockOfReadings};

    ghost Value = { ClockOfReadings };

    ghost view = { λ c. record { readings = c.readings.now; asked = c.asked; is_over = c.is_over } };

    ghost invariant = { λ c. c.asked ≤ length c.readings.now };
}

impl<'a> MemClock<'a> {
    /// A clock that was not asked so far.
    pub fn new(readings: &'a [Option<Duration>]) -> MemClock<'a>
        ensures { result ≡ record { readings = readings.now; asked = 0; is_over = false } }
    {
        MemClock {
            readings,
            asked: 0,
            is_over: false,
        }
    }
}

impl ToldClock for MemClock<'_> {
    ghost answers = { answers_of };

    fn ask(&mut self) -> Option<Duration> {
        match self.readings.get(self.asked) {
            Some(shown) => {
                self.asked += 1;
                *shown
            }
            None => {
                self.is_over = true;
                None
            }
        }
    }
}
