// A moment until which another program is waited for, in short steps.
use std::time::{Clock, Duration};
use std::{io, thread};

/// How many milliseconds pass between two looks at what another program did.
const PAUSE_MILLIS: u64 = 1;

/// How often at most another program is looked at. The deadline is over long before that.
pub(crate) const MOST_LOOKS: u32 = 1000;

/// A moment of a clock.
#[derive(Drop)]
pub(crate) struct Deadline<'a, C> {
    clock: &'a C,
    begun: Duration,
    limit: Duration,
}

impl<'a, C: Clock> Deadline<'a, C> {
    /// So much time from now on.
    pub(crate) fn after(clock: &'a C, limit: Duration) -> io::Result<Deadline<'a, C>> {
        Ok(Deadline {
            clock,
            begun: clock.monotonic()?,
            limit,
        })
    }

    /// Waits a little, or says that the moment has passed. It has if the clock cannot be read.
    pub(crate) fn wait(&self) -> bool {
        match self.clock.monotonic() {
            Ok(now) if now.saturating_sub(self.begun) < self.limit => {
                thread::sleep(self.clock, Duration::from_millis(PAUSE_MILLIS));
                true
            }
            _ => false,
        }
    }
}
