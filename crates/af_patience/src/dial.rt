// A dial that is tried again while it is refused.
ghost use Rattle.std.specs.declared.option.Option.TheVariants.{None};
ghost use Rattle.af_patience.specs.Tried.{Tried};

use crate::network::NetFaults;
use af_io::{Dial, Dialed};
use std::cell::Cell;
use std::rc::Rc;
use std::thread;
use std::time::{Clock, Duration};

/// How many milliseconds pass between two tries.
const PAUSE_MILLIS: u64 = 100;

/// For how many seconds a server is waited for before that is told.
const QUIET_SECONDS: u64 = 2;

/// How often a dial is tried again at most: ten times a second, for the most seconds that a server is waited for.
const MOST_TRIES: u32 = 36000;

/// A dial over another. While a server refuses the connection, it is tried again, ten times a second, for a time that begins
/// again with each dial. Whatever else comes of a try ends the dial at once. If it tells, a line on standard error says after two
/// seconds what is waited for.
///
/// The addresses of its tries are not observed, since one dial may be many of them.
#[derive(Drop)]
pub struct PatientDial<D: Dial + Drop, T: Clock + Eprint + Drop> {
    dial: D,
    rt: T,
    faults: Rc<NetFaults>,
    limit: Duration,
    tells: Cell<bool>,
}

impl<D: Dial + Drop, T: Clock + Eprint + Drop> PatientDial<D, T> {
    /// A dial over this one, which waits for so many seconds by this clock. Of a try that failed, `faults` has whether it was
    /// refused.
    pub fn new(
        dial: D,
        rt: T,
        faults: Rc<NetFaults>,
        seconds: u32,
        tells: bool,
    ) -> PatientDial<D, T> {
        PatientDial {
            dial,
            rt,
            faults,
            limit: Duration::from_secs(u64::from(seconds)),
            tells: Cell::new(tells),
        }
    }

    /// The dial below it.
    pub fn dial(&self) -> &D {
        &self.dial
    }

    /// What its connections met.
    pub fn faults(&self) -> &NetFaults {
        &self.faults
    }

    // Waits a little before another try. It says no if the last one was not refused, or if the time is over. It is if the clock
    // cannot be read.
    fn waits(&self, begun: Option<Duration>) -> bool {
        let Some(address) = self.faults.refused() else {
            return false;
        };
        let (Some(begun), Ok(now)) = (begun, self.rt.monotonic()) else {
            return false;
        };
        let waited = now.saturating_sub(begun);
        if waited >= self.limit {
            return false;
        }
        if self.tells.get() && waited >= Duration::from_secs(QUIET_SECONDS) {
            self.tells.set(false);
            let _ = eprintln!(&self.rt; "af: waiting for {address}, where nobody listens yet");
        }
        thread::sleep(&self.rt, Duration::from_millis(PAUSE_MILLIS));
        true
    }
}

impl<D: Dial + Drop, T: Clock + Eprint + Drop> Dial for PatientDial<D, T> {
    type Far = D::Far;

    ghost faults = { λ patient. D.faults patient.dial };

    ghost hurt = { λ patient. D.hurt patient.dial };

    ghost asked = { λ _. None };

    ghost back = { λ patient. D.back patient.dial };

    ghost links = { λ patient. D.links patient.dial };

    ghost dials = { λ before address answer after. Tried D.dials address answer before.dial after.dial };

    ghost hangs_up = { λ before far after. D.hangs_up before.dial far after.dial };

    fn dial(&mut self, address: &str) -> Dialed<D::Far> {
        let begun = self.rt.monotonic().ok();
        let mut answer = self.dial.dial(address);
        for _ in 0..MOST_TRIES {
            if !matches!(answer, Dialed::Failed) || !self.waits(begun) {
                break;
            }
            answer = self.dial.dial(address);
        }
        answer
    }

    fn hang_up(&mut self, far: D::Far) {
        self.dial.hang_up(far);
    }
}
