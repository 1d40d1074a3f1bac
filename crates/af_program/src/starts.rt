// How often programs were started, and when the next start may come.
ghost use Rattle.std.specs.Prelude.{◌≡◌, ◌≤◌, ◌<◌, ◌+◌, ◌-◌, ◌^◌};
ghost use Rattle.af_program.specs.Waits.{longest_wait, no_starts, is_left, may_come, next_start, begun_once_more, after_end};

/// The shortest wait for a start, and the longest, in nanoseconds.
const SHORTEST_WAIT: u64 = 1_000_000_000;

const LONGEST_WAIT: u64 = 60_000_000_000;

/// A program that lived for less than this makes the next wait longer.
const SHORT_LIFE: u64 = 10_000_000_000;

/// How many starts there may be beyond the first; how many were tried; the wait after the latest that has ended; and the moment
/// from which on the next may come, if there is one. Moments and waits are in nanoseconds.
#[derive(Clone, Copy)]
pub struct Starts {
    pub restarts: u32,
    pub tried: u32,
    pub wait: u64,
    pub next: Option<u64>,
}

impl Starts {
    /// None was tried, and the first may come at once.
    pub fn none(restarts: u32) -> Starts
        ensures { result ≡ no_starts restarts }
    {
        Starts {
            restarts,
            tried: 0,
            wait: 0,
            next: Some(0),
        }
    }

    /// Whether a start is left.
    pub fn is_left(&self) -> bool
        ensures { result ≡ is_left self.now }
    {
        self.tried <= self.restarts && self.next.is_some()
    }

    /// How many starts are left. There are fewer than 2^32 - 1 restarts.
    pub fn left(&self) -> u32
        requires bound { self.now.restarts + 1 < 2 ^ 32 }
        ensures { result ≡ self.now.restarts + 1 - self.now.tried }
    {
        (self.restarts + 1).saturating_sub(self.tried)
    }

    /// From which moment on the next start may come, if one is left.
    pub fn next_start(&self) -> Option<u64>
        ensures { result ≡ next_start self.now }
    {
        if self.is_left() { self.next } else { None }
    }

    /// Whether a start may come now.
    pub fn may_come(&self, at: u64) -> bool
        ensures { result ≡ may_come self.now at }
    {
        match self.next {
            Some(next) => self.tried <= self.restarts && next <= at,
            None => false,
        }
    }

    /// A start is tried. One is left, and there are fewer than 2^32 - 1 restarts.
    pub fn begin(&mut self)
        requires left { self.old.tried ≤ self.old.restarts }
        requires bound { self.old.restarts + 1 < 2 ^ 32 }
        ensures begun { self.new ≡ begun_once_more self.old }
        ensures same { (self.new.restarts ≡ self.old.restarts) × (self.new.wait ≡ self.old.wait) }
    {
        self.tried += 1;
    }

    /// The program that was started at a moment has ended at another. Where the wait after that goes past 2^64 - 1, no start is
    /// left.
    pub fn end(&mut self, began: u64, ended: u64)
        requires { self.old.wait ≤ longest_wait }
        ensures ended { self.new ≡ after_end self.old began ended }
        ensures wait { self.new.wait ≤ longest_wait }
        ensures same { self.new.restarts ≡ self.old.restarts }
    {
        let life = ended.saturating_sub(began);
        self.wait = if self.tried > 1 && life < SHORT_LIFE {
            (2 * self.wait).min(LONGEST_WAIT)
        } else {
            SHORTEST_WAIT
        };
        self.next = ended.checked_add(self.wait);
    }
}
