// What is known of the numbers of links, so that a turn does not look at each of them.
ghost use Rattle.std.specs.Prelude.{◌≡◌, ◌≤◌, false, true, length, List};
ghost use Rattle.af_limits.specs.Limits.{most_links};
ghost use Rattle.af_state.specs.Deferrals.{KeptDeferral};
ghost use Rattle.af_core.specs.Stands.{AreBounds, AreExact, NoneOpenFrom, bounds_after, bounds_of_all, bounds_of_none, bounds_with};

use crate::slot::{Slot, first_wanting, last_wanting, open_end};
use af_limits::MOST_LINKS;
use af_state::DeferredRequests;
use af_world::Wake;

/// All links that are open are below a number, and all that are to be read, written or closed are between two: the first has
/// `wants_from` or is above it, and the last is below `wants_below`.
#[derive(Clone, Copy)]
pub struct WantingSpan {
    pub open_below: usize,
    pub wants_from: usize,
    pub wants_below: usize,
}

/// No link is open.
pub const NO_LINKS: WantingSpan = WantingSpan {
    open_below: 0,
    wants_from: MOST_LINKS,
    wants_below: 0,
};

impl WantingSpan {
    /// The same, where no link wants anything.
    pub fn with_none_wanting(self) -> WantingSpan
        ensures { result ≡ bounds_of_none self }
    {
        WantingSpan {
            open_below: self.open_below,
            ..NO_LINKS
        }
    }

    /// One more link may want something.
    pub fn include(&mut self, number: u8)
        ensures { self.new ≡ bounds_with number self.old }
    {
        let number = usize::from(number);
        self.wants_from = self.wants_from.min(number);
        self.wants_below = self.wants_below.max(number + 1);
    }

    /// Any link that is open may want something.
    pub fn include_all(&mut self, slots: &[Slot])
        requires most { self.old.open_below ≤ length slots.now }
        requires none_open { NoneOpenFrom self.old.open_below slots.now }
        ensures bound { self.new.open_below ≤ self.old.open_below }
        ensures none_open { NoneOpenFrom self.new.open_below slots.now }
        ensures all { self.new ≡ bounds_of_all (record self.old { open_below = self.new.open_below }) }
    {
        self.open_below = open_end(slots, self.open_below);
        self.wants_from = 0;
        self.wants_below = self.open_below;
    }

    // The link that a wake is about may want something.
    fn include_woken(&mut self, wake: Wake)
        ensures { self.new ≡ bounds_after wake self.old }
    {
        match wake {
            Wake::Opened(number) => {
                self.open_below = self.open_below.max(usize::from(number) + 1);
                self.include(number);
            }
            Wake::Readable(number) | Wake::Writable(number) => self.include(number),
            Wake::Ticked(..) | Wake::Line(..) | Wake::Idle | Wake::Stop => {}
        }
    }

    /// What is known after what a wake does, which concerns all links or only the one that it is about.
    pub fn wake(&mut self, wake: Wake, concerns_all: bool, slots: &[Slot])
        requires most { (bounds_after wake self.old).open_below ≤ length slots.now }
        requires none_open { NoneOpenFrom (bounds_after wake self.old).open_below slots.now }
        ensures one { concerns_all ≡ false → self.new ≡ bounds_after wake self.old }
        ensures all { concerns_all ≡ true → (ks : List KeptDeferral) → (bounds_after wake self.old).open_below ≤ most_links →
            AreBounds self.new ks slots.now }
    {
        self.include_woken(wake);
        if concerns_all {
            self.include_all(slots);
        }
    }

    /// The bounds are moved together as far as links want nothing.
    pub fn narrow(&mut self, waits: &DeferredRequests, slots: &[Slot])
        requires count { length slots.now ≡ most_links }
        requires bounds { AreBounds self.old waits.now slots.now }
        ensures bounds { AreBounds self.new waits.now slots.now }
        ensures exact { AreExact self.new waits.now slots.now }
    {
        let from = first_wanting(waits, slots, self.wants_from, self.wants_below);
        if from < self.wants_below {
            self.wants_below = last_wanting(waits, slots, from, self.wants_below);
            self.wants_from = from;
        } else {
            self.wants_from = MOST_LINKS;
            self.wants_below = 0;
        }
    }
}
