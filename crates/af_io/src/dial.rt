// Dialling a server.
ghost use Rattle.std.specs.Prelude.{◌≡◌, ◌≤◌, ℕ, List, [], ◌∷◌, length};
ghost use Rattle.std.specs.declared.option.Option.{Option};
ghost use Rattle.af_limits.specs.Limits.{longest_address};
ghost use Rattle.af_io.specs.declared.dial.Dialed.{Dialed};
ghost use Rattle.af_io.specs.Dial.{CountsHurt, hurt_after};

use crate::Link;
use crate::faults::faults_after;

/// What a dial gave: a link, or none.
#[derive(Drop)]
pub enum Dialed<F: Drop> {
    Far(F),
    Failed,
    OutOfMemory,
}

/// Links to servers, by address. A link that was dialled is given back in the end.
pub trait Dial {
    ghost use Rattle.af_io.specs.Observed.{Appended, FaultCounted};
    ghost use Rattle.af_io.specs.Dial.{CountsHurt, GivesNext, AppendedBack, IsUnhurt, ToldLink};

    type Far: Link + Drop;

    /// How often a dial has failed.
    ghost faults: { Self → ℕ };

    /// How many of the links that were given back had failed.
    ghost hurt: { Self → ℕ };

    /// The addresses of all dials, in order, if they are observed.
    ghost asked: { Self → Option (List (List ℕ)) };

    /// What each link that was given back had been sent, in order, if it is observed.
    ghost back: { Self → Option (List (List ℕ)) };

    /// The links that it will give, in order, if they are observed.
    ghost links: { Self → Option (List ToldLink) };

    /// A dial of this address, with this answer, leads from the first to the second. What that says is for each to state. One
    /// that stands over another has just the dials of that one.
    ghost dials: { Self → List ℕ → Dialed Self.Far → Self → Type 0 };

    /// Giving this link back leads from the first to the second.
    ghost hangs_up: { Self → Self.Far → Self → Type 0 };

    /// Dials an address of 1 to 64 bytes. The link has not failed yet.
    fn dial(&mut self, address: &str) -> Dialed<Self::Far>
        requires { (1 ≤ length address.now) × (length address.now ≤ longest_address) }
        ensures count { faults self.old ≤ faults self.new }
        ensures cause { result ≡ Dialed.Failed → FaultCounted (faults self.old) (faults self.new) }
        ensures fresh { IsUnhurt Self.Far.Link.faults result }
        ensures hurt { hurt self.new ≡ hurt self.old }
        ensures asked { Appended (asked self.old) (address.now ∷ []) (asked self.new) }
        ensures back { back self.new ≡ back self.old }
        ensures gives { GivesNext Self.Far.Link.left Self.Far.Link.sent result (links self.old) (links self.new) }
        ensures step { dials self.old address.now result self.new };

    /// Takes a link back.
    fn hang_up(&mut self, far: Self::Far)
        ensures count { faults self.new ≡ faults self.old }
        ensures hurt { CountsHurt (Self.Far.Link.faults far) (hurt self.old) (hurt self.new) }
        ensures asked { asked self.new ≡ asked self.old }
        ensures back { AppendedBack (back self.old) (Self.Far.Link.sent far) (back self.new) }
        ensures gives { links self.new ≡ links self.old }
        ensures step { hangs_up self.old far self.new };
}

/// How many dials have failed, and how many of the links that were given back. Both counts stand still at 2^64 - 1.
#[derive(Clone, Copy)]
pub(crate) struct DialCounts {
    pub(crate) faults: u64,
    pub(crate) hurt: u64,
}

impl DialCounts {
    /// Nothing was dialled.
    pub(crate) fn new() -> DialCounts
        ensures { result ≡ record { faults = 0; hurt = 0 } }
    {
        DialCounts { faults: 0, hurt: 0 }
    }

    /// Counts a link that is given back, if it had failed so often.
    pub(crate) fn count_hurt(&mut self, faults: u64)
        ensures hurt { CountsHurt faults self.old.hurt self.new.hurt }
        ensures counts { self.new ≡ record self.old { hurt = hurt_after faults self.old.hurt } }
    {
        self.hurt = faults_after(self.hurt, faults > 0);
    }
}
