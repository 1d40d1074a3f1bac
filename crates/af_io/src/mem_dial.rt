// A dial in memory, which gives links in memory.
ghost use Rattle.std.specs.Prelude.{◌≡◌, ◌≢◌, ◌≤◌, ◌<◌, ◌+◌, ◌↔◌, ℕ, [], ◌∷◌, ◌++◌, length, map, option_map, slice_get, true, false, Bool, IfSome, IsSome, IsTrue};
ghost use Rattle.std.specs.declared.option.Option.TheVariants.{Some, None};
ghost use Rattle.af_limits.specs.Limits.{longest_address};
ghost use Rattle.af_io.specs.Observed.{told_if, Appended, CountsOneFault};
ghost use Rattle.af_io.specs.Link.{MemLinkState};
ghost use Rattle.af_io.specs.Dial.{CountsHurt, GivesNext, AppendedBack, IsUnhurt, hurt_after};
ghost use Rattle.af_io.specs.MemDial.{back_of, both_of, told_link, MemDials, MemHangsUp};

use crate::dial::DialCounts;
use crate::faults::faults_after;
use crate::{Dial, Dialed, Link, MemLink};
use af_limits::LONGEST_ADDRESS;
use arrayvec::{ArrayString, ArrayVec};
use std::marker::Model;

/// Gives two links, or fewer, one after the other; a dial with none left is a fault. It keeps the first two addresses and the
/// first two links that are given back. A third one is not observed any more. It takes no memory.
///
/// The counts stand still at 2^64 - 1.
#[derive(Drop)]
pub struct MemDial {
    first: Option<MemLink>,
    second: Option<MemLink>,
    addresses: ArrayVec<ArrayString<LONGEST_ADDRESS>, 2>,
    tells_asked: bool,
    kept: Option<MemLink>,
    kept_later: Option<MemLink>,
    keeps_all: bool,
    counts: DialCounts,
}

impl Model for MemDial {
    ghost use Rattle.std.specs.Prelude.{◌≡◌, map, IfSome, IfNone};
    ghost use Rattle.std.specs.declared.option.Option.TheVariants.{None};
    ghost use Rattle.af_io.specs.Observed.{told_if};
    ghost use Rattle.af_io.specs.MemDial.{both_of, MemDialState};

    ghost Value = { MemDialState };

    ghost view = { λ a. record {
      links = both_of a.first a.second;
      asked = told_if a.tells_asked (map (λ address. address.bytes) a.addresses.items);
      kept = both_of a.kept a.kept_later;
      keeps_all = a.keeps_all;
      faults = a.counts.faults;
      hurt = a.counts.hurt;
    } };

    ghost invariant = { λ a. IfSome a.first (λ link. link.faults ≡ 0) × IfSome a.second (λ link. link.faults ≡ 0)
        × IfNone a.kept (a.kept_later ≡ None) };
}

impl MemDial {
    /// A dial that gives these links, in this order. They have not failed yet.
    pub fn new(first: Option<MemLink>, second: Option<MemLink>) -> MemDial
        requires { IfSome first (λ link. link.faults ≡ 0) × IfSome second (λ link. link.faults ≡ 0) }
        ensures { result
            ≡ record { links = both_of first second; asked = Some []; kept = []; keeps_all = true; faults = 0; hurt = 0 } }
    {
        MemDial {
            first,
            second,
            addresses: ArrayVec::new(),
            tells_asked: true,
            kept: None,
            kept_later: None,
            keeps_all: true,
            counts: DialCounts::new(),
        }
    }

    /// A link that was given back, by its place in order. None exactly at a place where none is kept.
    pub fn kept(&self, place: usize) -> Option<&MemLink>
        ensures { option_map (λ link. link.now) result ≡ slice_get self.now.kept place }
    {
        match place {
            0 => self.kept.as_ref(),
            1 => self.kept_later.as_ref(),
            _ => None,
        }
    }
}

impl Dial for MemDial {
    type Far = MemLink;

    ghost faults = { λ dial. dial.faults };

    ghost hurt = { λ dial. dial.hurt };

    ghost asked = { λ dial. dial.asked };

    ghost back = { λ dial. back_of dial };

    ghost links = { λ dial. Some (map told_link dial.links) };

    ghost dials = { λ before _ answer after. MemDials before answer after };

    ghost hangs_up = { MemHangsUp };

    fn dial(&mut self, address: &str) -> Dialed<MemLink>
        requires { (1 ≤ length address.now) × (length address.now ≤ longest_address) }
        ensures fresh { IsUnhurt (λ (link : MemLinkState). link.faults) result }
        ensures asked { Appended self.old.asked (address.now ∷ []) self.new.asked }
        ensures back { back_of self.new ≡ back_of self.old }
        ensures gives { GivesNext (λ (link : MemLinkState). Some link.left) (λ (link : MemLinkState). Some link.sent) result
            (Some (map told_link self.old.links)) (Some (map told_link self.new.links)) }
        ensures step { MemDials self.old result self.new }
    {
        self.tells_asked = note(&mut self.addresses, self.tells_asked, address);
        match take_next(&mut self.first, &mut self.second) {
            Some(link) => Dialed::Far(link),
            None => {
                self.counts.faults = faults_after(self.counts.faults, true);
                Dialed::Failed
            }
        }
    }

    fn hang_up(&mut self, far: MemLink)
        ensures hurt { CountsHurt far.faults self.old.hurt self.new.hurt }
        ensures back { AppendedBack (back_of self.old) (Some far.sent) (back_of self.new) }
        ensures step { MemHangsUp self.old far self.new }
    {
        self.counts.count_hurt(far.faults());
        if !keep(&mut self.kept, &mut self.kept_later, far) {
            self.keeps_all = false;
        }
    }
}

// Notes an address, if there is room. The answer is whether all are noted so far.
fn note(
    addresses: &mut ArrayVec<ArrayString<LONGEST_ADDRESS>, 2>,
    tells: bool,
    address: &str,
) -> bool
    requires { length address.now ≤ longest_address }
    ensures appended { Appended (told_if tells (map (λ a. a.bytes) addresses.old.items)) (address.now ∷ [])
        (told_if result (map (λ a. a.bytes) addresses.new.items)) }
    ensures tells { IsTrue tells → length addresses.old.items < 2 → IsTrue result }
{
    let Ok(address) = ArrayString::from(address) else {
        return false;
    };
    tells && addresses.try_push(address).is_ok()
}

// Takes the first link, if there is one, and leaves the other.
fn take_next(first: &mut Option<MemLink>, second: &mut Option<MemLink>) -> Option<MemLink>
    ensures some { IfSome result (λ link. both_of first.old second.old ≡ link ∷ both_of first.new second.new) }
    ensures none { result ≡ None → (both_of first.old second.old ≡ []) × (both_of first.new second.new ≡ []) }
{
    match first.take() {
        Some(link) => Some(link),
        None => second.take(),
    }
}

// Keeps a link, if there is room for it.
fn keep(kept: &mut Option<MemLink>, later: &mut Option<MemLink>, far: MemLink) -> bool
    requires { kept.old ≡ None → later.old ≡ None }
    ensures done { IsTrue result → both_of kept.new later.new ≡ both_of kept.old later.old ++ far ∷ [] }
    ensures full { result ≡ false → (2 ≤ length (both_of kept.old later.old))
        × (both_of kept.new later.new ≡ both_of kept.old later.old) }
    ensures order { kept.new ≡ None → later.new ≡ None }
{
    if kept.is_none() {
        *kept = Some(far);
        true
    } else if later.is_none() {
        *later = Some(far);
        true
    } else {
        false
    }
}
