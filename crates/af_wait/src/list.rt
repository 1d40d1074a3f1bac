// The list of deferred requests.
// Layout: the entries in order, the longest deferred first, at most one for each link. A flag for each link says whether it has
// one.
ghost use Rattle.std.specs.Prelude.{◌≡◌, ◌↔◌, ◌<◌, false, [], ◌∷◌, ◌++◌, length, map, option_map, slice_set, IfSome, IsNone};
ghost use Rattle.std.specs.List.{All};
ghost use Rattle.af_limits.specs.Limits.{most_links};
ghost use Rattle.af_wait.specs.Waits.{first_due, is_due, is_waiting, wait_after_frames, without_first, without_link, without_taken, AreWaits};

use crate::Wait;
use af_limits::MOST_LINKS;
use arrayvec::ArrayVec;
use std::marker::Model;

/// The requests that wait, in the order in which they began to. Clauses see the list of them.
#[derive(Drop)]
pub struct Waiting {
    waits: ArrayVec<Wait, MOST_LINKS>,
    // by link, since a turn asks this of every link
    is_waiting: [bool; MOST_LINKS],
}

impl Model for Waiting {
    ghost use Rattle.std.specs.Prelude.{List};
    ghost use Rattle.af_wait.specs.declared.Wait.{Wait};
    ghost use Rattle.af_wait.specs.Waits.{AreFlags, AreWaits};

    ghost Value = { List Wait };

    ghost view = { λ w. w.waits.items };

    ghost invariant = { λ w. AreWaits w.waits.items × AreFlags w.is_waiting w.waits.items };
}

impl Waiting {
    /// Nothing waits.
    pub fn new() -> Waiting
        ensures { result ≡ [] }
    {
        Waiting {
            waits: ArrayVec::new(),
            is_waiting: [false; MOST_LINKS],
        }
    }

    /// How many requests wait.
    pub fn len(&self) -> usize
        ensures { result ≡ length self.now }
    {
        self.waits.len()
    }

    /// Whether a link waits.
    pub fn is_waiting(&self, link: u8) -> bool
        ensures { result ≡ is_waiting self.now link }
    {
        self.is_waiting
            .get(usize::from(link))
            .copied()
            .unwrap_or(false)
    }

    /// A link begins to wait until `left` frames of a device have passed, at least 1. It may not wait already.
    pub fn add(&mut self, link: u8, device: u8, left: u32)
        requires link { link < most_links }
        requires apart { is_waiting self.old link ≡ false }
        requires later { 0 < left }
        ensures added { self.new ≡ self.old ++ record { link = link; device = device; left = left } ∷ [] }
        ensures list { AreWaits self.new }
    {
        self.waits.push(Wait { link, device, left });
        self.is_waiting[usize::from(link)] = true;
    }

    /// A link waits no more.
    pub fn drop_link(&mut self, link: u8)
        ensures rest { self.new ≡ without_link self.old link }
        ensures list { AreWaits self.new }
    {
        self.waits.retain(|wait| wait.link != link);
        clear_flag(&mut self.is_waiting, link);
    }

    /// n frames of a device have passed.
    pub fn pass(&mut self, device: u8, n: u32)
        ensures passed { self.new ≡ map (wait_after_frames device n) self.old }
        ensures list { AreWaits self.new }
    {
        pass_all(&mut self.waits, device, n);
    }

    /// The link of the earliest of the requests that wait for a device and are due. None where none is due.
    pub fn first_due(&self, device: u8) -> Option<u8>
        ensures earliest { result ≡ option_map (λ w. w.link) (first_due device self.now) }
        ensures bound { IfSome result (λ link. link < most_links) }
    {
        first_due_link(&self.waits, device)
    }

    /// Takes out the earliest of the requests that wait for a device and are due, and gives its link. None where none is
    /// due.
    pub fn next_due(&mut self, device: u8) -> Option<u8>
        ensures earliest { result ≡ option_map (λ w. w.link) (first_due device self.old) }
        ensures none { IsNone result ↔ All (λ w. is_due device w ≡ false) self.old }
        ensures first { self.new ≡ without_first (is_due device) self.old }
        ensures rest { self.new ≡ without_taken self.old result }
        ensures list { AreWaits self.new }
    {
        let link = first_due_link(&self.waits, device)?;
        self.drop_link(link);
        Some(link)
    }
}

// A link has no deferred request any more. One without a flag never had one.
fn clear_flag(flags: &mut [bool], link: u8)
    ensures { flags.new ≡ slice_set flags.old link false }
{
    let place = usize::from(link);
    if place < flags.len() {
        flags[place] = false;
    }
}

// Frames go by for the requests that wait for a device.
fn pass_all(waits: &mut [Wait], device: u8, n: u32)
    ensures { waits.new ≡ map (wait_after_frames device n) waits.old }
{
    for wait in waits.iter_mut() {
        pass_one(wait, device, n);
    }
}

// Frames go by for a request, if it waits for the device.
fn pass_one(wait: &mut Wait, device: u8, n: u32)
    ensures { wait.new ≡ wait_after_frames device n wait.old }
{
    if wait.device == device {
        wait.left = wait.left.saturating_sub(n);
    }
}

// The link whose request is due for a device, the longest deferred first.
fn first_due_link(waits: &[Wait], device: u8) -> Option<u8>
    ensures earliest { result ≡ option_map (λ w. w.link) (first_due device waits.now) }
    ensures none { IsNone result ↔ All (λ w. is_due device w ≡ false) waits.now }
{
    waits
        .iter()
        .find(|wait| wait.device == device && wait.left == 0)
        .map(|wait| wait.link)
}
