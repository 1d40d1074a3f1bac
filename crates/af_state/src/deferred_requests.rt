// The deferred requests, each with what it will do.
// Layout: `order` lists the links with one, the longest deferred first, each with its device and the frames that are left.
// `deferred` has a place for each link, by number: the request, and room for the samples of a play, all taken once. A link with a
// new request fills its place and goes to the end of the list. A request that ends only leaves the list: no sample is moved, and
// what is in its place means nothing any more. Contracts see one list: each entry of `order`, joined with its place.
ghost use Rattle.std.specs.Prelude.{◌≡◌, ◌<◌, ◌≤◌, false, [], ◌∷◌, ◌++◌, length, map, find, option_map, IfOk, IfSome};
ghost use Rattle.std.specs.List.{All};
ghost use Rattle.af_limits.specs.Limits.{most_links, longest_play};
ghost use Rattle.af_wait.specs.Waits.{without_first};
ghost use Rattle.af_state.specs.Deferred.{deferred_of_play, deferred_of_record};
ghost use Rattle.af_state.specs.Deferrals.{has_waiting, kept_due, deferral_after_frames, kept_without, deferral_of, waits_of};

use crate::deferred_request::{DeferredRequest, Play, Record};
use af_limits::MOST_LINKS;
use af_time::OutOfMemory;
use af_wait::Waiting;
use std::alloc::Global;
use std::marker::Model;

/// The requests that wait, in the order in which they began to. All their memory is taken here: there is room for one request of
/// each link.
#[derive(Drop)]
pub struct DeferredRequests {
    order: Waiting,
    // by the numbers of the links
    deferred: Vec<DeferredRequest>,
}

impl Model for DeferredRequests {
    ghost use Rattle.std.specs.Prelude.{◌≡◌, List, length, map};
    ghost use Rattle.af_limits.specs.Limits.{most_links};
    ghost use Rattle.af_state.specs.Deferrals.{kept_deferral, KeptDeferral};

    ghost Value = { List KeptDeferral };

    ghost view = { λ a. map (kept_deferral a.deferred.items) a.order };

    ghost invariant = { λ a. length a.deferred.items ≡ most_links };
}

// Room for a request of each link.
fn make_room(alloc: Global) -> Result<Vec<DeferredRequest>, OutOfMemory>
    ensures { IfOk result (λ room. length room.items ≡ most_links) }
{
    let mut room = Vec::with_capacity(alloc, MOST_LINKS)?;
    for _number in 0..MOST_LINKS as u8 {
        let deferred = DeferredRequest::new(alloc)?;
        room.push(deferred)?;
    }
    Ok(room)
}

impl DeferredRequests {
    /// Nothing waits.
    pub fn new(alloc: Global) -> Result<DeferredRequests, OutOfMemory>
        ensures { IfOk result (λ waits. waits ≡ []) }
    {
        let deferred = make_room(alloc)?;
        Ok(DeferredRequests {
            order: Waiting::new(),
            deferred,
        })
    }

    /// How many wait.
    pub fn len(&self) -> usize
        ensures { result ≡ length self.now }
    {
        self.order.len()
    }

    /// Whether a link waits.
    pub fn is_waiting(&self, link: u8) -> bool
        ensures { result ≡ has_waiting self.now link }
    {
        self.order.is_waiting(link)
    }

    /// The links that wait, with the frames that are left.
    pub fn order(&self) -> &Waiting
        ensures { result.now ≡ waits_of self.now }
    {
        &self.order
    }

    /// A link begins to wait with a play, until `left` frames of its device have passed, at least 1. It may not wait already.
    pub fn begin_play(&mut self, link: u8, left: u32, play: &Play<'_>)
        requires link { link < most_links }
        requires apart { has_waiting self.old link ≡ false }
        requires later { 0 < left }
        requires few { length play.now.sound.now ≤ longest_play }
        ensures { self.new ≡ self.old ++ deferral_of link play.now.device left (deferred_of_play play.now) ∷ [] }
    {
        self.order.add(link, play.device, left);
        self.deferred[usize::from(link)].defer_play(play);
    }

    /// A link begins to wait with a record, in the same way.
    pub fn begin_record(&mut self, link: u8, left: u32, asked: Record)
        requires link { link < most_links }
        requires apart { has_waiting self.old link ≡ false }
        requires later { 0 < left }
        ensures { self.new ≡ self.old ++ deferral_of link asked.context.device left (deferred_of_record asked) ∷ [] }
    {
        self.order.add(link, asked.context.device, left);
        self.deferred[usize::from(link)].defer_record(asked);
    }

    /// n frames of a device have passed.
    pub fn pass(&mut self, device: u8, n: u32)
        ensures { self.new ≡ map (deferral_after_frames device n) self.old }
    {
        self.order.pass(device, n);
    }

    /// The link of the earliest of the requests that wait for a device and are due. None where none is due.
    pub fn first_due(&self, device: u8) -> Option<u8>
        ensures earliest { result ≡ option_map (λ k. k.wait.link) (find (kept_due device) self.now) }
        ensures bound { IfSome result (λ link. link < most_links) }
    {
        self.order.first_due(device)
    }

    /// The request of a link that waits.
    pub fn deferred(&self, link: u8) -> &DeferredRequest
        requires { link < most_links }
        ensures { All (λ k. k.wait.link ≡ link → result.now ≡ k.deferred) self.now }
    {
        &self.deferred[usize::from(link)]
    }

    /// A link waits no more.
    pub fn drop_link(&mut self, link: u8)
        ensures { self.new ≡ kept_without link self.old }
    {
        self.order.drop_link(link);
    }

    /// The earliest of the requests that wait for a device and are due waits no more.
    pub fn take_due(&mut self, device: u8)
        ensures rest { self.new ≡ without_first (kept_due device) self.old }
        ensures free { IfSome (option_map (λ k. k.wait.link) (find (kept_due device) self.old))
            (λ link. has_waiting self.new link ≡ false) }
    {
        let _ = self.order.next_due(device);
    }
}
