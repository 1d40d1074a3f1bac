// A slot: the number of a link. It keeps its memory while no link is open there.
ghost use Rattle.std.specs.Prelude.{◌≡◌, ◌≤◌, ◌<◌, ◌+◌, ◌-◌, ℕ, max, true, false, find, length, map, option_map, slice_get, IfOk, IsSomeAnd, MatchOption, is_some};
ghost use Rattle.std.specs.declared.option.Option.TheVariants.{None, Some};
ghost use Rattle.af_limits.specs.Limits.{most_links};
ghost use Rattle.af_wait.specs.Waits.{without_first};
ghost use Rattle.af_model.specs.State.{EnvironmentState, LinkState, new_link_state};
ghost use Rattle.af_model.specs.Tick.{complete_at};
ghost use Rattle.af_model.specs.Events.{tell_open};
ghost use Rattle.af_model.specs.More.{open_wants};
ghost use Rattle.af_model.specs.Turn.{accept, serve_slot_link, serve_all, is_open_at, mark_readable, mark_writable, in_open};
ghost use Rattle.af_state.specs.Deferrals.{has_waiting, kept_due, OnlyQueues, LeavesOthers};
ghost use Rattle.af_state.specs.SharedState.{StandsForSharedState};
ghost use Rattle.af_core.specs.Simulates.{Simulates};
ghost use Rattle.af_core.specs.Stands.{AreBounds, AreExact, StandsForSlot, IsBetweenPhases, IsSettledSlot, NoneOpenFrom, OfFirstDue, OnlyDrops, StandsFor, WantsWithin, kept_of, wants_at};

use crate::complete::complete_link;
use crate::events::tell_link;
use crate::serve::serve_link;
use crate::wanting_span::WantingSpan;
use af_context::Contexts;
use af_session::Session;
use af_state::{DeferredRequests, Scratch, ServedLink, SharedState};
use af_time::OutOfMemory;
use af_wire::Event;
use af_world::World;
use std::alloc::Global;
use std::marker::Model;

#[derive(Drop)]
pub struct Slot {
    is_open: bool,
    link: ServedLink,
}

impl Model for Slot {
    ghost use Rattle.std.specs.Prelude.{if◌then◌else◌};
    ghost use Rattle.std.specs.declared.option.Option.{Option};
    ghost use Rattle.std.specs.declared.option.Option.TheVariants.{None, Some};
    ghost use Rattle.af_model.specs.State.{LinkState};

    ghost Value = { Option LinkState };

    ghost view = { λ a. if a.is_open then Some a.link else None };
}

impl Slot {
    pub fn new(alloc: Global) -> Result<Slot, OutOfMemory>
        ensures { IfOk result (λ s. s ≡ None) }
    {
        let link = ServedLink::new(alloc)?;
        Ok(Slot {
            is_open: false,
            link,
        })
    }

    pub fn is_open(&self) -> bool
        ensures { result ≡ is_some self.now }
    {
        self.is_open
    }

    /// The contexts of the link that is open here.
    pub fn contexts(&self) -> Option<&Contexts>
        ensures { MatchOption result (self.now ≡ None) (λ contexts. IsSomeAnd self.now (λ l. contexts.now ≡ l.contexts)) }
    {
        self.is_open.then_some(self.link.contexts())
    }

    /// The session of the link that is open here.
    pub fn session(&self) -> Option<&Session>
        ensures { MatchOption result (self.now ≡ None)
            (λ session. IsSomeAnd self.now (λ l. (session.now.rest ≡ l.rest) × (session.now.pending ≡ l.pending))) }
    {
        self.is_open.then_some(self.link.session())
    }

    /// Whether the link that is open here, at this number, is to be read, written or closed.
    pub fn wants_turn(&self, number: u8, waits: &DeferredRequests) -> bool
        ensures { result ≡ open_wants (has_waiting waits.now number) self.now }
    {
        self.is_open && self.link.wants_turn(number, waits)
    }

    /// A link is open here from now on.
    pub fn open(&mut self)
        ensures { self.new ≡ Some new_link_state }
    {
        self.link.reset();
        self.is_open = true;
    }

    /// The link that is open here may have something to read.
    pub fn set_ready(&mut self)
        ensures { self.new ≡ in_open mark_readable self.old }
    {
        if self.is_open {
            self.link.set_ready();
        }
    }

    /// The link that is open here may take something again.
    pub fn set_writable(&mut self)
        ensures { self.new ≡ in_open mark_writable self.old }
    {
        if self.is_open {
            self.link.set_writable();
        }
    }

    /// The first request that is due of a device, which is this number's, completes, and then those that the link may then make.
    pub fn complete(
        &mut self,
        number: u8,
        device: u8,
        shared: &mut SharedState,
        scratch: &mut Scratch,
    )
        requires number { number < most_links }
        requires due { option_map (λ k. k.wait.link) (find (kept_due device) shared.old.waits) ≡ Some number }
        requires settled { IsSettledSlot (has_waiting shared.old.waits number) self.old }
        requires stands { (a : EnvironmentState) × StandsForSharedState shared.old a }
        ensures step { OfFirstDue device shared.old (λ w a. StandsForSlot shared.new self.new (complete_at w a self.old)) }
        ensures settled { IsSettledSlot (has_waiting shared.new.waits number) self.new }
        ensures only_queues { OnlyQueues number (without_first (kept_due device) shared.old.waits) shared.new.waits }
    {
        if self.is_open {
            complete_link(number, device, shared, &mut self.link, scratch);
        } else {
            shared.waits.take_due(device);
        }
    }

    /// The link that is open here is told an event, if it selects it.
    pub fn tell(&mut self, number: u8, event: Event, shared: &mut SharedState)
        requires { IsSettledSlot (has_waiting shared.old.waits number) self.old }
        ensures step { (a : EnvironmentState) → StandsForSharedState shared.old a →
            StandsForSlot shared.new self.new (tell_open number event a self.old) }
        ensures settled { IsSettledSlot (has_waiting shared.new.waits number) self.new }
        ensures only_drops { OnlyDrops number shared.old shared.new }
    {
        if self.is_open {
            tell_link(number, event, shared, &mut self.link);
        }
    }

    /// The part of a turn of the link that is open here.
    pub fn serve<W: World>(
        &mut self,
        number: u8,
        shared: &mut SharedState,
        scratch: &mut Scratch,
        world: &mut W,
    )
        requires number { number < most_links }
        requires settled { IsSettledSlot (has_waiting shared.old.waits number) self.old }
        ensures simulates { Simulates (W.log world.old) (W.log world.new) (StandsForSlot shared.old self.old)
            (StandsForSlot shared.new self.new) (serve_slot_link number) accept }
        ensures settled { IsSettledSlot (has_waiting shared.new.waits number) self.new }
        ensures leaves_others { LeavesOthers number shared.old.waits shared.new.waits }
        ensures leads { W.leads_to world.old world.new }
    {
        if self.is_open {
            let is_closed = serve_link(number, shared, &mut self.link, scratch, world);
            self.is_open = !is_closed;
        }
    }
}

/// One above the highest link that is open, where all that are open are below this one.
pub fn open_end(slots: &[Slot], below: usize) -> usize
    requires bound { below ≤ length slots.now }
    requires none_open { NoneOpenFrom below slots.now }
    ensures bound { result ≤ below }
    ensures none_open { NoneOpenFrom result slots.now }
    ensures last { 0 < result → is_open_at (slice_get (map is_some slots.now) (result - 1)) ≡ true }
{
    let mut end = below;
    while end > 0 && !slots[end - 1].is_open() {
        end -= 1;
    }
    end
}

/// The first link from a number on, and below another, that is to be read, written or closed, or else the second number or one
/// above it.
pub fn first_wanting(waits: &DeferredRequests, slots: &[Slot], from: usize, below: usize) -> usize
    requires count { length slots.now ≤ most_links }
    requires bound { below ≤ length slots.now }
    ensures none { (k : ℕ) → from ≤ k → k < result → wants_at waits.now slots.now k ≡ false }
    ensures wants { result < below → wants_at waits.now slots.now result ≡ true }
    ensures bound { (from ≤ result) × (result ≤ max from below) }
{
    for number in from..below {
        if slots[number].wants_turn(number as u8, waits) {
            return number;
        }
    }
    from.max(below)
}

/// One above the last link below a number that is to be read, written or closed, or one above a lower number.
pub fn last_wanting(waits: &DeferredRequests, slots: &[Slot], from: usize, below: usize) -> usize
    requires count { length slots.now ≤ most_links }
    requires bound { below ≤ length slots.now }
    requires some { from < below }
    ensures none { (k : ℕ) → result ≤ k → k < below → wants_at waits.now slots.now k ≡ false }
    ensures last { from + 1 < result → wants_at waits.now slots.now (result - 1) ≡ true }
    ensures bound { (from < result) × (result ≤ below) }
{
    let mut end = below;
    while end > from + 1 && !slots[end - 1].wants_turn((end - 1) as u8, waits) {
        end -= 1;
    }
    end
}

/// The part of a turn of all links, by rising number: of those between which all are that want any. The bounds are then those of
/// the links that want more.
pub fn serve_slots<W: World>(
    bounds: &mut WantingSpan,
    shared: &mut SharedState,
    slots: &mut [Slot],
    scratch: &mut Scratch,
    world: &mut W,
)
    requires kept { IsBetweenPhases (kept_of shared.old slots.old) }
    requires bounds { AreBounds bounds.old shared.old.waits slots.old }
    ensures simulates { Simulates (W.log world.old) (W.log world.new) (StandsFor (kept_of shared.old slots.old))
        (StandsFor (kept_of shared.new slots.new)) serve_all accept }
    ensures kept { IsBetweenPhases (kept_of shared.new slots.new) }
    ensures bounds { AreBounds bounds.new shared.new.waits slots.new }
    ensures exact { AreExact bounds.new shared.new.waits slots.new }
    ensures leads { W.leads_to world.old world.new }
{
    let served = *bounds;
    *bounds = served.with_none_wanting();
    for number in served.wants_from..served.wants_below {
        let slot = &mut slots[number];
        slot.serve(number as u8, shared, scratch, world);
        if slot.wants_turn(number as u8, &shared.waits) {
            bounds.include(number as u8);
        }
    }
}
