// The core: all that the server keeps, and one turn.
ghost use Rattle.std.specs.Prelude.{◌≡◌, ◌≤◌, ◌<◌, ◌↔◌, ℕ, false, List, length, map, slice_get, All, IfOk, IsNone, IsTrue, IsSomeAnd, MatchOption, is_some, replicate};
ghost use Rattle.std.specs.declared.option.Option.TheVariants.{None, Some};
ghost use Rattle.af_limits.specs.Limits.{most_links};
ghost use Rattle.af_sample.specs.Channels.{IsChannelCount};
ghost use Rattle.af_sample.specs.Rates.{IsListedRate};
ghost use Rattle.af_buffers.specs.PlayBuffer.{PlayWindow, Hears};
ghost use Rattle.af_buffers.specs.RecordBuffer.{RecordWindow, Keeps};
ghost use Rattle.af_model.specs.State.{State, LinkState, opening_state, outline, outline_with, slot_at};
ghost use Rattle.af_model.specs.More.{any_wants, has_more};
ghost use Rattle.af_model.specs.Turn.{accept, fits, wake_phase};
ghost use Rattle.af_core.specs.Simulates.{Simulates};
ghost use Rattle.af_state.specs.Deferrals.{has_waiting, waits_of};
ghost use Rattle.af_state.specs.Kept.{IsBounded, StandForDevices};
ghost use Rattle.af_core.specs.Stands.{AreBounds, AreExact, IsBetweenPhases, Stands, StandsFor, StandForWaiting, Turns, WakesOnly, kept_lines, kept_of, link_kept, outline_of};

use crate::lines::{change_line, give_hooks};
use crate::slot::{Slot, serve_slots};
use crate::tick::{DeviceTick, tick};
use crate::wanting_span::{NO_LINKS, WantingSpan};
use af_buffers::{PlayBuffer, RecordBuffer};
use af_context::Contexts;
use af_limits::{LONGEST_TICK, MOST_LINKS};
use af_phone::Line;
use af_session::Session;
use af_state::{DeferredRequests, Device, Scratch, SharedState};
use af_time::OutOfMemory;
use af_wait::Waiting;
use af_world::{Config, DeviceSpec, Wake, World};
use std::alloc::Global;
use std::marker::Model;

/// What the server keeps of its devices and links. It takes all its memory when it is made, and no turn takes any.
#[derive(Drop)]
pub struct Core {
    shared: SharedState,
    slots: Vec<Slot>,
    bounds: WantingSpan,
    scratch: Scratch,
}

impl Model for Core {
    ghost use Rattle.std.specs.Prelude.{◌≤◌};
    ghost use Rattle.af_core.specs.Stands.{AreBounds, AreExact, IsBetweenPhases, Kept, kept_of};

    ghost Value = { Kept };

    ghost view = { λ a. kept_of a.shared a.slots.items };

    ghost invariant = { λ a. IsBetweenPhases (kept_of a.shared a.slots.items)
        × (AreBounds a.bounds a.shared.waits a.slots.items × AreExact a.bounds a.shared.waits a.slots.items) };
}

// The devices at their starts.
fn start_devices(alloc: Global, config: &[DeviceSpec]) -> Result<Vec<Device>, OutOfMemory>
    requires rates { All (λ d. IsListedRate d.rate) config.now }
    requires channels { All (λ d. IsChannelCount d.channels) config.now }
    ensures stands { IfOk result (λ devices. StandForDevices devices.items (opening_state config.now).devices) }
    ensures count { IfOk result (λ devices. length devices.items ≡ length config.now) }
{
    let mut devices = Vec::with_capacity(alloc, config.len())?;
    for spec in config {
        let device = Device::new(alloc, *spec)?;
        devices.push(device)?;
    }
    Ok(devices)
}

// A slot for each link number. None is open.
fn make_slots(alloc: Global) -> Result<Vec<Slot>, OutOfMemory>
    ensures { IfOk result (λ slots. slots.items ≡ replicate most_links None) }
{
    let mut slots = Vec::with_capacity(alloc, MOST_LINKS)?;
    for _number in 0..MOST_LINKS as u8 {
        let slot = Slot::new(alloc)?;
        slots.push(slot)?;
    }
    Ok(slots)
}

// Whether a wake may come, as devices and links are now.
fn fits_now(devices: &[Device], slots: &[Slot], wake: &Wake) -> bool
    ensures { result ≡ fits (outline_with (kept_lines devices.now) slots.now) wake.now }
{
    match *wake {
        Wake::Opened(number) => match slots.get(number as usize) {
            Some(slot) => !slot.is_open(),
            None => false,
        },
        Wake::Readable(number) | Wake::Writable(number) => match slots.get(number as usize) {
            Some(slot) => slot.is_open(),
            None => false,
        },
        Wake::Ticked(number, frames) => {
            (number as usize) < devices.len() && frames >= 1 && frames <= LONGEST_TICK
        }
        Wake::Line(number, change) => match devices.get(number as usize) {
            Some(device) => device.line().is_some() && change.is_possible(),
            None => false,
        },
        Wake::Idle | Wake::Stop => true,
    }
}

// What a wake does. The answer is whether any link may want something else after it, and not that of the wake alone.
fn wake_up<W: World>(
    wake: Wake,
    shared: &mut SharedState,
    slots: &mut [Slot],
    scratch: &mut Scratch,
    world: &mut W,
) -> bool
    requires fits { IsTrue (fits (outline_of (kept_of shared.old slots.old)) wake) }
    requires kept { IsBetweenPhases (kept_of shared.old slots.old) }
    ensures simulates { Simulates (W.log world.old) (W.log world.new) (StandsFor (kept_of shared.old slots.old))
        (StandsFor (kept_of shared.new slots.new)) (wake_phase wake) accept }
    ensures kept { IsBetweenPhases (kept_of shared.new slots.new) }
    ensures only { result ≡ false → WakesOnly wake shared.old.waits slots.old shared.new.waits slots.new }
    ensures leads { W.leads_to world.old world.new }
{
    match wake {
        Wake::Opened(number) => {
            slots[number as usize].open();
            false
        }
        Wake::Readable(number) => {
            slots[number as usize].set_ready();
            false
        }
        Wake::Writable(number) => {
            slots[number as usize].set_writable();
            false
        }
        Wake::Ticked(device, frames) => {
            let ticked = DeviceTick { device, frames };
            tick(ticked, shared, slots, scratch, world)
        }
        Wake::Line(number, change) => {
            change_line(number, change, shared, slots);
            true
        }
        Wake::Idle | Wake::Stop => false,
    }
}

// A turn, over the parts of a core.
fn turn_parts<W: World>(
    wake: Wake,
    bounds: &mut WantingSpan,
    shared: &mut SharedState,
    slots: &mut [Slot],
    scratch: &mut Scratch,
    world: &mut W,
)
    requires fits { IsTrue (fits (outline_of (kept_of shared.old slots.old)) wake) }
    requires kept { IsBetweenPhases (kept_of shared.old slots.old) }
    requires bounds { AreBounds bounds.old shared.old.waits slots.old }
    ensures turns { Turns (W.log world.old) (W.log world.new) wake
        (kept_of shared.old slots.old) (kept_of shared.new slots.new) }
    ensures kept { IsBetweenPhases (kept_of shared.new slots.new) }
    ensures bounds { AreBounds bounds.new shared.new.waits slots.new }
    ensures exact { AreExact bounds.new shared.new.waits slots.new }
    ensures leads { W.leads_to world.old world.new }
{
    world.woke(wake);
    let concerns_all = wake_up(wake, shared, slots, scratch, world);
    bounds.wake(wake, concerns_all, slots);
    serve_slots(bounds, shared, slots, scratch, world);
    if give_hooks(shared, slots, world) {
        bounds.include_all(slots);
        bounds.narrow(&shared.waits, slots);
    }
}

impl Core {
    /// A core where no link is open, and each device stands at its start. All memory of all links and devices is taken
    /// here. There are 1 to 8 devices, of listed rates and with one or two channels each.
    pub fn new(alloc: Global, config: &Config) -> Result<Core, OutOfMemory>
        requires rates { All (λ d. IsListedRate d.rate) config.now.items }
        requires channels { All (λ d. IsChannelCount d.channels) config.now.items }
        ensures { IfOk result (λ core. Stands core (opening_state config.now.items)) }
    {
        let devices = start_devices(alloc, config.as_slice())?;
        let waits = DeferredRequests::new(alloc)?;
        let slots = make_slots(alloc)?;
        let scratch = Scratch::new(alloc)?;
        Ok(Core {
            shared: SharedState { devices, waits },
            slots,
            bounds: NO_LINKS,
            scratch,
        })
    }

    /// Whether a wake may come now.
    pub fn fits(&self, wake: &Wake) -> bool
        ensures kept { result ≡ fits (outline_of self.now) wake.now }
        ensures shows { (s : State) → Stands self.now s → result ≡ fits (outline s) wake.now }
    {
        fits_now(&self.shared.devices, &self.slots, wake)
    }

    /// Whether a link is open.
    pub fn is_open(&self, link: u8) -> bool
        ensures kept { result ≡ is_some (link_kept self.now link) }
        ensures shows { (s : State) → Stands self.now s → result ≡ is_some (slot_at link s).link }
    {
        match self.slots.get(usize::from(link)) {
            Some(slot) => slot.is_open(),
            None => false,
        }
    }

    /// Whether there is more to do before anything else happens: whether some open link would be read, written or closed in a
    /// turn that nothing wakes.
    pub fn more(&self) -> bool
        ensures kept { result ≡ any_wants 0 (has_waiting self.now.waits) self.now.links }
        ensures shows { (s : State) → Stands self.now s → result ≡ has_more s }
    {
        self.bounds.wants_from < self.bounds.wants_below
    }

    /// The frames next of a device, which is there: what is heard of all accepted plays from its time on.
    pub fn play_buffer(&self, device: u8) -> &PlayBuffer
        requires { device < length self.now.devices }
        ensures kept { slice_get (map {B = PlayWindow} (λ d. d.next) self.now.devices) device ≡ Some result.now }
        ensures hears { (s : State) → Stands self.now s →
            IsSomeAnd (slice_get s.devices device) (λ d. Hears result.now d.channels d.accepted d.now) }
    {
        self.shared.devices[usize::from(device)].next()
    }

    /// The last frames of a device, which is there: what was captured up to its time.
    pub fn record_buffer(&self, device: u8) -> &RecordBuffer
        requires { device < length self.now.devices }
        ensures kept { slice_get (map {B = RecordWindow} (λ d. d.last) self.now.devices) device ≡ Some result.now }
        ensures keeps { (s : State) → Stands self.now s →
            IsSomeAnd (slice_get s.devices device) (λ d. Keeps result.now d.channels d.captured d.begin d.now) }
    {
        self.shared.devices[usize::from(device)].last()
    }

    /// The telephone line of a device, which is there. None where it has none.
    pub fn line(&self, device: u8) -> Option<&Line>
        requires { device < length self.now.devices }
        ensures kept { IsSomeAnd (slice_get self.now.devices device)
            (λ d. MatchOption result (d.line ≡ None) (λ line. d.line ≡ Some line.now)) }
        ensures shows { (s : State) → Stands self.now s → IsSomeAnd (slice_get s.devices device)
            (λ d. MatchOption result (d.line ≡ None) (λ line. d.line ≡ Some line.now)) }
    {
        self.shared.devices[usize::from(device)].kept_line()
    }

    /// The session of a link: what came in and was not read yet, and what was not sent yet. None where the link is not open.
    pub fn session(&self, link: u8) -> Option<&Session>
        ensures none { IsNone result ↔ (link_kept self.now link ≡ None) }
        ensures shows { (s : State) → Stands self.now s → MatchOption result ((slot_at link s).link ≡ None)
            (λ session. IsSomeAnd (slot_at link s).link (λ l. (session.now.rest ≡ l.rest) × (session.now.pending ≡ l.pending))) }
    {
        self.slots.get(usize::from(link))?.session()
    }

    /// The contexts of a link. None where the link is not open.
    pub fn contexts(&self, link: u8) -> Option<&Contexts>
        ensures none { IsNone result ↔ (link_kept self.now link ≡ None) }
        ensures shows { (s : State) → Stands self.now s → MatchOption result ((slot_at link s).link ≡ None)
            (λ contexts. IsSomeAnd (slot_at link s).link (λ l. contexts.now ≡ l.contexts)) }
    {
        self.slots.get(usize::from(link))?.contexts()
    }

    /// The links that wait, in the order in which they began to, with the frames that are left until each is due: 1 or more.
    pub fn waiting(&self) -> &Waiting
        ensures kept { result.now ≡ waits_of self.now.waits }
        ensures waits { (s : State) → Stands self.now s → StandForWaiting s.devices result.now s.waiting }
        ensures later { All (λ w. 0 < w.left) result.now }
    {
        self.shared.waits.order()
    }

    /// One turn: the wake with its effect, then each open link by rising number, and then the hooks of the devices' lines by
    /// rising number. It answers nothing and takes no memory. No link ever has more than 32768 bytes unread or 65168 to be sent.
    pub fn turn<W: World>(&mut self, wake: Wake, world: &mut W)
        requires { IsTrue (fits (outline_of self.old) wake) }
        ensures turns { Turns (W.log world.old) (W.log world.new) wake self.old self.new }
        ensures bounds { (k : ℕ) (l : LinkState) → link_kept self.new k ≡ Some l → IsBounded l }
        ensures leads { W.leads_to world.old world.new }
    {
        turn_parts(
            wake,
            &mut self.bounds,
            &mut self.shared,
            &mut self.slots,
            &mut self.scratch,
            world,
        );
    }
}
