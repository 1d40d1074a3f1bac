// The real outside of a server: sockets, the clock of the system, and devices that are silent or have files, a codec or a program
// of their own as backend.
// Layout: `links` has a place for each of 32 numbers, with the key of the link's stream, and what is ready of it and was not
// given yet. The streams are under these keys in the slab of `sockets`, beside the poll and the listener. `devices` has the clock
// and the backend of each of 8 devices, and the one codec, which may be the backend of one. `lines` has their telephone lines.
// Faults of links, devices, listens and waits are counted apart. Contracts see these tables and counts. Of the sockets they see
// only whether there are any.
ghost use Rattle.std.specs.Prelude.{◌≡◌, ◌≤◌, ◌<◌, List, [], length, true, is_some, MatchOption};
ghost use Rattle.std.specs.declared.option.Option.{Option};
ghost use Rattle.std.specs.declared.option.Option.TheVariants.{None, Some};
ghost use Rattle.af_limits.specs.Limits.{longest_read, output_room};
ghost use Rattle.af_world.specs.World.{LinkGotFits, TookFits};
ghost use Rattle.af_codec.specs.Codec.{TellsThese};
ghost use Rattle.af_backend.specs.Backends.{backend_at, card_of};
ghost use Rattle.af_backend.specs.CardUse.{card_use};
ghost use Rattle.af_lines.specs.ExchangeUse.{exchange_use};
ghost use Rattle.af_lines.specs.HeldLines.{exchange_of, line_at};
ghost use Rattle.af_live.specs.Polls.{latest_poll};
ghost use Rattle.af_live.specs.Readings.{late_millis};
ghost use Rattle.af_live.specs.RealCalls.{RealAttaches, RealAttachesLine, RealCaptures, RealCloses, RealEmits, RealHooks, RealListens, RealReads, RealWaits, RealWrites};
ghost use Rattle.af_live.specs.RealWorld.{RealLeadsTo, begun_world, listens_after};
ghost use Rattle.af_live.specs.Streams.{HoldsOwn};
ghost use Rattle.af_live.specs.declared.link_table.LinkEntry.{LinkEntry};

use crate::counting::{count_got, count_put, count_ready, count_took, count_waited};
use crate::held_links::HeldLinks;
use crate::links::{close_link, read_link, write_link};
use crate::sockets::Sockets;
use crate::timer::Timer;
use crate::told_clock::ToldClock;
use crate::waking::{Step, answer, next_wake};
use af_backend::{Devices, NewDevice, refusal};
use af_card::Card;
use af_codec::Codec;
use af_exchange::Exchange;
use af_io::Put;
use af_lines::Lines;
use af_process::Spawner;
use af_program::{NoPrograms, Programs};
use af_world::{
    DeviceSpec, Kind, LineProgram, LinkGot, LinkTook, Live, Ready, Waited, Wake, Why, World,
};
use mio::net::TcpStream;
use std::alloc::Global;
use std::marker::Model;
use std::net::Net;
use std::rt::Files;

/// The real outside of a server. It listens at one address, whose links it numbers from 0, at most 32 at a time; a further one is
/// accepted and ended at once. Up to 8 devices go on by the clock of the system, or by that of their program.
///
/// A server's `main` makes one with `MioWorld::with_programs(rt.clone()?, rt.alloc(), spawner, programs)` and hands it, with its
/// arguments and its configuration, to the server: `listen` comes first, then an `attach` of each device, then a `wait` before
/// each turn.
///
/// It tells nothing of what happened. The counts of its faults stand still at 2^64 - 1.
#[derive(Drop)]
pub struct MioWorld<R: Net + ToldClock + Files + Drop, S: Spawner + Drop, G: Programs + Drop> {
    sockets: Option<Sockets>,
    links: HeldLinks,
    lines: Lines<G::Made>,
    timer: Timer,
    step: Step,
    link_faults: u64,
    device_faults: u64,
    listen_faults: u64,
    wait_faults: u64,
    rt: R,
    programs: G,
    devices: Devices<R::File, S, G::Made>,
}

impl<R: Net + ToldClock + Files + Drop, S: Spawner + Drop, G: Programs + Drop> Model
    for MioWorld<R, S, G> {
    ghost use Rattle.std.specs.Prelude.{is_some};
    ghost use Rattle.af_live.specs.Polls.{latest_poll};
    ghost use Rattle.af_live.specs.RealWorld.{RealState};
    ghost use Rattle.af_live.specs.Streams.{HoldsOwn};

    ghost Value = { RealState };

    ghost view = { λ w. record {
      listens = is_some w.sockets;
      links = w.links;
      poll = latest_poll w.sockets;
      clock = record { timer = w.timer; step = w.step; answers = R.answers w.rt };
      backends = w.devices.attached;
      codec = w.devices.codec;
      round = w.devices.round;
      lines = w.lines;
      link_faults = w.link_faults;
      device_faults = w.device_faults;
      listen_faults = w.listen_faults;
      wait_faults = w.wait_faults;
    } };

    ghost invariant = { λ w. HoldsOwn w.sockets w.links };
}

impl<R: Net + ToldClock + Files + Drop, S: Spawner + Drop> MioWorld<R, S, NoPrograms> {
    /// A world over the sockets, the files and the clock of this runtime, and over a spawner that tells of no act. No device has
    /// a program whose time it goes by. It takes no memory and asks nothing of the system.
    pub fn new(rt: R, alloc: Global, spawner: S) -> MioWorld<R, S, NoPrograms>
        requires { TellsThese [] (S.acts spawner) }
        ensures { result ≡ begun_world (S.acts spawner) (R.answers rt) }
    {
        MioWorld::with_programs(rt, alloc, spawner, NoPrograms)
    }
}

impl<R: Net + ToldClock + Files + Drop, S: Spawner + Drop, G: Programs + Drop> MioWorld<R, S, G> {
    /// A world over the sockets, the files and the clock of this runtime, over a spawner that tells of no act, and over these
    /// programs. It takes no memory and asks nothing of the system.
    pub fn with_programs(rt: R, alloc: Global, spawner: S, programs: G) -> MioWorld<R, S, G>
        requires { TellsThese [] (S.acts spawner) }
        ensures { result ≡ begun_world (S.acts spawner) (R.answers rt) }
    {
        MioWorld {
            sockets: None,
            links: HeldLinks::new(),
            lines: Lines::new(),
            timer: Timer::new(),
            step: Step::new(),
            link_faults: 0,
            device_faults: 0,
            listen_faults: 0,
            wait_faults: 0,
            rt,
            programs,
            devices: Devices::new(alloc, spawner),
        }
    }

    /// The codec, which takes the sound of the device that was attached with one.
    pub fn codec(&self) -> &Codec<S>
        ensures orders { result.now.orders ≡ self.now.codec.orders }
        ensures feeding { result.now.feeding ≡ self.now.codec.feeding }
        ensures acts { S.acts result.now.spawner ≡ self.now.codec.acts }
    {
        self.devices.codec.codec()
    }

    /// The device with its program, if this device goes by one.
    pub fn card(&self, device: u8) -> Option<&Card<G::Made>>
        ensures { MatchOption result (card_of (backend_at self.now.backends device) ≡ None)
            (λ card. card_of (backend_at self.now.backends device) ≡ Some (card_use G.Made.acts card.now)) }
    {
        self.devices.card(device)
    }

    /// The exchange of the telephone line of a device, if a program stands for it.
    pub fn exchange(&self, device: u8) -> Option<&Exchange<G::Made>>
        ensures { MatchOption result (exchange_of (line_at self.now.lines.lines device) ≡ None)
            (λ exchange. exchange_of (line_at self.now.lines.lines device) ≡ Some (exchange_use G.Made.acts exchange.now)) }
    {
        self.lines.exchange(device)
    }

    /// By how many milliseconds device time is late, by the latest step of the readings.
    pub fn late_millis(&self) -> u64
        ensures { result ≡ late_millis self.now.clock.step self.now.round.last }
    {
        self.step.late_millis(self.devices.round.last_reading())
    }

    /// What it listens with, if it does.
    pub fn sockets(&self) -> Option<&Sockets> {
        self.sockets.as_ref()
    }

    /// The stream of a link, if it is held.
    pub fn stream(&self, link: u8) -> Option<&TcpStream> {
        let key = self.links.get(link)?.key;
        self.sockets.as_ref()?.streams.get(key)
    }
}

impl<R: Net + ToldClock + Files + Drop, S: Spawner + Drop, G: Programs + Drop> World
    for MioWorld<R, S, G> {
    ghost use Rattle.af_live.specs.RealWorld.{RealLeadsTo-refl, RealLeadsTo-trans};

    ghost log = { λ _. None };

    ghost link_faults = { λ world. world.link_faults };

    ghost device_faults = { λ world. world.device_faults };

    ghost leads_to = { RealLeadsTo };

    ghost wakes = { λ old _ new. new ≡ old };

    ghost reads = { RealReads };

    ghost writes = { RealWrites };

    ghost closes = { λ old link _ new. RealCloses old link new };

    ghost captures = { λ old device _ answer into new. RealCaptures old device answer into new };

    ghost emits = { RealEmits };

    ghost hooks = { RealHooks };

    ghost leads_to_itself = { RealLeadsTo-refl };

    ghost leads_on = { RealLeadsTo-trans };

    ghost link_faults_stay = { λ _ _ leads. leads.link_faults };

    ghost device_faults_stay = { λ _ _ leads. leads.device_faults };

    fn woke(&mut self, _wake: Wake)
        ensures leads { RealLeadsTo self.old self.new }
        ensures step { self.new ≡ self.old }
    {}

    fn read(&mut self, link: u8, into: &mut [u8]) -> LinkGot
        requires { length into.old ≡ longest_read }
        ensures bound { LinkGotFits result (length into.new) }
        ensures leads { RealLeadsTo self.old self.new }
        ensures step { RealReads self.old link result into.new self.new }
    {
        let got = read_link(&mut self.sockets, &mut self.links, link, into);
        count_got(got, &mut self.link_faults);
        got
    }

    fn write(&mut self, link: u8, piece: &[u8]) -> LinkTook
        requires some { 0 < length piece.now }
        requires bound { length piece.now ≤ output_room }
        ensures bound { TookFits result (length piece.now) }
        ensures leads { RealLeadsTo self.old self.new }
        ensures step { RealWrites self.old link piece.now result self.new }
    {
        let took = write_link(&mut self.sockets, &mut self.links, link, piece);
        count_took(took, &mut self.link_faults);
        took
    }

    fn close(&mut self, link: u8, _why: Why)
        ensures leads { RealLeadsTo self.old self.new }
        ensures step { RealCloses self.old link self.new }
    {
        close_link(&mut self.sockets, &mut self.links, link);
    }

    fn capture(&mut self, device: u8, _frames: u32, into: &mut [u8]) -> Put
        requires { 0 < length into.old }
        ensures leads { RealLeadsTo self.old self.new }
        ensures step { RealCaptures self.old device result into.new self.new }
    {
        let put = self.devices.capture(device, into);
        count_put(put, &mut self.device_faults);
        put
    }

    fn emit(&mut self, device: u8, sound: &[u8]) -> Put
        requires { 0 < length sound.now }
        ensures leads { RealLeadsTo self.old self.new }
        ensures step { RealEmits self.old device sound.now result self.new }
    {
        let put = self.devices.emit(device, sound);
        count_put(put, &mut self.device_faults);
        put
    }

    fn hook(&mut self, device: u8, off: bool) -> Put
        ensures leads { RealLeadsTo self.old self.new }
        ensures step { RealHooks self.old device off result self.new }
    {
        let at = self.timer.moment(&mut self.rt);
        let put = self.lines.hook(device, off, at);
        count_put(put, &mut self.device_faults);
        put
    }
}

impl<R: Net + ToldClock + Files + Drop, S: Spawner + Drop, G: Programs + Drop> Live
    for MioWorld<R, S, G> {
    ghost listen_faults = { λ world. world.listen_faults };

    ghost listens = { λ old _ answer new. RealListens old answer new };

    ghost attaches = { RealAttaches };

    ghost attaches_line = { RealAttachesLine };

    ghost waits = { RealWaits };

    ghost wait_faults = { λ world. world.wait_faults };

    ghost lifecycle = { λ _. None };

    ghost listen_faults_apart = { λ _ _ leads. leads.listen_faults };

    ghost wait_faults_apart = { λ _ _ leads. leads.wait_faults };

    ghost lifecycle_apart = { λ _ _ _. tt };

    ghost tells_both = { λ _ told. told };

    fn listen(&mut self, alloc: Global, address: &str) -> Ready
        ensures step { RealListens self.old result self.new }
    {
        let listened = begin_to_listen(&self.rt, alloc, address, &mut self.sockets);
        count_ready(listened, &mut self.listen_faults);
        listened
    }

    fn attach(&mut self, alloc: Global, device: u8, spec: &DeviceSpec, kind: Kind<'_>) -> Ready
        ensures step { RealAttaches self.old device spec.now kind.entry result self.new }
    {
        let asked = NewDevice {
            alloc,
            number: device,
            spec,
            kind,
            at: self.timer.moment(&mut self.rt),
        };
        let attached = self.devices.attach(&self.rt, &mut self.programs, asked);
        self.lines.note_attach(attached, device, spec.line);
        count_ready(attached, &mut self.device_faults);
        attached
    }

    fn attach_line(&mut self, alloc: Global, device: u8, program: LineProgram<'_>) -> Ready
        ensures step { RealAttachesLine self.old device program.entry result self.new }
    {
        let at = self.timer.moment(&mut self.rt);
        let attached = self
            .lines
            .attach(alloc, &mut self.programs, device, program, at);
        count_ready(attached, &mut self.device_faults);
        attached
    }

    fn wait(&mut self, more: bool) -> Waited
        ensures step { RealWaits self.old more result self.new }
    {
        let next = next_wake(
            &mut self.rt,
            more,
            &mut self.sockets,
            &mut self.links,
            &mut self.devices,
            &mut self.lines,
            &mut self.timer,
            &mut self.step,
        );
        let waited = answer(next);
        count_waited(waited, &mut self.wait_faults);
        waited
    }
}

/// Listens, if it does not yet.
fn begin_to_listen<R: Net>(
    rt: &R,
    alloc: Global,
    address: &str,
    sockets: &mut Option<Sockets>,
) -> Ready
    ensures listens { is_some sockets.new ≡ listens_after result (is_some sockets.old) }
    ensures again { is_some sockets.old ≡ true → result ≡ Ready.Failed }
    ensures poll { latest_poll sockets.new ≡ latest_poll sockets.old }
    ensures own { (links : List (Option LinkEntry)) → HoldsOwn sockets.old links → HoldsOwn sockets.new links }
{
    if sockets.is_some() {
        return Ready::Failed;
    }
    match Sockets::listen(rt, alloc, address) {
        Ok(made) => {
            *sockets = Some(made);
            Ready::Done
        }
        Err(e) => refusal(&e),
    }
}
