// The world of sockets, files and programs of the system, with a log.
ghost use Rattle.std.specs.Prelude.{◌≡◌};
ghost use Rattle.std.specs.declared.option.Option.TheVariants.{None};
ghost use Rattle.af_live.specs.RealWorld.{begun_world};

use crate::listening::{ListenRefusal, listen_refusal};
use crate::program_lines::ProgramLines;
use crate::{Log, Logged, LoggedSpawner, Sight, WatchedPrograms, WatchedRuntime};
use af_deadline::DeadlineRuntime;
use af_io::Put;
use af_limits::MOST_DEVICES;
use af_live::MioWorld;
use af_process::StdSpawner;
use af_world::{
    DeviceSpec, Kind, LineProgram, LinkGot, LinkTook, Live, Ready, Waited, Wake, Why, World,
};
use std::alloc::Global;
use std::net::SocketAddr;

/// The child programs of a codec, which hold nobody up.
type ChildPrograms<'a> = DeadlineRuntime<'a, WatchedRuntime<'a, HostRuntime>, HostRuntime>;

/// The world below, by all that it is made of.
type SystemWorld<'a> = MioWorld<
    WatchedRuntime<'a, HostRuntime>,
    LoggedSpawner<'a, StdSpawner<ChildPrograms<'a>>>,
    WatchedPrograms<'a>,
>;

/// The world of sockets, files and programs of the system. Each of its calls is that call of the `MioWorld` below. Its type has a
/// name of its own, since a prover that writes out what the world is made of does not come to an end.
#[derive(Drop)]
pub struct RealWorld<'a> {
    world: SystemWorld<'a>,
}

/// What is to be seen of it, with the runtime that is asked why it refused to listen.
#[derive(Drop)]
pub struct RealSight<'a> {
    rt: &'a HostRuntime,
}

impl<'a> RealWorld<'a> {
    /// The world of this runtime, whose refusals this log is told. It takes no memory and asks nothing of the system.
    fn new(rt: &'a HostRuntime, log: &'a Log<'a>) -> RealWorld<'a>
        ensures { result.world ≡ begun_world None None }
    {
        let programs = DeadlineRuntime::new(WatchedRuntime::new(rt, log), rt, log.late());
        let spawner = LoggedSpawner::new(StdSpawner::new(programs), log);
        let watched = WatchedRuntime::new(rt, log);
        let programs = WatchedPrograms::new(rt, log);
        RealWorld {
            world: MioWorld::with_programs(watched, rt.alloc(), spawner, programs),
        }
    }
}

/// The world of sockets, files and programs of this runtime, which tells in this log what it does. It takes no memory and asks
/// nothing of the system.
pub fn logged_world<'a>(
    rt: &'a HostRuntime,
    log: &'a Log<'a>,
) -> Logged<'a, RealWorld<'a>, RealSight<'a>>
    ensures { result.world.world ≡ begun_world None None }
{
    Logged::new(RealWorld::new(rt, log), RealSight { rt }, log)
}

impl World for RealWorld<'_> {
    ghost use Rattle.af_live.specs.RealWorld.{RealLeadsTo, RealLeadsTo-refl, RealLeadsTo-trans};
    ghost use Rattle.af_live.specs.RealCalls.{RealCaptures, RealCloses, RealEmits, RealHooks, RealReads, RealWrites};

    ghost log = { λ _. None };

    ghost link_faults = { λ real. real.world.link_faults };

    ghost device_faults = { λ real. real.world.device_faults };

    ghost leads_to = { λ old new. RealLeadsTo old.world new.world };

    ghost wakes = { λ old _ new. new.world ≡ old.world };

    ghost reads = { λ old link answer into new. RealReads old.world link answer into new.world };

    ghost writes = { λ old link piece answer new. RealWrites old.world link piece answer new.world };

    ghost closes = { λ old link _ new. RealCloses old.world link new.world };

    ghost captures = { λ old device _ answer into new. RealCaptures old.world device answer into new.world };

    ghost emits = { λ old device sound answer new. RealEmits old.world device sound answer new.world };

    ghost hooks = { λ old device off answer new. RealHooks old.world device off answer new.world };

    ghost leads_to_itself = { λ a. RealLeadsTo-refl a.world };

    ghost leads_on = { λ a b c. RealLeadsTo-trans a.world b.world c.world };

    ghost link_faults_stay = { λ _ _ leads. leads.link_faults };

    ghost device_faults_stay = { λ _ _ leads. leads.device_faults };

    fn woke(&mut self, wake: Wake) {
        self.world.woke(wake);
    }

    fn read(&mut self, link: u8, into: &mut [u8]) -> LinkGot {
        self.world.read(link, into)
    }

    fn write(&mut self, link: u8, piece: &[u8]) -> LinkTook {
        self.world.write(link, piece)
    }

    fn close(&mut self, link: u8, why: Why) {
        self.world.close(link, why);
    }

    fn capture(&mut self, device: u8, frames: u32, into: &mut [u8]) -> Put {
        self.world.capture(device, frames, into)
    }

    fn emit(&mut self, device: u8, sound: &[u8]) -> Put {
        self.world.emit(device, sound)
    }

    fn hook(&mut self, device: u8, off: bool) -> Put {
        self.world.hook(device, off)
    }
}

impl Live for RealWorld<'_> {
    ghost use Rattle.af_live.specs.RealCalls.{RealAttaches, RealAttachesLine, RealListens, RealWaits};

    ghost listen_faults = { λ real. real.world.listen_faults };

    ghost wait_faults = { λ real. real.world.wait_faults };

    ghost lifecycle = { λ _. None };

    ghost listens = { λ old _ answer new. RealListens old.world answer new.world };

    ghost attaches = { λ old device spec kind answer new. RealAttaches old.world device spec kind answer new.world };

    ghost attaches_line = { λ old device program answer new. RealAttachesLine old.world device program answer new.world };

    ghost waits = { λ old more answer new. RealWaits old.world more answer new.world };

    ghost listen_faults_apart = { λ _ _ leads. leads.listen_faults };

    ghost wait_faults_apart = { λ _ _ leads. leads.wait_faults };

    ghost lifecycle_apart = { λ _ _ _. tt };

    ghost tells_both = { λ _ told. told };

    fn listen(&mut self, alloc: Global, address: &str) -> Ready {
        self.world.listen(alloc, address)
    }

    fn attach(&mut self, alloc: Global, device: u8, spec: &DeviceSpec, kind: Kind<'_>) -> Ready {
        self.world.attach(alloc, device, spec, kind)
    }

    fn attach_line(&mut self, alloc: Global, device: u8, program: LineProgram<'_>) -> Ready {
        self.world.attach_line(alloc, device, program)
    }

    fn wait(&mut self, more: bool) -> Waited {
        self.world.wait(more)
    }
}

impl<'a> Sight<RealWorld<'a>> for RealSight<'a> {
    fn address(&self, world: &RealWorld<'a>) -> Option<SocketAddr> {
        world.world.sockets()?.listener.local_addr().ok()
    }

    fn refusal(&self, address: &str) -> ListenRefusal {
        listen_refusal(self.rt, address)
    }

    fn peer(&self, world: &RealWorld<'a>, link: u8) -> Option<SocketAddr> {
        world.world.stream(link)?.peer_addr().ok()
    }

    fn turned_away(&self, world: &RealWorld<'a>) -> u64 {
        match world.world.sockets() {
            Some(sockets) => sockets.turned_away,
            None => 0,
        }
    }

    fn was_left(&self, world: &RealWorld<'a>) -> bool {
        match world.world.sockets() {
            Some(sockets) => sockets.was_left,
            None => false,
        }
    }

    fn late_millis(&self, world: &RealWorld<'a>) -> u64 {
        world.world.late_millis()
    }

    fn has_exchange(&self, world: &RealWorld<'a>, device: u8) -> bool {
        world.world.exchange(device).is_some()
    }

    fn tell_programs(&self, world: &RealWorld<'a>, log: &Log<'_>, told: &mut ProgramLines) {
        for device in 0..MOST_DEVICES as u8 {
            if let Some(card) = world.world.card(device) {
                told.tell_card(log, device, card);
            }
            if let Some(exchange) = world.world.exchange(device) {
                told.tell_line(log, device, exchange);
            }
        }
    }
}
