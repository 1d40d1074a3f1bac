// A world that tells in a log what it does.
ghost use Rattle.std.specs.Prelude.{◌≡◌};

use crate::Log;
use crate::device_words::DeviceWords;
use crate::level::Level;
use crate::line_words::{LineWords, tell_change, tell_hook};
use crate::listening::ListenRefusal;
use crate::program_lines::ProgramLines;
use crate::sight::Sight;
use af_io::Put;
use af_process::Words;
use af_world::{
    DeviceSpec, Kind, LineProgram, LinkGot, LinkTook, Live, Ready, Waited, Wake, Why, World,
};
use std::alloc::Global;

/// By how many milliseconds device time may be late before that is told.
const MOST_LATE_MILLIS: u64 = 100;

/// A world that is watched: it tells in a log at which address the world below listens, what the devices are, what the programs
/// of devices do, who connects, why a link is closed and why a device has died. Each of its calls is that call of the world
/// below.
#[derive(Drop)]
pub struct Logged<'a, W: World + Live + Drop, V: Sight<W> + Drop> {
    world: W,
    sight: V,
    log: &'a Log<'a>,
    turned_away: u64,
    refusal: Option<ListenRefusal>,
    // whether a device or a telephone line was to have a program
    has_programs: bool,
    programs: ProgramLines,
}

impl<'a, W: World + Live + Drop, V: Sight<W> + Drop> Logged<'a, W, V> {
    /// A world over another, of which this sight shows what the log tells.
    pub fn new(world: W, sight: V, log: &'a Log<'a>) -> Logged<'a, W, V>
        ensures { result.world ≡ world }
    {
        Logged {
            world,
            sight,
            log,
            turned_away: 0,
            refusal: None,
            has_programs: false,
            programs: ProgramLines::new(),
        }
    }

    /// The world below it.
    pub fn world(&self) -> &W
        ensures { result.now ≡ self.now.world }
    {
        &self.world
    }

    /// Why the last listen failed, if one did and lines are wanted.
    pub fn listen_refusal(&self) -> Option<ListenRefusal> {
        self.refusal
    }

    /// Tells what the programs of devices and of telephone lines have done.
    fn tell_programs(&mut self)
        ensures { self.new.world ≡ self.old.world }
    {
        if self.log.is_wanted() {
            self.sight
                .tell_programs(&self.world, self.log, &mut self.programs);
        }
    }

    /// Tells how many connections were turned away since the last time, and how many lines were left out.
    fn tell_turned_away(&mut self)
        ensures { self.new.world ≡ self.old.world }
    {
        if !self.log.is_wanted() {
            return;
        }
        self.log.catch_up();
        let turned_away = self.sight.turned_away(&self.world);
        let count = turned_away.saturating_sub(self.turned_away);
        // those for whom the log has no room now are told with the next ones
        if count > 0
            && self.log.try_connection_line(format_args!(
                "{count} turned away: all 32 connections are in use"
            ))
        {
            self.turned_away = turned_away;
        }
    }

    /// Tells how late device time is, once it can be heard.
    fn tell_late(&self) {
        if self.log.is_wanted() {
            let late = self.sight.late_millis(&self.world);
            if late > MOST_LATE_MILLIS {
                self.log.tell_late(late);
            }
        }
    }
}

impl<W: World + Live + Drop, V: Sight<W> + Drop> World for Logged<'_, W, V> {
    ghost log = { λ logged. W.World.log logged.world };

    ghost link_faults = { λ logged. W.World.link_faults logged.world };

    ghost device_faults = { λ logged. W.World.device_faults logged.world };

    ghost leads_to = { λ before after. W.World.leads_to before.world after.world };

    ghost wakes = { λ before wake after. W.World.wakes before.world wake after.world };

    ghost reads = { λ before link answer into after. W.World.reads before.world link answer into after.world };

    ghost writes = { λ before link piece answer after. W.World.writes before.world link piece answer after.world };

    ghost closes = { λ before link why after. W.World.closes before.world link why after.world };

    ghost captures = { λ before device frames answer into after.
        W.World.captures before.world device frames answer into after.world };

    ghost emits = { λ before device sound answer after. W.World.emits before.world device sound answer after.world };

    ghost hooks = { λ before device off answer after. W.World.hooks before.world device off answer after.world };

    ghost leads_to_itself = { λ a. W.World.leads_to_itself a.world };

    ghost leads_on = { λ a b c. W.World.leads_on a.world b.world c.world };

    ghost link_faults_stay = { λ a b. W.World.link_faults_stay a.world b.world };

    ghost device_faults_stay = { λ a b. W.World.device_faults_stay a.world b.world };

    fn woke(&mut self, wake: Wake) {
        self.world.woke(wake);
        match wake {
            Wake::Opened(link) => tell_opened(&self.world, &self.sight, self.log, link),
            Wake::Line(device, change) => tell_change(self.log, device, change),
            _ => {}
        }
    }

    fn read(&mut self, link: u8, into: &mut [u8]) -> LinkGot {
        self.world.read(link, into)
    }

    fn write(&mut self, link: u8, piece: &[u8]) -> LinkTook {
        self.world.write(link, piece)
    }

    fn close(&mut self, link: u8, why: Why) {
        self.world.close(link, why);
        let was_left = why == Why::LinkFault && self.sight.was_left(&self.world);
        tell_closed(self.log, link, if was_left { Why::Ended } else { why });
    }

    fn capture(&mut self, device: u8, frames: u32, into: &mut [u8]) -> Put {
        let put = self.world.capture(device, frames, into);
        if put == Put::Failed {
            tell_dead(self.log, device, "and is silent from now on");
        }
        put
    }

    fn emit(&mut self, device: u8, sound: &[u8]) -> Put {
        let put = self.world.emit(device, sound);
        if put == Put::Failed {
            tell_dead(self.log, device, "and is silent from now on");
        }
        put
    }

    fn hook(&mut self, device: u8, off: bool) -> Put {
        let put = self.world.hook(device, off);
        if put == Put::Failed {
            tell_dead(self.log, device, "and its line takes no hook call any more");
        } else if self.sight.has_exchange(&self.world, device) {
            tell_hook(self.log, device, off);
        }
        put
    }
}

impl<W: World + Live + Drop, V: Sight<W> + Drop> Live for Logged<'_, W, V> {
    ghost listen_faults = { λ logged. W.Live.listen_faults logged.world };

    ghost wait_faults = { λ logged. W.Live.wait_faults logged.world };

    ghost lifecycle = { λ logged. W.Live.lifecycle logged.world };

    ghost listens = { λ before address answer after. W.Live.listens before.world address answer after.world };

    ghost attaches = { λ before device spec kind answer after. W.Live.attaches before.world device spec kind answer after.world };

    ghost attaches_line = { λ before device program answer after.
        W.Live.attaches_line before.world device program answer after.world };

    ghost waits = { λ before more answer after. W.Live.waits before.world more answer after.world };

    ghost listen_faults_apart = { λ a b. W.Live.listen_faults_apart a.world b.world };

    ghost wait_faults_apart = { λ a b. W.Live.wait_faults_apart a.world b.world };

    ghost lifecycle_apart = { λ a b. W.Live.lifecycle_apart a.world b.world };

    ghost tells_both = { λ a. W.Live.tells_both a.world };

    fn listen(&mut self, alloc: Global, address: &str) -> Ready {
        let ready = self.world.listen(alloc, address);
        if self.log.is_wanted() {
            match ready {
                Ready::Done => tell_listening(&self.world, &self.sight, self.log),
                Ready::Failed => self.refusal = Some(self.sight.refusal(address)),
                Ready::OutOfMemory => {}
            }
        }
        ready
    }

    fn attach(&mut self, alloc: Global, device: u8, spec: &DeviceSpec, kind: Kind<'_>) -> Ready {
        self.log.attaches(device, kind);
        let words = DeviceWords {
            number: device,
            spec,
            kind,
        };
        self.log.line(Level::Information, words);
        let ready = self.world.attach(alloc, device, spec, kind);
        if let Kind::Card { words, .. } = kind {
            self.has_programs = true;
            if ready == Ready::Failed {
                note_program(self.log, words);
            }
        }
        self.tell_programs();
        ready
    }

    fn attach_line(&mut self, alloc: Global, device: u8, program: LineProgram<'_>) -> Ready {
        let words = LineWords {
            number: device,
            program,
        };
        self.log.line(Level::Information, words);
        self.has_programs = true;
        let ready = self.world.attach_line(alloc, device, program);
        if ready == Ready::Failed {
            note_program(self.log, program.words);
        }
        self.tell_programs();
        ready
    }

    fn wait(&mut self, more: bool) -> Waited {
        let waited = self.world.wait(more);
        self.tell_turned_away();
        self.tell_late();
        if self.has_programs {
            self.tell_programs();
        }
        waited
    }
}

/// Tells at which address a world listens.
fn tell_listening<W, V: Sight<W>>(world: &W, sight: &V, log: &Log<'_>) {
    if let Some(address) = sight.address(world) {
        log.line(Level::Information, format_args!("listening at {address}"));
    }
}

/// Tells who connected.
fn tell_opened<W, V: Sight<W>>(world: &W, sight: &V, log: &Log<'_>, link: u8) {
    if !log.is_wanted() {
        return;
    }
    match sight.peer(world, link) {
        Some(peer) => log.connection_line(format_args!("connection {link} from {peer}")),
        None => log.connection_line(format_args!("connection {link} from a peer that is gone")),
    }
}

/// Tells why a link is closed.
fn tell_closed(log: &Log<'_>, link: u8, why: Why) {
    let cause = match why {
        Why::BadSetup => "it did not begin with a setup",
        Why::Malformed => "it sent a malformed request",
        Why::Ended => "the client closed its connection",
        Why::LinkFault => "reading from it or writing to it failed",
        Why::Overrun => "too many events waited for it",
    };
    log.connection_line(format_args!("connection {link} closed: {cause}"));
}

/// Tells why a device has died.
fn tell_dead(log: &Log<'_>, device: u8, what: &str) {
    match log.take_reason() {
        Some(reason) => log.line(
            Level::Error,
            format_args!("device {device} failed {what}: {reason}"),
        ),
        None => log.line(Level::Error, format_args!("device {device} failed {what}")),
    }
}

/// Notes which program the system refused, for a device or a telephone line that could not be attached.
fn note_program(log: &Log<'_>, words: &Words) {
    if let Some(name) = words.first()
        && let Some(reason) = log.take_reason()
    {
        log.note_refusal(name.as_str(), reason);
    }
}
