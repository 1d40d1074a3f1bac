// A listener, and the links that came in by it. Nothing here blocks.
ghost use Rattle.std.specs.Prelude.{◌≡◌, ◌≤◌, [], true, false, IfOk, OnErr};
ghost use Rattle.std.specs.Io.{ReadsAtMost, WritesAtMost};
ghost use Rattle.mio.specs.Events.{items};
ghost use Rattle.slab.specs.Slab.{Updates};
ghost use Rattle.std.specs.declared.option.Option.TheVariants.{None, Some};
ghost use Rattle.af_live.specs.Polls.{all_noted, latest_poll, no_poll, readiness_of, PollsTo, TakesAll, TakesIn};
ghost use Rattle.af_live.specs.Streams.{SameHeld};

use crate::held_links::HeldLinks;
use crate::link_table::Readiness;
use crate::turned_away::TurnedAway;
use af_io::keep_alive;
use af_limits::{MOST_DEVICES, MOST_LINKS};
use af_program::ProgramSockets;
use mio::event::Event;
use mio::net::{TcpListener, TcpStream};
use mio::unix::SourceFd;
use mio::{Events, Interest, Poll, Registry, Token};
use slab::Slab;
use std::alloc::Global;
use std::io::{self, ErrorKind, Read, Write};
use std::net::{Net, ToSocketAddrs};
use std::time::Duration;

/// The listener's token. Those of the links are their numbers.
const LISTENER: Token = Token(MOST_LINKS);

/// The token of the programs of devices. Their events end a poll, and the devices are asked in any case.
const PROGRAMS: Token = Token(MOST_LINKS + 1);

/// How many events one poll takes. Those that are left come with the next.
const EVENTS_A_POLL: usize = 64;

/// How many connections are accepted after one poll. Those that are left are accepted after the next.
const MOST_ACCEPTS: u32 = 64;

/// The sockets of the links of a world that listens.
#[derive(Drop)]
pub struct Sockets {
    poll: Poll,
    pub(crate) events: Events<Global>,
    /// How long the latest poll was to wait at most.
    pub(crate) pause: Duration,
    pub listener: TcpListener,
    /// How many connections came while all numbers were taken. The count stands still at 2^64 - 1.
    pub turned_away: u64,
    /// Whether the link that failed last did so since its client had closed the connection. What it had not read was lost then.
    pub was_left: bool,
    /// Whether connections may wait: their event comes once, and not for each.
    waiting: bool,
    pub(crate) streams: Slab<TcpStream>,
    leaving: TurnedAway,
    /// How many starts the program of each device had as its sockets came to the poll.
    watched: [u32; MOST_DEVICES],
}

impl Sockets {
    /// Listens at the first address of a text that the system grants. All memory that the links will ever need is taken here.
    pub fn listen<R: Net>(rt: &R, alloc: Global, address: &str) -> io::Result<Sockets>
        ensures { IfOk result (λ sockets. latest_poll (Some sockets) ≡ no_poll) }
    {
        let poll = Poll::new(rt)?;
        let events = Events::with_capacity(alloc, EVENTS_A_POLL)?;
        let streams = Slab::with_capacity(alloc, MOST_LINKS)?;
        let mut listener = bind(rt, address)?;
        poll.registry()
            .register(&mut listener, LISTENER, Interest::READABLE)?;
        Ok(Sockets {
            poll,
            events,
            pause: Duration::ZERO,
            listener,
            turned_away: 0,
            was_left: false,
            waiting: false,
            streams,
            leaving: TurnedAway::new(),
            watched: [0; MOST_DEVICES],
        })
    }

    /// Whether a link is held.
    pub(crate) fn has_links(&self) -> bool {
        self.streams.len() > 0
    }

    /// Has the poll look at the sockets of the program of a device too, once for each of its starts. They leave the poll as they
    /// are closed. Where the system refuses, the device is asked as often as a poll waits at most.
    pub(crate) fn watch(&mut self, device: usize, starts: u32, ends: ProgramSockets)
        ensures streams { self.new.streams ≡ self.old.streams }
    {
        if self.watched.get(device) == Some(&starts) {
            return;
        }
        if let Some(watched) = self.watched.get_mut(device) {
            *watched = starts;
        }
        let registry = self.poll.registry();
        if let Some(input) = ends.input {
            let _ = registry.register(&mut SourceFd(&input), PROGRAMS, Interest::WRITABLE);
        }
        if let Some(output) = ends.output {
            let _ = registry.register(&mut SourceFd(&output), PROGRAMS, Interest::READABLE);
        }
    }

    /// Asks the system what is ready, and waits for that as long as this pause at most.
    fn ask(&mut self, pause: Duration) -> io::Result<()>
        ensures pause { self.new.pause ≡ pause }
        ensures streams { self.new.streams ≡ self.old.streams }
        ensures refused { OnErr result (items self.new.events ≡ []) }
    {
        self.pause = pause;
        self.poll.poll(&mut self.events, Some(pause))
    }

    /// Waits for at most so long until something is ready, and notes it. Each link has a new share then. New links are accepted,
    /// at this reading of the clock. The answer is whether the system could be asked; a signal is no refusal.
    pub(crate) fn poll(&mut self, pause: Duration, now: u64, links: &mut HeldLinks) -> bool
        ensures pause { self.new.pause ≡ pause }
        ensures polls { result ≡ true →
            PollsTo (items self.new.events) self.old.streams links.old self.new.streams links.new }
        ensures refused { result ≡ false → links.new ≡ links.old }
        ensures streams { result ≡ false → self.new.streams ≡ self.old.streams }
    {
        match self.ask(pause) {
            Ok(()) => {}
            Err(e) if e.kind() == ErrorKind::Interrupted => {}
            Err(_) => return false,
        }
        links.renew_all();
        if note_events(&self.events, links) {
            self.waiting = true;
        }
        self.leaving.close_old(now);
        if self.waiting {
            self.accept_all(now, links);
        }
        true
    }

    /// Accepts the connections that wait. Where the system refuses one for the time being, as with no descriptor left, those that
    /// wait are tried again after the next poll.
    fn accept_all(&mut self, now: u64, links: &mut HeldLinks)
        ensures takes { TakesAll self.old.streams links.old self.new.streams links.new }
        ensures pause { self.new.pause ≡ self.old.pause }
        ensures events { self.new.events ≡ self.old.events }
    {
        for _ in 0..MOST_ACCEPTS {
            match self.listener.accept() {
                Ok((stream, _)) => self.take_in(stream, now, links),
                Err(e) => match e.kind() {
                    ErrorKind::Interrupted | ErrorKind::ConnectionAborted => {}
                    kind => {
                        self.waiting = kind != ErrorKind::WouldBlock;
                        return;
                    }
                },
            }
        }
    }

    /// Holds a new link under the least number that is free. If none is, it is turned away; if the system does not watch it, it
    /// is closed.
    fn take_in(&mut self, mut stream: TcpStream, now: u64, links: &mut HeldLinks)
        ensures takes { TakesIn self.old.streams links.old self.new.streams links.new }
        ensures pause { self.new.pause ≡ self.old.pause }
        ensures events { self.new.events ≡ self.old.events }
    {
        let Some(number) = links.least_free() else {
            self.turned_away = self.turned_away.saturating_add(1);
            self.leaving.turn_away(stream, now);
            return;
        };
        // there is room wherever a number is free
        if self.streams.len() >= self.streams.capacity() {
            return;
        }
        // An answer is to leave at once. If the system refuses that, it leaves later.
        let _ = stream.set_nodelay(true);
        keep_alive(&stream);
        if self
            .poll
            .registry()
            .register(&mut stream, Token(number), of_reads())
            .is_err()
        {
            return;
        }
        let key = self.streams.insert_reserved(stream);
        links.hold(number, key);
    }

    /// Reads what has come by a link, at least one byte, or none at its end.
    pub fn read(&mut self, key: usize, into: &mut [u8]) -> io::Result<usize>
        ensures count { ReadsAtMost result into.new }
        ensures streams { SameHeld self.old.streams self.new.streams }
        ensures poll { latest_poll (Some self.new) ≡ latest_poll (Some self.old) }
    {
        let read = match self.streams.get_mut(key) {
            Some(stream) => stream.read(into),
            None => Err(ErrorKind::NotConnected.into()),
        };
        self.was_left = is_left(&read);
        read
    }

    /// Hands the first bytes of a piece to a link, as many as it takes. Where it takes less than all, the system tells when it
    /// takes something again.
    pub fn write(&mut self, key: usize, link: u8, piece: &[u8]) -> io::Result<usize>
        ensures count { WritesAtMost result piece.now }
        ensures streams { SameHeld self.old.streams self.new.streams }
        ensures poll { latest_poll (Some self.new) ≡ latest_poll (Some self.old) }
    {
        let written = match self.streams.get_mut(key) {
            Some(stream) => offer(stream, self.poll.registry(), link, piece),
            None => Err(ErrorKind::NotConnected.into()),
        };
        self.was_left = is_left(&written);
        written
    }

    /// Closes a link.
    pub fn close(&mut self, key: usize)
        ensures poll { latest_poll (Some self.new) ≡ latest_poll (Some self.old) }
        ensures streams { Updates self.old.streams self.new.streams key None }
    {
        if let Some(mut stream) = self.streams.try_remove(key) {
            // closing it takes it out of the poll in any case
            let _ = self.poll.registry().deregister(&mut stream);
        }
    }
}

/// Listens at the first address of a text that the system grants.
fn bind<R: Net>(rt: &R, address: &str) -> io::Result<TcpListener> {
    let mut last = ErrorKind::AddrNotAvailable.into();
    for address in address.to_socket_addrs(rt)? {
        match TcpListener::bind(rt, address) {
            Ok(listener) => return Ok(listener),
            Err(e) => last = e,
        }
    }
    Err(last)
}

/// What the system tells of a link until a write is cut short.
fn of_reads() -> Interest {
    Interest::READABLE | Interest::PRIORITY
}

/// Whether the system refused a read or a write since the other side has closed the connection.
fn is_left(asked: &io::Result<usize>) -> bool {
    match asked {
        Ok(_) => false,
        Err(e) => matches!(e.kind(), ErrorKind::ConnectionReset | ErrorKind::BrokenPipe),
    }
}

/// Whether the system took less than all of a piece of so many bytes, and can tell when it takes more.
fn is_short(written: &io::Result<usize>, piece: usize) -> bool {
    match written {
        Ok(count) => *count < piece,
        Err(e) => e.kind() == ErrorKind::WouldBlock,
    }
}

/// Hands the first bytes of a piece to a stream. Once a write is cut short, the system is to tell of room: else each event of
/// bytes that came would tell of room too.
fn offer(stream: &mut TcpStream, registry: &Registry, link: u8, piece: &[u8]) -> io::Result<usize>
    ensures { WritesAtMost result piece.now }
{
    let written = stream.write(piece);
    if is_short(&written, piece.len()) {
        let token = Token(usize::from(link));
        registry.reregister(stream, token, of_reads() | Interest::WRITABLE)?;
    }
    written
}

/// What an event tells of its link.
fn told_by(event: &Event) -> Readiness
    ensures { result ≡ readiness_of event.now }
{
    let ends = event.is_read_closed() || event.is_error();
    Readiness {
        may_read: event.is_readable() || ends,
        may_write: event.is_writable() || event.is_write_closed() || event.is_error(),
        // the end and a fault come after the last bytes, and a read stops at an urgent byte
        hides: ends || event.is_priority(),
    }
}

/// Notes what is ready of the links. The answer is whether connections wait.
fn note_events(events: &Events<Global>, links: &mut HeldLinks) -> bool
    ensures { links.new ≡ all_noted (items events.now) links.old }
{
    let mut waiting = false;
    for event in events {
        let Token(number) = event.token();
        if number == LISTENER.0 {
            waiting = true;
        } else {
            links.note(number, told_by(event));
        }
    }
    waiting
}
