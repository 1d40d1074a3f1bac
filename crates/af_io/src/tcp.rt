// Links over TCP. They pass on what their streams give and take, and count their faults. Their content is not observable.
ghost use Rattle.std.specs.Prelude.{◌≡◌, ◌≤◌, ◌<◌, ℕ, ◌∷◌, [], length, IsSome};
ghost use Rattle.std.specs.declared.option.Option.TheVariants.{None};
ghost use Rattle.af_limits.specs.Limits.{longest_address};
ghost use Rattle.af_io.specs.Observed.{Consumed, Appended, CountsOneFault, next_count};
ghost use Rattle.af_io.specs.Flow.{given_of, GotFits, Written};
ghost use Rattle.af_io.specs.Real.{LinkReads, LinkWrites};
ghost use Rattle.af_io.specs.Dial.{CountsDial, CountsHurt, GivesNext, AppendedBack, IsUnhurt, hurt_after};

use crate::dial::DialCounts;
use crate::faults::faults_after;
use crate::keepalive::keep_alive;
use crate::real::{read_some, write_whole};
use crate::{Dial, Dialed, Got, Link, Put, Reason};
use std::io::{ErrorKind, Read, Write};
use std::marker::Model;
use std::net::{Net, OpenStream, TcpStream};

/// A link over any stream. An interrupted call is made again, at most 1000 times, and then it is a fault, as every other
/// error is, and a write that takes nothing. The count of faults stands still at 2^64 - 1.
#[derive(Drop)]
pub struct TcpLink<S: Read + Write + Drop> {
    stream: S,
    faults: u64,
    reason: Option<Reason>,
}

impl<S: Read + Write + Drop> Model for TcpLink<S> {
    ghost use Rattle.af_io.specs.Real.{StreamState};

    ghost Value = { StreamState };

    ghost view = { λ a.
        record { remaining = S.Read.remaining a.stream; contents = S.Write.contents a.stream; faults = a.faults } };
}

impl<S: Read + Write + Drop> TcpLink<S> {
    /// Why a read or a write failed last, if one did.
    pub fn reason(&self) -> Option<Reason> {
        self.reason
    }
}

impl<S: Read + Write + Drop> Link for TcpLink<S> {
    ghost left = { λ _. None };

    ghost sent = { λ _. None };

    ghost faults = { λ link. link.faults };

    ghost reads = { LinkReads };

    ghost writes = { LinkWrites };

    fn read(&mut self, into: &mut [u8]) -> Got
        requires { 0 < length into.old }
        ensures bound { GotFits result (length into.new) None }
        ensures step { LinkReads self.old result into.new self.new }
    {
        let got = read_some(&mut self.stream, into, &mut self.reason);
        self.faults = faults_after(self.faults, got == Got::Failed);
        got
    }

    fn write(&mut self, piece: &[u8]) -> Put
        requires { 0 < length piece.now }
        ensures step { LinkWrites self.old piece.now result self.new }
    {
        let put = write_whole(&mut self.stream, piece, &mut self.reason);
        self.faults = faults_after(self.faults, put == Put::Failed);
        put
    }
}

/// Dials over TCP, by an address as `127.0.0.1:47113` or `localhost:47113`. A link that is given back is closed. The counts
/// stand still at 2^64 - 1.
#[derive(Drop)]
pub struct TcpDial<R: Net + Drop> {
    rt: R,
    counts: DialCounts,
    reason: Option<Reason>,
}

impl<R: Net + Drop> Model for TcpDial<R> {
    ghost use Rattle.af_io.specs.declared.dial.DialCounts.{DialCounts};

    ghost Value = { DialCounts };

    ghost view = { λ a. record { faults = a.counts.faults; hurt = a.counts.hurt } };
}

impl<R: Net + Drop> TcpDial<R> {
    /// A dial over the sockets of this runtime.
    pub fn new(rt: R) -> TcpDial<R>
        ensures { result ≡ record { faults = 0; hurt = 0 } }
    {
        TcpDial {
            rt,
            counts: DialCounts::new(),
            reason: None,
        }
    }

    /// Why a dial failed last, if one did.
    pub fn reason(&self) -> Option<Reason> {
        self.reason
    }
}

impl<R: Net + Drop> Dial for TcpDial<R> {
    type Far = TcpLink<R::Stream>;

    ghost faults = { λ dial. dial.faults };

    ghost hurt = { λ dial. dial.hurt };

    ghost asked = { λ _. None };

    ghost back = { λ _. None };

    ghost links = { λ _. None };

    ghost dials = { λ before _ answer after. CountsDial answer before after };

    ghost hangs_up = { λ before far after. after ≡ record before { hurt = hurt_after far.faults before.hurt } };

    fn dial(&mut self, address: &str) -> Dialed<TcpLink<R::Stream>>
        requires { (1 ≤ length address.now) × (length address.now ≤ longest_address) }
        ensures step { CountsDial result self.old self.new }
        ensures fresh { IsUnhurt (λ link. link.faults) result }
    {
        match TcpStream::connect(&self.rt, address) {
            Ok(stream) => {
                // A request is to leave at once. If the system refuses that, it leaves later.
                let _ = stream.set_nodelay(true);
                keep_alive(&stream);
                Dialed::Far(TcpLink {
                    stream,
                    faults: 0,
                    reason: None,
                })
            }
            Err(e) if e.kind() == ErrorKind::OutOfMemory => Dialed::OutOfMemory,
            Err(e) => {
                self.reason = Some(Reason::new(e));
                self.counts.faults = faults_after(self.counts.faults, true);
                Dialed::Failed
            }
        }
    }

    fn hang_up(&mut self, far: TcpLink<R::Stream>)
        ensures hurt { CountsHurt far.faults self.old.hurt self.new.hurt }
        ensures step { self.new ≡ record self.old { hurt = hurt_after far.faults self.old.hurt } }
    {
        self.counts.count_hurt(far.faults);
    }
}
