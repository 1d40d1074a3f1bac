// A dial and its links. What goes over them is watched.
ghost use Rattle.std.specs.Prelude.{◌≡◌};
ghost use Rattle.af_io.specs.Dial.{dialed_over};

use crate::due::tell_due;
use crate::reasons::TellsReason;
use crate::relay::tell_minute;
use crate::talk::{Address, Talk};
use af_io::{Dial, Dialed, Got, Link, Put, Reason};

/// A link that is watched: it follows what is said on the link below it. Each of its calls is that call of the link below. If it
/// has where to tell it, it tells what is due later, and, where that is wanted, a line for each minute of sound that was played.
#[derive(Drop)]
pub struct WatchedLink<L: Link + Drop, R: Eprint + Copy + Drop> {
    link: L,
    talk: Talk,
    teller: Option<R>,
    tells_minutes: bool,
}

impl<L: Link + Drop, R: Eprint + Copy + Drop> Link for WatchedLink<L, R> {
    ghost left = { λ watched. L.left watched.link };

    ghost sent = { λ watched. L.sent watched.link };

    ghost faults = { λ watched. L.faults watched.link };

    ghost reads = { λ before answer into after. L.reads before.link answer into after.link };

    ghost writes = { λ before piece answer after. L.writes before.link piece answer after.link };

    fn read(&mut self, into: &mut [u8]) -> Got {
        let got = self.link.read(into);
        if let Got::Bytes(count) = got {
            self.talk.came(&into[..count]);
            if self.tells_minutes
                && let Some(teller) = &self.teller
                && self.talk.completes_minute()
            {
                tell_minute(teller, &self.talk);
            }
        }
        got
    }

    fn write(&mut self, piece: &[u8]) -> Put {
        self.talk.sent(piece);
        if let Some(teller) = &self.teller
            && let Some(due) = self.talk.due()
        {
            tell_due(teller, &self.talk, due);
        }
        self.link.write(piece)
    }
}

/// What was seen of a dial: the address that was dialled last, why it was refused, and what was said on the first two links that
/// were given back.
#[derive(Drop)]
pub struct Seen {
    pub address: Address,
    pub reason: Option<Reason>,
    pub first: Option<Talk>,
    pub second: Option<Talk>,
}

/// A dial whose links are watched. Each of its calls is that call of the dial below it.
#[derive(Drop)]
pub struct WatchedDial<D: TellsReason + Drop, R: Eprint + Copy + Drop> {
    dial: D,
    teller: Option<R>,
    tells_minutes: bool,
    dialled: bool,
    seen: Seen,
}

impl<D: TellsReason + Drop, R: Eprint + Copy + Drop> WatchedDial<D, R> {
    /// A dial over another. If it is told where, its links tell what is due later. Its second link, which a relay plays on, may
    /// tell of each minute besides.
    pub fn new(dial: D, teller: Option<R>, tells_minutes: bool) -> WatchedDial<D, R>
        ensures { result.dial ≡ dial }
    {
        WatchedDial {
            dial,
            teller,
            tells_minutes,
            dialled: false,
            seen: Seen {
                address: Address::new(),
                reason: None,
                first: None,
                second: None,
            },
        }
    }

    /// The dial below it.
    pub fn dial(&self) -> &D {
        &self.dial
    }

    /// What was seen of it.
    pub fn seen(&self) -> &Seen {
        &self.seen
    }
}

impl<D: TellsReason + Drop, R: Eprint + Copy + Drop> Dial for WatchedDial<D, R> {
    type Far = WatchedLink<D::Far, R>;

    ghost faults = { λ watched. D.Dial.faults watched.dial };

    ghost hurt = { λ watched. D.Dial.hurt watched.dial };

    ghost asked = { λ watched. D.Dial.asked watched.dial };

    ghost back = { λ watched. D.Dial.back watched.dial };

    ghost links = { λ watched. D.Dial.links watched.dial };

    ghost dials = { λ before address answer after.
        D.Dial.dials before.dial address (dialed_over (λ watched. watched.link) answer) after.dial };

    ghost hangs_up = { λ before far after. D.Dial.hangs_up before.dial far.link after.dial };

    fn dial(&mut self, address: &str) -> Dialed<WatchedLink<D::Far, R>> {
        self.seen.address = Address::new();
        let _ = self.seen.address.try_push_str(address);
        match self.dial.dial(address) {
            Dialed::Far(link) => {
                let tells_minutes = self.tells_minutes && self.dialled;
                self.dialled = true;
                Dialed::Far(WatchedLink {
                    link,
                    talk: Talk::new(self.seen.address),
                    teller: self.teller,
                    tells_minutes,
                })
            }
            Dialed::Failed => {
                self.seen.reason = self.dial.dial_reason();
                Dialed::Failed
            }
            Dialed::OutOfMemory => Dialed::OutOfMemory,
        }
    }

    fn hang_up(&mut self, far: WatchedLink<D::Far, R>) {
        let WatchedLink {
            link,
            mut talk,
            teller: _,
            tells_minutes: _,
        } = far;
        talk.reason = D::link_reason(&link);
        talk.silent = self.dial.is_silent();
        self.dial.hang_up(link);
        if self.seen.first.is_none() {
            self.seen.first = Some(talk);
        } else {
            self.seen.second = Some(talk);
        }
    }
}
