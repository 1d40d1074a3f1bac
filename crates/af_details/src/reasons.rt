// Why the outside refused something last, as far as it tells.
use af_io::{Dial, MemDial, MemLink, Reason, TcpDial, TcpLink};
use af_patience::PatientDial;
use std::net::Net;
use std::time::Clock;

/// A dial that may tell why a call of it, or of one of its links, has failed last.
pub trait TellsReason: Dial {
    /// Why a dial failed last, if one did.
    fn dial_reason(&self) -> Option<Reason>;

    /// Why a read of this link, or a write to it, failed last, if one did.
    fn link_reason(far: &Self::Far) -> Option<Reason>;

    /// Whether a server did not answer the setup in time.
    fn is_silent(&self) -> bool;
}

impl<R: Net + Drop> TellsReason for TcpDial<R> {
    fn dial_reason(&self) -> Option<Reason> {
        self.reason()
    }

    fn link_reason(far: &TcpLink<R::Stream>) -> Option<Reason> {
        far.reason()
    }

    fn is_silent(&self) -> bool {
        false
    }
}

/// The reasons of a dial that is tried again are those of the last try.
impl<D: TellsReason + Drop, T: Clock + Eprint + Drop> TellsReason for PatientDial<D, T> {
    fn dial_reason(&self) -> Option<Reason> {
        self.dial().dial_reason()
    }

    fn link_reason(far: &D::Far) -> Option<Reason> {
        D::link_reason(far)
    }

    fn is_silent(&self) -> bool {
        self.faults().is_silent()
    }
}

/// What is in memory has no reasons.
impl TellsReason for MemDial {
    fn dial_reason(&self) -> Option<Reason> {
        None
    }

    fn link_reason(_far: &MemLink) -> Option<Reason> {
        None
    }

    fn is_silent(&self) -> bool {
        false
    }
}
