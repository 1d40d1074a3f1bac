// The network of a tool: what its connections met, and how long a setup may take.
use crate::stream::SetupStream;
use std::cell::Cell;
use std::io::{self, ErrorKind};
use std::marker::PhantomData;
use std::net::{Net, OpenListener, SocketAddr};
use std::os::fd::{AsRawFd, RawFd};
use std::rc::Rc;
use std::time::Clock;

/// What the connections of a tool met.
#[derive(Drop)]
pub struct NetFaults {
    refused: Cell<Option<SocketAddr>>,
    silent: Cell<bool>,
}

impl NetFaults {
    /// None was refused so far, and none was silent.
    pub fn new() -> NetFaults {
        NetFaults {
            refused: Cell::new(None),
            silent: Cell::new(false),
        }
    }

    /// The address that was tried last, if the connection was refused there: nobody listens.
    pub fn refused(&self) -> Option<SocketAddr> {
        self.refused.get()
    }

    /// Whether a setup was not answered in time.
    pub fn is_silent(&self) -> bool {
        self.silent.get()
    }

    pub(crate) fn note_silence(&self) {
        self.silent.set(true);
    }
}

/// A network over another. It keeps where a connection was refused, and the reply to a setup has ten seconds. It listens nowhere.
#[derive(Drop)]
pub struct ToolNet<R: Net + Drop> {
    net: R,
    faults: Rc<NetFaults>,
}

impl<R: Net + Drop> ToolNet<R> {
    /// This network. What its connections meet is kept there.
    pub fn new(net: R, faults: Rc<NetFaults>) -> ToolNet<R> {
        ToolNet { net, faults }
    }
}

impl<R: Net + Clock + Copy + Drop> Net for ToolNet<R> {
    type Stream = SetupStream<R::Stream, R>;

    type Listener = NoListener<R::Stream, R>;

    fn bind(&self, _addr: SocketAddr) -> io::Result<NoListener<R::Stream, R>> {
        Err(io::Error::from(ErrorKind::Unsupported))
    }

    fn connect(&self, addr: SocketAddr) -> io::Result<SetupStream<R::Stream, R>> {
        let faults = self.faults.clone()?;
        let connected = self.net.connect(addr);
        self.faults.refused.set(match &connected {
            Err(e) if e.kind() == ErrorKind::ConnectionRefused => Some(addr),
            _ => None,
        });
        Ok(SetupStream::new(connected?, self.net, faults))
    }

    fn lookup_host(&self, host: &str, port: u16, found: &mut [SocketAddr]) -> io::Result<usize> {
        self.faults.refused.set(None);
        self.net.lookup_host(host, port, found)
    }
}

/// The listener of a network that listens nowhere. There is none.
#[derive(Drop)]
pub struct NoListener<S: Drop, C: Drop> {
    streams: PhantomData<SetupStream<S, C>>,
}

impl<S: Drop, C: Drop> OpenListener for NoListener<S, C> {
    type Stream = SetupStream<S, C>;

    fn accept(&self) -> io::Result<(SetupStream<S, C>, SocketAddr)> {
        Err(io::Error::from(ErrorKind::Unsupported))
    }
}

impl<S: Drop, C: Drop> AsRawFd for NoListener<S, C> {
    fn as_raw_fd(&self) -> RawFd {
        -1
    }
}
