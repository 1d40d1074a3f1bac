// The stream to a server. The reply to its setup may take ten seconds.
use crate::network::NetFaults;
use std::io::{self, ErrorKind, Read, Write};
use std::net::OpenStream;
use std::os::fd::{AsRawFd, RawFd};
use std::rc::Rc;
use std::time::{Clock, Duration};

/// For how many seconds the reply to a setup is waited for.
const SETUP_SECONDS: u64 = 10;

/// The shortest wait that the system is asked for, in milliseconds. It takes none at all for a wait without end.
const SHORTEST_WAIT_MILLIS: u64 = 1;

/// How far a client is with its setup. A client writes nothing between the setup and the whole reply to it.
#[derive(Clone, Copy)]
enum Setup {
    /// Nothing was written.
    Unsent,
    /// The setup was written. Its reply is waited for until then, by the clock.
    Sent(Duration),
    /// A request was written, so the reply had come.
    Answered,
}

/// A stream over another. Where the reply to the setup has not come ten seconds after it was written, a read fails. Later replies
/// are waited for without a limit. Each of its writes and reads is that of the stream below, but for a read that fails so.
#[derive(Drop)]
pub struct SetupStream<S: Drop, C: Drop> {
    stream: S,
    clock: C,
    faults: Rc<NetFaults>,
    setup: Setup,
}

impl<S: Drop, C: Drop> SetupStream<S, C> {
    /// This stream, on which nothing was written. A silent server is noted there.
    pub(crate) fn new(stream: S, clock: C, faults: Rc<NetFaults>) -> SetupStream<S, C> {
        SetupStream {
            stream,
            clock,
            faults,
            setup: Setup::Unsent,
        }
    }

    // The setup has not been answered in time.
    fn silence(&self) -> io::Error {
        self.faults.note_silence();
        io::Error::new(
            ErrorKind::TimedOut,
            "the setup was not answered in 10 seconds",
        )
    }
}

impl<S: OpenStream + Drop, C: Clock + Drop> SetupStream<S, C> {
    // How far the setup is once something is written. A clock that cannot be read sets no limit.
    fn setup_after_write(&self) -> Setup {
        match (self.setup, self.clock.monotonic()) {
            (Setup::Unsent, Ok(now)) => {
                Setup::Sent(now.saturating_add(Duration::from_secs(SETUP_SECONDS)))
            }
            (Setup::Sent(_), _) => {
                // A stream that keeps its limit fails sooner than it has to, and is a fault of the system.
                let _ = self.stream.set_read_timeout(None);
                Setup::Answered
            }
            _ => Setup::Answered,
        }
    }

    // Has the next read wait no longer than until then. It says no if that is over.
    fn limit(&self, until: Duration) -> bool {
        let Ok(now) = self.clock.monotonic() else {
            return true;
        };
        let left = until.saturating_sub(now);
        let is_left = left >= Duration::from_millis(SHORTEST_WAIT_MILLIS);
        if is_left {
            // A stream that takes no limit is waited for without one.
            let _ = self.stream.set_read_timeout(Some(left));
        }
        is_left
    }
}

impl<S: Read + OpenStream + Drop, C: Clock + Drop> Read for SetupStream<S, C> {
    ghost remaining = { λ a. S.Read.remaining a.stream };

    fn read(&mut self, buf: &mut [u8]) -> io::Result<usize> {
        let Setup::Sent(until) = self.setup else {
            return self.stream.read(buf);
        };
        if !self.limit(until) {
            return Err(self.silence());
        }
        match self.stream.read(buf) {
            Err(e) if e.kind() == ErrorKind::WouldBlock => Err(self.silence()),
            done => done,
        }
    }
}

impl<S: Write + OpenStream + Drop, C: Clock + Drop> Write for SetupStream<S, C> {
    ghost contents = { λ a. S.Write.contents a.stream };

    fn write(&mut self, buf: &[u8]) -> io::Result<usize> {
        self.setup = self.setup_after_write();
        self.stream.write(buf)
    }

    fn flush(&mut self) -> io::Result<()> {
        self.stream.flush()
    }
}

/// What a dial sets of it. The rest is not asked for.
impl<S: OpenStream + Drop, C: Drop> OpenStream for SetupStream<S, C> {
    fn set_nodelay(&self, nodelay: bool) -> io::Result<()> {
        self.stream.set_nodelay(nodelay)
    }
}

impl<S: AsRawFd + Drop, C: Drop> AsRawFd for SetupStream<S, C> {
    ghost raw_fd = { λ a. S.AsRawFd.raw_fd a.stream };

    fn as_raw_fd(&self) -> RawFd {
        self.stream.as_raw_fd()
    }
}
