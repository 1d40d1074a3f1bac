// Whether standard error takes a line now, so that a log never waits.
use mio::unix::SourceFd;
use mio::{Events, Interest, Poll, Token};
use std::alloc::Global;
use std::io;
use std::net::Net;
use std::time::Duration;

/// The number of standard error.
const STANDARD_ERROR: i32 = 2;

/// The token of the one thing that is looked at.
const ONLY: Token = Token(0);

/// A look at standard error. A pipe, a terminal or a socket that takes nothing is shut; a file never is, as the system tells.
#[derive(Drop)]
pub(crate) struct Gate {
    poll: Poll,
    events: Events<Global>,
    is_file: bool,
}

impl Gate {
    /// A look at standard error. All its memory is taken here.
    pub fn new<R: Net>(rt: &R, alloc: Global) -> io::Result<Gate> {
        let poll = Poll::new(rt)?;
        let events = Events::with_capacity(alloc, 1)?;
        let mut error = SourceFd(&STANDARD_ERROR);
        // the system does not watch files, since they can always be written
        let is_file = poll
            .registry()
            .register(&mut error, ONLY, Interest::WRITABLE)
            .is_err();
        Ok(Gate {
            poll,
            events,
            is_file,
        })
    }

    /// Whether it is a file, to which nobody adds the time.
    pub fn is_file(&self) -> bool {
        self.is_file
    }

    /// Whether it takes a line now.
    pub fn is_open(&mut self) -> bool {
        if self.is_file {
            return true;
        }
        // an event tells each change once, so this asks for the state
        let mut error = SourceFd(&STANDARD_ERROR);
        let asked = self
            .poll
            .registry()
            .reregister(&mut error, ONLY, Interest::WRITABLE);
        if asked.is_err() {
            return false;
        }
        match self.poll.poll(&mut self.events, Some(Duration::ZERO)) {
            Ok(()) => !self.events.is_empty(),
            Err(_) => false,
        }
    }
}
