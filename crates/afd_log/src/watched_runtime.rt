// The runtime of a server, which notes what the system refuses, and which file it opens.
use crate::Log;
use crate::watched_file::WatchedFile;
use af_io::Reason;
use std::alloc::Allocator;
use std::fs::{Metadata, OpenOptions};
use std::io;
use std::net::{Net, SocketAddr};
use std::os::unix::net::UnixStream;
use std::process::{Child, Command, Processes, Stdio};
use std::rt::Files;
use std::time::{Clock, Duration};

/// A runtime, which notes in a log what the system refuses, and tells which file it opens before it does: a FIFO
/// that nobody has at its other end keeps the open waiting.
#[derive(Drop)]
pub struct WatchedRuntime<'a, R> {
    rt: &'a R,
    log: &'a Log<'a>,
}

impl<'a, R> WatchedRuntime<'a, R> {
    /// This runtime, watched by a log.
    pub fn new(rt: &'a R, log: &'a Log<'a>) -> WatchedRuntime<'a, R> {
        WatchedRuntime { rt, log }
    }
}

impl<R: Clock> Clock for WatchedRuntime<'_, R> {
    fn monotonic(&self) -> io::Result<Duration> {
        self.rt.monotonic()
    }

    fn since_1970(&self) -> io::Result<Duration> {
        self.rt.since_1970()
    }
}

impl<R: Net> Net for WatchedRuntime<'_, R> {
    type Stream = R::Stream;

    type Listener = R::Listener;

    fn bind(&self, addr: SocketAddr) -> io::Result<R::Listener> {
        self.rt.bind(addr)
    }

    fn connect(&self, addr: SocketAddr) -> io::Result<R::Stream> {
        self.rt.connect(addr)
    }

    fn lookup_host(&self, host: &str, port: u16, found: &mut [SocketAddr]) -> io::Result<usize> {
        self.rt.lookup_host(host, port, found)
    }

    fn unix_pair(&self) -> io::Result<(UnixStream, UnixStream)> {
        let pair = self.rt.unix_pair();
        if let Err(e) = &pair {
            self.log.note(Reason::new(*e));
        }
        pair
    }
}

impl<'a, R: Files> Files for WatchedRuntime<'a, R> {
    type File = WatchedFile<'a, R::File>;

    type Dir = R::Dir;

    fn open_file(&self, how: &OpenOptions, path: &str) -> io::Result<WatchedFile<'a, R::File>> {
        self.log.opens(path);
        match self.rt.open_file(how, path) {
            Ok(file) => Ok(WatchedFile::new(file, self.log)),
            Err(e) => {
                self.log.note_refusal(path, Reason::new(e));
                Err(e)
            }
        }
    }

    fn open_dir(&self, path: &str) -> io::Result<R::Dir> {
        self.rt.open_dir(path)
    }

    fn metadata(&self, path: &str) -> io::Result<Metadata> {
        self.rt.metadata(path)
    }

    fn symlink_metadata(&self, path: &str) -> io::Result<Metadata> {
        self.rt.symlink_metadata(path)
    }

    fn copy(&self, from: &str, to: &str) -> io::Result<u64> {
        self.rt.copy(from, to)
    }

    fn rename(&self, from: &str, to: &str) -> io::Result<()> {
        self.rt.rename(from, to)
    }

    fn remove_file(&self, path: &str) -> io::Result<()> {
        self.rt.remove_file(path)
    }

    fn create_dir(&self, path: &str) -> io::Result<()> {
        self.rt.create_dir(path)
    }

    fn remove_dir(&self, path: &str) -> io::Result<()> {
        self.rt.remove_dir(path)
    }

    fn remove_dir_all<B: Allocator>(&self, alloc: B, path: &str) -> io::Result<()> {
        self.rt.remove_dir_all(alloc, path)
    }
}

impl<R: Processes> Processes for WatchedRuntime<'_, R> {
    type Started = R::Started;

    fn spawn<B: Allocator + Clone>(
        &self,
        command: &Command<B>,
        stdin: &Stdio,
        stdout: &Stdio,
        stderr: &Stdio,
    ) -> io::Result<Child<R::Started>> {
        let started = self.rt.spawn(command, stdin, stdout, stderr);
        if let Err(e) = &started {
            self.log.note(Reason::new(*e));
        }
        started
    }
}
