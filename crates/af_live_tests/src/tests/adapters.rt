// Sources, sinks and links over readers, writers and sockets: what the traits of std do not promise.
use af_io::{Dial, Dialed, Got, Link, Put, Sink, Source, StdSink, StdSource, TcpDial};
use std::io;
use std::io::{ErrorKind, Read, Write};
use std::net::TcpListener;
use std::process::Abort;
use std::test::Fail;

// A reader that is interrupted n times, then gives 3 bytes, one a call, and then ends or fails.
#[derive(Drop)]
struct Slow {
    interruptions: u32,
    left: u8,
    fails: bool,
}

impl Read for Slow {
    fn read(&mut self, buf: &mut [u8]) -> io::Result<usize> {
        if self.interruptions > 0 {
            self.interruptions -= 1;
            return Err(io::Error::from(ErrorKind::Interrupted));
        }
        if self.left == 0 && self.fails {
            return Err(io::Error::from(ErrorKind::Other));
        }
        match buf {
            [first, ..] if self.left > 0 => {
                *first = self.left;
                self.left -= 1;
                Ok(1)
            }
            _ => Ok(0),
        }
    }
}

fn holds(rt: &impl Abort, what: &str, is_wanted: bool) {
    assert!(rt; is_wanted, "{what}");
}

fn read_source<S: Source>(rt: &impl Abort, source: &mut S, answers: &[(Got, u8)]) {
    for (got, first) in answers {
        let mut into = [0u8; 8];
        holds(rt, "what a source gave", source.read(&mut into) == *got);
        holds(rt, "its first byte", into[0] == *first);
    }
}

fn reads(rt: &impl Abort, interruptions: u32, fails: bool, answers: &[(Got, u8)]) {
    let mut source = StdSource::new(Slow {
        interruptions,
        left: 3,
        fails,
    });
    read_source(rt, &mut source, answers);
}

#[test]
fn an_interrupted_read_is_made_again_1000_times(rt: HostRuntime) {
    let one = Got::Bytes(1);
    let ended = [(one, 3), (one, 2), (one, 1), (Got::Ended, 0)];
    reads(&rt, 0, false, &ended);
    let failed = [(one, 3), (one, 2), (one, 1), (Got::Failed, 0)];
    reads(&rt, 1000, true, &failed);
    reads(&rt, 1001, false, &[(Got::Failed, 0), (one, 3)]);
}

// A writer that is interrupted before each byte that it takes, and takes 3.
#[derive(Drop)]
struct Narrow {
    taken: Vec<u8>,
    interrupts: bool,
}

impl Write for Narrow {
    fn write(&mut self, buf: &[u8]) -> io::Result<usize> {
        self.interrupts = !self.interrupts;
        if self.interrupts {
            return Err(io::Error::from(ErrorKind::Interrupted));
        }
        match buf {
            [first, ..] if self.taken.len() < 3 => match self.taken.push(*first) {
                Ok(()) => Ok(1),
                Err(_) => Err(io::Error::from(ErrorKind::OutOfMemory)),
            },
            _ => Ok(0),
        }
    }

    fn flush(&mut self) -> io::Result<()> {
        Ok(())
    }
}

fn write_sink<K: Sink>(rt: &impl Abort, sink: &mut K) {
    holds(rt, "the first write", sink.write(&[1, 2]) == Put::Done);
    holds(rt, "the second write", sink.write(&[3, 4]) == Put::Failed);
}

#[test]
fn an_interrupted_write_is_made_again_and_one_that_takes_nothing_fails(rt: HostRuntime) {
    let mut narrow = Narrow {
        taken: Vec::new(rt.alloc()),
        interrupts: false,
    };
    let mut sink = StdSink::new(&mut narrow);
    write_sink(&rt, &mut sink);
    drop(sink);
    holds(
        &rt,
        "the writer",
        narrow.taken.as_slice() == [1, 2, 3].as_slice(),
    );
}

// The far end of a link sends two bytes, gets two, and is closed.
fn talk(rt: &impl Abort, mut far: impl Read + Write + Drop) -> io::Result<()> {
    far.write_all(&[8, 9])?;
    let mut into = [0u8; 2];
    far.read_exact(&mut into)?;
    holds(rt, "what a socket got", into == [1, 2]);
    Ok(())
}

fn send<D: Dial>(dial: &mut D, address: &str) -> Option<D::Far> {
    if address.is_empty() || address.len() > 64 {
        return None;
    }
    let Dialed::Far(mut link) = dial.dial(address) else {
        return None;
    };
    match link.write(&[1, 2]) {
        Put::Done => Some(link),
        Put::Failed => None,
    }
}

fn receive<L: Link>(rt: &impl Abort, link: &mut L) {
    let mut into = [0u8; 8];
    let got = link.read(&mut into);
    holds(
        rt,
        "what a link got",
        got == Got::Bytes(2) && into.starts_with(&[8, 9]),
    );
    holds(rt, "the link's end", link.read(&mut into) == Got::Ended);
}

#[test]
fn a_link_over_a_socket_gives_and_takes_bytes(rt: HostRuntime) -> Result<(), Fail> {
    let listener = TcpListener::bind(&rt, "127.0.0.1:0")?;
    let address = format!(in rt.alloc(); "{}", listener.local_addr()?)?;
    let mut dial = TcpDial::new(&rt);
    let mut link = send(&mut dial, address.as_str()).ok_or("no link that takes two bytes")?;
    let (far, _) = listener.accept()?;
    talk(&rt, far)?;
    receive(&rt, &mut link);
    dial.hang_up(link);
    drop(listener);
    match send(&mut dial, address.as_str()) {
        None => Ok(()),
        Some(_) => Err(Fail::from("a dial to a socket that nobody listens at")),
    }
}
