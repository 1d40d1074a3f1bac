// The sockets between a program and its user: one for each way.
ghost use Rattle.std.specs.Prelude.{◌≡◌, true, false, is_some, IfOk};
ghost use Rattle.af_program.specs.Sockets.{is_given, is_giving};

use crate::Ways;
use libc::net as c;
use std::io::{self, Error, ErrorKind};
use std::net::Net;
use std::os::fd::{AsRawFd, OwnedFd};
use std::os::unix::net::UnixStream;
use std::process::Stdio;

/// A socket of ours, and what the program has at the other end of it.
#[derive(Drop)]
pub(crate) struct Way {
    pub(crate) ours: Option<UnixStream>,
    pub(crate) theirs: Stdio,
}

impl Way {
    /// None: a program reads its end there, and what it writes is lost.
    fn closed() -> Way
        ensures { is_some result.ours ≡ false }
    {
        Way {
            ours: None,
            theirs: Stdio::null(),
        }
    }

    /// A pair of sockets. Ours does not block.
    fn open<N: Net>(net: &N) -> io::Result<Way>
        ensures { IfOk result (λ way. is_some way.ours ≡ true) }
    {
        let (ours, theirs) = UnixStream::pair(net)?;
        ours.set_nonblocking(true)?;
        Ok(Way {
            ours: Some(ours),
            theirs: Stdio::from(OwnedFd::from(theirs)),
        })
    }
}

/// The way to the standard input of a program. The buffer of our end has about so many bytes, as the system rounds them.
pub(crate) fn way_in<N: Net>(net: &N, ways: Ways, bytes: u32) -> io::Result<Way>
    ensures { IfOk result (λ way. is_some way.ours ≡ is_given ways) }
{
    if !ways.is_given() {
        return Ok(Way::closed());
    }
    let way = Way::open(net)?;
    if let Some(socket) = &way.ours {
        keep_short(socket, bytes)?;
    }
    Ok(way)
}

/// The way from the standard output of a program.
pub(crate) fn way_out<N: Net>(net: &N, ways: Ways) -> io::Result<Way>
    ensures { IfOk result (λ way. is_some way.ours ≡ is_giving ways) }
{
    if ways.is_giving() {
        Way::open(net)
    } else {
        Ok(Way::closed())
    }
}

/// Gives a socket a buffer of about so many bytes for what was written to it and not read.
fn keep_short<S: AsRawFd>(socket: &S, bytes: u32) -> io::Result<()> {
    let mut value = [0; 16];
    value[..4].copy_from_slice(&bytes.to_ne_bytes());
    let fd = socket.as_raw_fd();
    let set = unsafe { c::setsockopt(fd, c::SOL_SOCKET, c::SO_SNDBUF, &value, 4) };
    if set < 0 {
        return Err(Error::new(
            ErrorKind::Other,
            "the socket to a program cannot be kept short",
        ));
    }
    Ok(())
}
