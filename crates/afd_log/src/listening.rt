// Why an address cannot be listened at.
use af_io::Reason;
use mio::net::TcpListener;
use std::fmt;
use std::fmt::{Formatter, Write};
use std::net::ToSocketAddrs;

/// Why it cannot be listened at an address.
#[derive(Clone, Copy)]
pub enum ListenRefusal {
    /// It is a host without a port.
    NoPort,
    /// What follows its last colon is no number of 0 to 65535.
    BadPort,
    Refused(Reason),
    /// The system would grant it now.
    Gone,
}

impl fmt::Display for ListenRefusal {
    fn fmt<W: Write>(&self, f: &mut Formatter<W>) -> fmt::Result {
        match *self {
            ListenRefusal::NoPort => {
                f.write_str("no port; an address is HOST:PORT, such as 127.0.0.1:1701")
            }
            ListenRefusal::BadPort => f.write_str("the port is no number of 0 to 65535"),
            ListenRefusal::Refused(reason) => write!(f, "{reason}"),
            ListenRefusal::Gone => f.write_str("refused, but it would be granted now"),
        }
    }
}

/// Why it cannot be listened at an address. The world does not say, so the system is asked once more.
pub(crate) fn listen_refusal(rt: &HostRuntime, address: &str) -> ListenRefusal {
    match address.rsplit_once(':') {
        None => ListenRefusal::NoPort,
        Some((_, port)) if port.parse::<u16>().is_err() => ListenRefusal::BadPort,
        Some(_) => system_refusal(rt, address),
    }
}

/// Why the system refuses all addresses of a text.
fn system_refusal(rt: &HostRuntime, address: &str) -> ListenRefusal {
    let addresses = match address.to_socket_addrs(rt) {
        Ok(addresses) => addresses,
        Err(e) => return ListenRefusal::Refused(Reason::new(e)),
    };
    let mut last = ListenRefusal::Gone;
    for address in addresses {
        match TcpListener::bind(rt, address) {
            Ok(_) => return ListenRefusal::Gone,
            Err(e) => last = ListenRefusal::Refused(Reason::new(e)),
        }
    }
    last
}
