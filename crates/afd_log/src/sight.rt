// What the log tells of a world and no call of it says.
use crate::Log;
use crate::listening::ListenRefusal;
use crate::program_lines::ProgramLines;
use std::net::SocketAddr;

/// What is to be seen of a world. It only looks.
pub trait Sight<W> {
    /// The address at which the world listens, if it does.
    fn address(&self, world: &W) -> Option<SocketAddr>;

    /// Why the system refuses to listen at an address.
    fn refusal(&self, address: &str) -> ListenRefusal;

    /// The address of the other side of a link, if it is held.
    fn peer(&self, world: &W, link: u8) -> Option<SocketAddr>;

    /// How many connections were turned away.
    fn turned_away(&self, world: &W) -> u64;

    /// Whether the link that failed last did so since its client had closed the connection.
    fn was_left(&self, world: &W) -> bool;

    /// By how many milliseconds device time is late.
    fn late_millis(&self, world: &W) -> u64;

    /// Whether a program stands for the exchange of a device's telephone line.
    fn has_exchange(&self, world: &W, device: u8) -> bool;

    /// Tells what the programs of devices and of telephone lines have done since the last time.
    fn tell_programs(&self, world: &W, log: &Log<'_>, told: &mut ProgramLines);
}

/// Nothing is to be seen of a world, beyond its calls.
#[derive(Drop)]
pub struct NoSight;

impl<W> Sight<W> for NoSight {
    fn address(&self, _world: &W) -> Option<SocketAddr> {
        None
    }

    fn refusal(&self, _address: &str) -> ListenRefusal {
        ListenRefusal::Gone
    }

    fn peer(&self, _world: &W, _link: u8) -> Option<SocketAddr> {
        None
    }

    fn turned_away(&self, _world: &W) -> u64 {
        0
    }

    fn was_left(&self, _world: &W) -> bool {
        false
    }

    fn late_millis(&self, _world: &W) -> u64 {
        0
    }

    fn has_exchange(&self, _world: &W, _device: u8) -> bool {
        false
    }

    fn tell_programs(&self, _world: &W, _log: &Log<'_>, _told: &mut ProgramLines) {}
}
