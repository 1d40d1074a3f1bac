// What the tool events is asked to do.
ghost use Rattle.std.specs.Prelude.{◌≡◌, ◌≤◌};
ghost use Rattle.af_events.specs.Lines.{is_asked};
ghost use Rattle.af_events.specs.Trace.{count_of};

use af_cli::{DeviceChoice, EventKinds};
use af_wire::Event;

/// To tell events of telephone lines.
#[derive(Clone, Copy, Debug, PartialEq, Eq)]
pub struct EventsJob {
    /// Whose lines.
    pub devices: DeviceChoice,
    pub kinds: EventKinds,
    /// After how many events it is done, 1..1000000. If that is not stated, it goes on until the link ends.
    pub count: Option<u32>,
    /// After how many milliseconds of a device's time it is done, 1..86400000. If that is not stated, only the count ends it.
    pub lasting: Option<u32>,
}

impl EventsJob {
    /// Whether an event is one of those that are asked for.
    pub fn asks_for(&self, event: Event) -> bool
        ensures { result ≡ is_asked self.now event }
    {
        let of_device = match self.devices {
            DeviceChoice::One(device) => event.device == device,
            DeviceChoice::All => true,
        };
        of_device && self.kinds.has(event.kind)
    }

    /// After how many events it is done. One that goes on until the link ends has more to tell than there is time for.
    pub fn count(&self) -> u64
        ensures { result ≡ count_of self.now }
    {
        match self.count {
            Some(count) => u64::from(count),
            None => u64::MAX,
        }
    }
}
