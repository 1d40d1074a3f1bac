// Which events of telephone lines a tool is asked for: of which kinds, and of which devices.
ghost use Rattle.std.specs.Prelude.{◌≡◌};
ghost use Rattle.af_cli.specs.Events.{choice_in, has_kind, kind_name, kind_named, kinds_in, mask_of, with_kind};

use crate::number::number_in;
use af_limits::MOST_DEVICES;
use af_wire::EventKind;

/// Kinds of events.
#[derive(Clone, Copy, Debug, PartialEq, Eq)]
pub struct EventKinds {
    pub ring: bool,
    pub digit: bool,
    pub current: bool,
    pub hook: bool,
}

/// The devices that a tool works with.
#[derive(Clone, Copy, Debug, PartialEq, Eq)]
pub enum DeviceChoice {
    /// The device with a number, 0..7.
    One(u8),
    All,
}

/// The name of a kind of events.
pub fn kind_name<'a>(kind: EventKind) -> &'a str
    ensures { result.now ≡ kind_name kind }
{
    match kind {
        EventKind::Ring => "ring",
        EventKind::Digit => "digit",
        EventKind::Current => "loop",
        EventKind::Hook => "hook",
    }
}

impl EventKinds {
    // No kind.
    const NONE: EventKinds = EventKinds {
        ring: false,
        digit: false,
        current: false,
        hook: false,
    };

    /// Whether a kind is among them.
    pub fn has(self, kind: EventKind) -> bool
        ensures { result ≡ has_kind self kind }
    {
        match kind {
            EventKind::Ring => self.ring,
            EventKind::Digit => self.digit,
            EventKind::Current => self.current,
            EventKind::Hook => self.hook,
        }
    }

    /// The mask by which a server is asked for them.
    pub fn mask(self) -> u32
        ensures { result ≡ mask_of self }
    {
        u32::from(self.ring)
            + 2 * u32::from(self.hook)
            + 4 * u32::from(self.current)
            + 8 * u32::from(self.digit)
    }

    // These, and one more.
    fn with(self, kind: EventKind) -> EventKinds
        ensures { result ≡ with_kind self kind }
    {
        match kind {
            EventKind::Ring => EventKinds { ring: true, ..self },
            EventKind::Digit => EventKinds {
                digit: true,
                ..self
            },
            EventKind::Current => EventKinds {
                current: true,
                ..self
            },
            EventKind::Hook => EventKinds { hook: true, ..self },
        }
    }
}

// The kind of a name.
fn kind_named(name: &str) -> Option<EventKind>
    ensures { result ≡ kind_named name.now }
{
    if name == "ring" {
        Some(EventKind::Ring)
    } else if name == "digit" {
        Some(EventKind::Digit)
    } else if name == "loop" {
        Some(EventKind::Current)
    } else if name == "hook" {
        Some(EventKind::Hook)
    } else {
        None
    }
}

/// The kinds whose names a text lists, with a comma between two.
pub fn kinds_in(text: &str) -> Option<EventKinds>
    ensures { result ≡ kinds_in text.now }
{
    let mut kinds = EventKinds::NONE;
    for name in text.split(',') {
        kinds = kinds.with(kind_named(name)?);
    }
    Some(kinds)
}

/// The devices that a text names: one by its number, or all.
pub fn choice_in(text: &str) -> Option<DeviceChoice>
    ensures { result ≡ choice_in text.now }
{
    if text == "all" {
        return Some(DeviceChoice::All);
    }
    let number = number_in(0, MOST_DEVICES as u32 - 1, text.as_bytes())?;
    Some(DeviceChoice::One(number as u8))
}
