// Events of telephone lines, as messages.
ghost use Rattle.std.specs.Prelude.{◌≡◌, drop, length};
ghost use Rattle.af_wire.specs.Event.{detail_of, event_bytes, event_in, kind_of_code, IsEvent};
ghost use Rattle.af_wire.specs.MessageFront.{IsOneMessage};

use crate::{Order, write_head};
use af_limits::MOST_DEVICES;
use af_time::DevTime;

/// What happened on a telephone line.
#[derive(Clone, Copy, Debug, PartialEq, Eq)]
pub enum EventKind {
    /// Ringing began (value 1) or ended (0).
    Ring,
    /// The hook is off (1) or on (0).
    Hook,
    /// Current flows in the loop (1) or not (0).
    Current,
    /// A digit was dialled: its ASCII code is the value.
    Digit,
}

impl EventKind {
    /// The detail of such an event's message, which is also its bit in a mask of events.
    pub fn code(self) -> u8
        ensures { result ≡ detail_of self }
    {
        match self {
            EventKind::Ring => 1,
            EventKind::Hook => 2,
            EventKind::Current => 4,
            EventKind::Digit => 8,
        }
    }

    /// The kind of a detail. None exactly if it is none of 1, 2, 4 and 8.
    pub fn of_code(code: u8) -> Option<EventKind>
        ensures { result ≡ kind_of_code code }
    {
        match code {
            1 => Some(EventKind::Ring),
            2 => Some(EventKind::Hook),
            4 => Some(EventKind::Current),
            8 => Some(EventKind::Digit),
            _ => None,
        }
    }
}

/// An event: the device whose line it is of, 0..7, and the device's time.
#[derive(Clone, Copy, Debug, PartialEq, Eq)]
pub struct Event {
    pub kind: EventKind,
    pub device: u8,
    pub time: DevTime,
    pub value: u32,
}

/// Writes an event, with the number of the request that was performed or begun last.
#[tactic(auto, using(crate::proofs::MessageRoundTrips::event_one), unfolding(crate::specs::Event::event_bytes))]
pub fn write_event(order: Order, event: Event, sequence: u16, out: &mut [u8])
    requires { length out.old ≡ 20 }
    ensures bytes { out.new ≡ event_bytes order event sequence }
    ensures one { IsOneMessage order 2 (detail_of event.kind) sequence out.new }
    ensures again { IsEvent event → event_in order (detail_of event.kind) (drop 8 out.new) ≡ Some event }
{
    let [d0, d1, d2, d3] = order.u32_bytes(u32::from(event.device));
    let [t0, t1, t2, t3] = order.u32_bytes(event.time.0);
    let [v0, v1, v2, v3] = order.u32_bytes(event.value);
    let (front, back) = out.split_at_mut(8);
    write_head(order, 2, event.kind.code(), sequence, 3, front);
    back.copy_from_slice(&[d0, d1, d2, d3, t0, t1, t2, t3, v0, v1, v2, v3]);
}

/// Reads the event that a message of this detail and body states. None exactly if it states none: a detail that is no kind, a
/// body of another length than 12, a device above 7, or a value above 1 of another event than a digit.
pub fn read_event(order: Order, detail: u8, body: &[u8]) -> Option<Event>
    ensures { result ≡ event_in order detail body.now }
{
    let [d0, d1, d2, d3, t0, t1, t2, t3, v0, v1, v2, v3] = body else {
        return None;
    };
    let device = order.u32([*d0, *d1, *d2, *d3]);
    let time = order.u32([*t0, *t1, *t2, *t3]);
    let value = order.u32([*v0, *v1, *v2, *v3]);
    let kind = EventKind::of_code(detail)?;
    if device >= MOST_DEVICES as u32 || value > 1 && kind != EventKind::Digit {
        return None;
    }
    Some(Event {
        kind,
        device: device as u8,
        time: DevTime(time),
        value,
    })
}
