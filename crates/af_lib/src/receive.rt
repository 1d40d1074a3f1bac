// Receiving messages: bytes, one message, and the first message that is no event.
ghost use Rattle.std.specs.Prelude.{◌≡◌, ◌≢◌, ◌≤◌, ◌<◌, length, IfOk, Ok, Err};
ghost use Rattle.af_limits.specs.Limits.{longest_message};
ghost use Rattle.af_lib.specs.Answers.{bad_reply, first_bytes};
ghost use Rattle.af_lib.specs.Incoming.{first_message, incoming, message_in};
ghost use Rattle.af_lib.specs.Calls.{event_of, event_only, Answers, IsFresh, IsOfMessage, TakesFirst};
ghost use Rattle.af_lib.specs.Observed.{OnlyRead};
ghost use Rattle.af_lib.specs.Ring.{Gained};
ghost use Rattle.af_lib.specs.Receive.{found_as, taken_as, taken_of, Fills, IsTakenWithin};

use crate::fault::ConnFault;
use crate::ring::Ring;
use af_io::{Got, Link};
use af_limits::MOST_EVENTS;
use af_wire::{Event, MessageFront, Order, message_at, read_event};

/// A message: an event, or another one of n bytes.
#[derive(Clone, Copy, Debug, PartialEq, Eq)]
pub enum Taken {
    Event(Event),
    Other(usize),
}

/// Reads until the slice is full.
pub fn fill<L: Link>(link: &mut L, into: &mut [u8]) -> Result<(), ConnFault>
    ensures fills { Fills result into.new (L.left link.old) (L.left link.new) }
    ensures message { IsOfMessage result }
    ensures reads { OnlyRead L.left L.sent L.faults (result ≡ Err ConnFault.LinkFault) link.old link.new }
{
    let mut filled = 0;
    while filled < into.len() {
        match link.read(&mut into[filled..]) {
            Got::Bytes(count) => filled += count,
            Got::Ended => return Err(ConnFault::LinkEnded),
            Got::Failed => return Err(ConnFault::LinkFault),
        }
    }
    Ok(())
}

/// Reads one message: a header, and if that is good the rest of its message. It answers the length of the message.
pub fn frame<L: Link>(order: Order, link: &mut L, input: &mut [u8]) -> Result<usize, ConnFault>
    requires { longest_message ≤ length input.old }
    ensures frames { TakesFirst (found_as result input.new) (first_message order) order (L.left link.old) (L.left link.new) }
    ensures within { IfOk result (λ n. (8 ≤ n) × (n ≤ longest_message)) }
    ensures message { IsOfMessage result }
    ensures reads { OnlyRead L.left L.sent L.faults (result ≡ Err ConnFault.LinkFault) link.old link.new }
{
    match fill(link, &mut input[..8]) {
        Ok(()) => {}
        Err(fault) => return Err(fault),
    }
    match message_at(order, &input[..8]) {
        MessageFront::BadMessage => Err(bad_reply(&input[..8])),
        MessageFront::Message { length, .. } => Ok(length),
        MessageFront::NeedMore(length) => match fill(link, &mut input[8..length]) {
            Ok(()) => Ok(length),
            Err(fault) => Err(fault),
        },
    }
}

/// The fault of a message that does not answer.
pub fn bad_reply(bytes: &[u8]) -> ConnFault
    requires { 8 ≤ length bytes.now }
    ensures { result ≡ bad_reply bytes.now }
{
    let mut header = [0; 8];
    header.copy_from_slice(&bytes[..8]);
    let first = first_bytes(&bytes[8..]);
    ConnFault::BadReply { header, first }
}

// The first 8 bytes of a body, filled with zeros.
fn first_bytes(body: &[u8]) -> [u8; 8]
    ensures { result ≡ first_bytes body.now }
{
    let mut first = [0; 8];
    let count = body.len().min(8);
    first[..count].copy_from_slice(&body[..count]);
    first
}

/// What a whole message is.
pub fn message_in(order: Order, bytes: &[u8]) -> Result<Taken, ConnFault>
    requires { 8 ≤ length bytes.now }
    ensures value { taken_as result bytes.now ≡ message_in order bytes.now }
    ensures within { IsTakenWithin result (length bytes.now) }
    ensures message { IsOfMessage result }
{
    if bytes[0] != 2 {
        return Ok(Taken::Other(bytes.len()));
    }
    match read_event(order, bytes[1], &bytes[8..]) {
        Some(event) => Ok(Taken::Event(event)),
        None => Err(bad_reply(bytes)),
    }
}

/// Takes one message. One that is no event stands in the input then.
pub fn take_message<L: Link>(
    order: Order,
    link: &mut L,
    input: &mut [u8],
) -> Result<Taken, ConnFault>
    requires { longest_message ≤ length input.old }
    ensures takes { TakesFirst (taken_as result input.new) (incoming order) order (L.left link.old) (L.left link.new) }
    ensures within { IsTakenWithin result longest_message }
    ensures message { IsOfMessage result }
    ensures reads { OnlyRead L.left L.sent L.faults (result ≡ Err ConnFault.LinkFault) link.old link.new }
{
    match frame(order, link, input) {
        Ok(length) => message_in(order, &input[..length]),
        Err(fault) => Err(fault),
    }
}

/// Takes messages up to the first that is no event, which then stands in the input, and answers its length. Events go into
/// the ring.
pub fn await_message<L: Link>(
    order: Order,
    link: &mut L,
    input: &mut [u8],
    ring: &mut Ring,
) -> Result<usize, ConnFault>
    requires { longest_message ≤ length input.old }
    ensures awaits { Answers order (λ found. found) (found_as result input.new) ring.old ring.new
        (L.left link.old) (L.left link.new) }
    ensures gained { Gained ring.old ring.new }
    ensures within { IfOk result (λ n. (8 ≤ n) × (n ≤ longest_message)) }
    ensures fresh { IsFresh result }
    ensures reads { OnlyRead L.left L.sent L.faults (result ≡ Err ConnFault.LinkFault) link.old link.new }
{
    let mut allowed = MOST_EVENTS;
    while allowed > 0 {
        match take_message(order, link, input)? {
            Taken::Event(event) => ring.note(event),
            Taken::Other(length) => return Ok(length),
        }
        allowed -= 1;
    }
    Err(ConnFault::EventFlood)
}

/// Takes one message, which is to be an event.
pub fn take_event<L: Link>(order: Order, link: &mut L, input: &mut [u8]) -> Result<Event, ConnFault>
    requires { longest_message ≤ length input.old }
    ensures takes { TakesFirst result (event_of order) order (L.left link.old) (L.left link.new) }
    ensures message { IsOfMessage result }
    ensures reads { OnlyRead L.left L.sent L.faults (result ≡ Err ConnFault.LinkFault) link.old link.new }
{
    match take_message(order, link, input) {
        Ok(taken) => event_in(taken, input),
        Err(fault) => Err(fault),
    }
}

// The event that was taken, or the fault of another message. The input has its bytes.
fn event_in(taken: Taken, input: &[u8]) -> Result<Event, ConnFault>
    requires { IsTakenWithin (Ok taken) (length input.now) }
    ensures value { Ok (taken_of taken input.now) ≡ taken_as (Ok taken) input.now }
    ensures event { result ≡ event_only (taken_of taken input.now) }
    ensures message { IsOfMessage result }
    ensures sound { result ≢ Err ConnFault.LinkFault }
{
    match taken {
        Taken::Event(event) => Ok(event),
        Taken::Other(length) => Err(bad_reply(&input[..length])),
    }
}
