// Replies as the values that they state, one impl for each kind of request.
ghost use Rattle.std.specs.Prelude.{◌≡◌, ◌≢◌, ◌≤◌, length, option_map, Err, IfOk, IfSome, IsTrue};
ghost use Rattle.std.specs.Result.{result_ok};
ghost use Rattle.std.specs.declared.option.Option.{Option};
ghost use Rattle.af_limits.specs.Limits.{longest_message};
ghost use Rattle.af_wire.specs.Front.{setup_bytes};
ghost use Rattle.af_request.specs.Answer.{Answer, reply_meaning as answered_by, setup, items_of};
ghost use Rattle.af_request.specs.Asked.{request_meaning};
ghost use Rattle.af_request.specs.Replies.{IsReplyTo};
ghost use Rattle.af_request.specs.Requests.{request_bytes, FitsFrame};
ghost use Rattle.af_request.specs.Opcodes as opcodes;
ghost use Rattle.af_lib.specs.Answers.{value_or_bad};
ghost use Rattle.af_lib.specs.Receive.{HasBuffers};
ghost use Rattle.af_lib.specs.Calls.{answer_of, as_controls, as_devices, as_done, as_phone, as_recorded, as_time, device_list, opcode_of, recorded_as, recorded_in, value_in, Exchanged, IsFresh, KeepsTail};

use crate::exchange::{Exchange, ask, await_setup, opcode_of};
use crate::fault::ConnFault;
use crate::receive::bad_reply;
use crate::ring::Ring;
use af_io::Link;
use af_request::{Controls, Devices, Phone, Reply, Request, opcode, read_reply};
use af_time::DevTime;
use af_wire::Order;

// The value of a reply, or the fault of a message without one.
fn or_bad<T>(value: Option<T>, bytes: &[u8]) -> Result<T, ConnFault>
    requires { 8 ≤ length bytes.now }
    ensures value { result ≡ value_or_bad bytes.now value }
    ensures fresh { IsFresh result }
    ensures sound { result ≢ Err ConnFault.LinkFault }
{
    match value {
        Some(value) => Ok(value),
        None => Err(bad_reply(bytes)),
    }
}

/// A value that the reply to a request states.
pub trait FromReply: Sized {
    ghost value_of: { Answer → Option Self };

    /// The value, if the reply is of its kind.
    fn stated_in(reply: &Reply<'_>) -> Option<Self>
        ensures { result ≡ value_of (answered_by reply.now) };
}

/// That the request was performed, which is all that its reply says.
impl FromReply for () {
    ghost value_of = { as_done };

    fn stated_in(reply: &Reply<'_>) -> Option<()> {
        match reply {
            Reply::Plain => Some(()),
            _ => None,
        }
    }
}

/// The device's time, after GetTime and Play.
impl FromReply for DevTime {
    ghost value_of = { as_time };

    fn stated_in(reply: &Reply<'_>) -> Option<DevTime> {
        match reply {
            Reply::Time { time } | Reply::Played { time } => Some(*time),
            _ => None,
        }
    }
}

impl FromReply for Controls {
    ghost value_of = { as_controls };

    fn stated_in(reply: &Reply<'_>) -> Option<Controls> {
        match reply {
            Reply::Controls { controls } => Some(*controls),
            _ => None,
        }
    }
}

impl FromReply for Phone {
    ghost value_of = { as_phone };

    fn stated_in(reply: &Reply<'_>) -> Option<Phone> {
        match reply {
            Reply::Phone { phone } => Some(*phone),
            _ => None,
        }
    }
}

// The value of a message that is a reply. If its body states none, the message is bad.
fn value_in<T: FromReply>(order: Order, opcode: u8, bytes: &[u8]) -> Result<T, ConnFault>
    requires { 8 ≤ length bytes.now }
    ensures value { result ≡ value_in order T.value_of opcode bytes.now }
    ensures fresh { IsFresh result }
    ensures sound { result ≢ Err ConnFault.LinkFault }
{
    match read_reply(order, opcode, &bytes[8..]) {
        Some(reply) => or_bad(T::stated_in(&reply), bytes),
        None => Err(bad_reply(bytes)),
    }
}

/// Sends a request, and takes its answer: a value that the reply states.
pub fn ask_value<T: FromReply, L: Link + Drop>(
    order: Order,
    exchange: &mut Exchange<L>,
    request: &Request<'_>,
    sequence: u16,
) -> Result<T, ConnFault>
    requires samples { FitsFrame (request_meaning request.now) }
    requires room { HasBuffers exchange.old.input.items exchange.old.output.items }
    ensures exchanged { Exchanged L.left L.sent L.faults order (request_bytes order (request_meaning request.now))
        (answer_of order T.value_of (opcode_of (request_meaning request.now)) sequence) result
        exchange.old.link exchange.new.link exchange.old.ring exchange.new.ring }
    ensures room { HasBuffers exchange.new.input.items exchange.new.output.items }
{
    match ask(order, exchange, request, sequence) {
        Ok(length) => value_in(order, opcode_of(request), &exchange.input[..length]),
        Err(fault) => Err(fault),
    }
}

// Stores the recorded samples of a reply, if they are as many as were asked for. A request that does not block may get fewer.
fn recorded_of(reply: &Reply<'_>, blocking: bool, into: &mut [u8]) -> Option<(DevTime, usize)>
    ensures value { option_map (recorded_as into.new) result ≡ as_recorded blocking (length into.old) (answered_by reply.now) }
    ensures kept { KeepsTail result into.old into.new }
    ensures within { IfSome result (λ r. r.1 ≤ length into.old) }
    ensures all { IfSome result (λ r. IsTrue blocking → r.1 ≡ length into.old) }
{
    let Reply::Recorded { time, samples } = reply else {
        return None;
    };
    let count = samples.len();
    if count > into.len() || blocking && count < into.len() {
        return None;
    }
    into[..count].copy_from_slice(samples);
    Some((*time, count))
}

fn recorded_in(
    order: Order,
    opcode: u8,
    bytes: &[u8],
    blocking: bool,
    into: &mut [u8],
) -> Result<(DevTime, usize), ConnFault>
    requires { 8 ≤ length bytes.now }
    ensures value { recorded_in result into.new ≡ value_in order (as_recorded blocking (length into.old)) opcode bytes.now }
    ensures kept { KeepsTail (result_ok result) into.old into.new }
    ensures within { IfOk result (λ r. r.1 ≤ length into.old) }
    ensures all { IfOk result (λ r. IsTrue blocking → r.1 ≡ length into.old) }
    ensures fresh { IsFresh result }
    ensures sound { result ≢ Err ConnFault.LinkFault }
{
    match read_reply(order, opcode, &bytes[8..]) {
        Some(reply) => or_bad(recorded_of(&reply, blocking, into), bytes),
        None => Err(bad_reply(bytes)),
    }
}

/// Sends a request for samples, and takes its answer.
pub fn ask_recorded<L: Link + Drop>(
    order: Order,
    exchange: &mut Exchange<L>,
    request: &Request<'_>,
    sequence: u16,
    blocking: bool,
    into: &mut [u8],
) -> Result<(DevTime, usize), ConnFault>
    requires samples { FitsFrame (request_meaning request.now) }
    requires room { HasBuffers exchange.old.input.items exchange.old.output.items }
    ensures exchanged { Exchanged L.left L.sent L.faults order (request_bytes order (request_meaning request.now))
        (answer_of order (as_recorded blocking (length into.old)) (opcode_of (request_meaning request.now)) sequence)
        (recorded_in result into.new) exchange.old.link exchange.new.link exchange.old.ring exchange.new.ring }
    ensures kept { KeepsTail (result_ok result) into.old into.new }
    ensures within { IfOk result (λ r. r.1 ≤ length into.old) }
    ensures all { IfOk result (λ r. IsTrue blocking → r.1 ≡ length into.old) }
    ensures room { HasBuffers exchange.new.input.items exchange.new.output.items }
{
    match ask(order, exchange, request, sequence) {
        Ok(length) => recorded_in(
            order,
            opcode_of(request),
            &exchange.input[..length],
            blocking,
            into,
        ),
        Err(fault) => Err(fault),
    }
}

fn devices_of(reply: Reply<'_>) -> Option<Devices>
    ensures { option_map items_of result ≡ as_devices (answered_by reply.entry) }
{
    match reply {
        Reply::Setup { devices } => Some(devices),
        _ => None,
    }
}

fn devices_in(order: Order, bytes: &[u8]) -> Result<Devices, ConnFault>
    requires { 8 ≤ length bytes.now }
    ensures value { device_list result ≡ value_in order as_devices opcodes.setup bytes.now }
    ensures stated { IfOk result (λ devices. IsReplyTo opcodes.setup (setup devices.items)) }
    ensures fresh { IsFresh result }
    ensures sound { result ≢ Err ConnFault.LinkFault }
{
    match read_reply(order, opcode::SETUP, &bytes[8..]) {
        Some(reply) => or_bad(devices_of(reply), bytes),
        None => Err(bad_reply(bytes)),
    }
}

/// Sends the setup of an order, and takes its answer.
pub fn set_up<L: Link>(
    order: Order,
    link: &mut L,
    ring: &mut Ring,
    input: &mut [u8],
) -> Result<Devices, ConnFault>
    requires { longest_message ≤ length input.old }
    ensures exchanged { Exchanged L.left L.sent L.faults order (setup_bytes order) (answer_of order as_devices opcodes.setup 0)
        (device_list result) link.old link.new ring.old ring.new }
    ensures stated { IfOk result (λ devices. IsReplyTo opcodes.setup (setup devices.items)) }
{
    match await_setup(order, link, ring, input) {
        Ok(length) => devices_in(order, &input[..length]),
        Err(fault) => Err(fault),
    }
}
