// Sending a request, and taking its answer.
ghost use Rattle.std.specs.Prelude.{◌≡◌, ◌≢◌, ◌≤◌, length, IfOk, Ok, Err, IsSome};
ghost use Rattle.af_limits.specs.Limits.{longest_frame, longest_message};
ghost use Rattle.af_io.specs.Observed.{CountsFault};
ghost use Rattle.af_io.specs.Flow.{Written};
ghost use Rattle.af_wire.specs.Front.{setup_bytes};
ghost use Rattle.af_request.specs.Asked.{request_meaning};
ghost use Rattle.af_request.specs.Requests.{request_bytes, FitsFrame};
ghost use Rattle.af_request.specs.Opcodes as opcodes;
ghost use Rattle.af_lib.specs.Answers.{and_then, answer_to, refused_in};
ghost use Rattle.af_lib.specs.Calls.{cause_of, opcode_of, Answers, Exchanged, IsFresh};
ghost use Rattle.af_lib.specs.Receive.{found_as, HasBuffers};
ghost use Rattle.af_lib.specs.Ring.{Gained};
ghost use Rattle.af_lib.specs.Observed.{OnlyRead};

use crate::fault::{Cause, ConnFault};
use crate::receive::{await_message, bad_reply};
use crate::ring::Ring;
use af_io::{Link, Put};
use af_request::{Request, opcode, write_request};
use af_wire::Order;

/// What a connection exchanges messages by: its link, the ring of events that come before an answer, and a buffer for one message
/// each way.
#[derive(Drop)]
pub struct Exchange<L: Link + Drop> {
    pub link: L,
    pub ring: Ring,
    pub input: Vec<u8>,
    pub output: Vec<u8>,
}

/// The fault, if a connection can be used no more after it.
pub fn cause_of<T>(answer: &Result<T, ConnFault>) -> Option<Cause>
    ensures { result ≡ cause_of answer.now }
{
    match answer {
        Err(ConnFault::LinkFault) => Some(Cause::LinkFault),
        Err(ConnFault::LinkEnded) => Some(Cause::LinkEnded),
        Err(ConnFault::BadReply { .. }) => Some(Cause::BadReply),
        Err(ConnFault::EventFlood) => Some(Cause::EventFlood),
        _ => None,
    }
}

/// The opcode of a request.
pub fn opcode_of(request: &Request<'_>) -> u8
    ensures { result ≡ opcode_of (request_meaning request.now) }
{
    match request {
        Request::NoOp => opcode::NO_OP,
        Request::GetTime { .. } => opcode::GET_TIME,
        Request::CreateAc { .. } => opcode::CREATE_AC,
        Request::ChangeAc { .. } => opcode::CHANGE_AC,
        Request::FreeAc { .. } => opcode::FREE_AC,
        Request::PlayRun { .. } => opcode::PLAY,
        Request::RecordRun { .. } => opcode::RECORD,
        Request::SelectEvents { .. } => opcode::SELECT_EVENTS,
        Request::SetControls { .. } => opcode::SET_CONTROLS,
        Request::QueryControls { .. } => opcode::QUERY_CONTROLS,
        Request::HookSwitch { .. } => opcode::HOOK_SWITCH,
        Request::QueryPhone { .. } => opcode::QUERY_PHONE,
    }
}

// The value that an error refuses, in a request of this opcode.
fn refused_in(order: Order, opcode: u8, body: &[u8]) -> Option<u32>
    ensures { result ≡ refused_in order opcode body.now }
{
    let [a, b, c, d, asked, 0, 0, 0] = body else {
        return None;
    };
    if *asked == opcode {
        Some(order.u32([*a, *b, *c, *d]))
    } else {
        None
    }
}

// Whether a message that is no event is the reply to a request with this opcode and number, or else what it is.
fn answer_to(order: Order, opcode: u8, sequence: u16, bytes: &[u8]) -> Result<(), ConnFault>
    requires { 8 ≤ length bytes.now }
    ensures value { and_then (λ _. Ok bytes.now) result ≡ answer_to order opcode sequence bytes.now }
    ensures fresh { IsFresh result }
    ensures sound { result ≢ Err ConnFault.LinkFault }
{
    let answers = order.u16([bytes[2], bytes[3]]) == sequence;
    if answers && bytes[0] == 1 && bytes[1] == opcode {
        return Ok(());
    }
    if !answers || bytes[0] != 0 {
        return Err(bad_reply(bytes));
    }
    match refused_in(order, opcode, &bytes[8..]) {
        Some(value) => Err(ConnFault::ServerError {
            code: bytes[1],
            value,
        }),
        None => Err(bad_reply(bytes)),
    }
}

/// Takes messages up to the answer to a request of an opcode with a number. A reply stands in the input then, and its
/// length is answered.
pub fn await_answer<L: Link>(
    order: Order,
    link: &mut L,
    ring: &mut Ring,
    input: &mut [u8],
    opcode: u8,
    sequence: u16,
) -> Result<usize, ConnFault>
    requires { longest_message ≤ length input.old }
    ensures finds { Answers order (and_then (answer_to order opcode sequence)) (found_as result input.new)
        ring.old ring.new (L.left link.old) (L.left link.new) }
    ensures gained { Gained ring.old ring.new }
    ensures within { IfOk result (λ n. (8 ≤ n) × (n ≤ longest_message)) }
    ensures fresh { IsFresh result }
    ensures reads { OnlyRead L.left L.sent L.faults (result ≡ Err ConnFault.LinkFault) link.old link.new }
{
    let length = await_message(order, link, input, ring)?;
    match answer_to(order, opcode, sequence, &input[..length]) {
        Ok(()) => Ok(length),
        Err(fault) => Err(fault),
    }
}

// Sends a request.
fn send<L: Link>(order: Order, link: &mut L, output: &mut [u8], request: &Request<'_>) -> Put
    requires samples { FitsFrame (request_meaning request.now) }
    requires room { longest_frame ≤ length output.old }
    ensures written { Written result (L.sent link.old) (request_bytes order (request_meaning request.now)) (L.sent link.new) }
    ensures gives { L.left link.new ≡ L.left link.old }
    ensures tells { IsSome (L.left link.old) → IsSome (L.left link.new) }
    ensures faults { CountsFault (result ≡ Put.Failed) (L.faults link.old) (L.faults link.new) }
{
    let length = write_request(order, request, output);
    link.write(&output[..length])
}

/// Sends a request with a number, and takes messages up to its answer. A reply stands in the input then, and its length is
/// answered.
pub fn ask<L: Link + Drop>(
    order: Order,
    exchange: &mut Exchange<L>,
    request: &Request<'_>,
    sequence: u16,
) -> Result<usize, ConnFault>
    requires samples { FitsFrame (request_meaning request.now) }
    requires room { HasBuffers exchange.old.input.items exchange.old.output.items }
    ensures exchanged { Exchanged L.left L.sent L.faults order (request_bytes order (request_meaning request.now))
        (and_then (answer_to order (opcode_of (request_meaning request.now)) sequence))
        (found_as result exchange.new.input.items) exchange.old.link exchange.new.link exchange.old.ring exchange.new.ring }
    ensures within { IfOk result (λ n. (8 ≤ n) × (n ≤ longest_message)) }
    ensures room { HasBuffers exchange.new.input.items exchange.new.output.items }
{
    match send(order, &mut exchange.link, &mut exchange.output, request) {
        Put::Done => await_answer(
            order,
            &mut exchange.link,
            &mut exchange.ring,
            &mut exchange.input,
            opcode_of(request),
            sequence,
        ),
        Put::Failed => Err(ConnFault::LinkFault),
    }
}

/// Sends the setup of an order, and takes messages up to its answer.
pub fn await_setup<L: Link>(
    order: Order,
    link: &mut L,
    ring: &mut Ring,
    input: &mut [u8],
) -> Result<usize, ConnFault>
    requires { longest_message ≤ length input.old }
    ensures exchanged { Exchanged L.left L.sent L.faults order (setup_bytes order) (and_then (answer_to order opcodes.setup 0))
        (found_as result input.new) link.old link.new ring.old ring.new }
    ensures within { IfOk result (λ n. (8 ≤ n) × (n ≤ longest_message)) }
{
    match link.write(&order.setup()) {
        Put::Done => await_answer(order, link, ring, input, opcode::SETUP, 0),
        Put::Failed => Err(ConnFault::LinkFault),
    }
}
