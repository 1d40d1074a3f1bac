// Writing a reply as a message.
ghost use Rattle.std.specs.Prelude.{◌≡◌, ◌≤◌, ◌+◌, ◌*◌, ◌++◌, drop, length, take};
ghost use Rattle.af_limits.specs.Limits.{most_devices, longest_record, longest_message};
ghost use Rattle.af_wire.specs.Message.{head};
ghost use Rattle.af_wire.specs.MessageFront.{IsOneMessage};
ghost use Rattle.af_request.specs.Answer.{reply_meaning, recorded, setup};
ghost use Rattle.af_request.specs.Answer.{controls as controls_answer};
ghost use Rattle.af_request.specs.Fields.{words_for};
ghost use Rattle.af_request.specs.Opcodes as opcodes;
ghost use Rattle.af_wire.specs.Order.{i16_bytes};
ghost use Rattle.af_request.specs.Replies.{answer_in, body_bytes, body_words, device_bytes, phone_bytes, reply_bytes, FitsMessage, IsReplyTo};

use crate::opcode;
use crate::put::{put, put_zeros};
use crate::reply::{Controls, DeviceInfo, Phone, Reply};
use af_sample::Gain;
use af_time::DevTime;
use af_wire::{Order, write_head};

/// Writes the reply, in an order, to a request of this opcode, or to a setup (`SETUP`), and answers how many bytes that are.
/// Recorded samples have at most 16000 bytes.
pub fn write_reply(
    order: Order,
    opcode: u8,
    reply: &Reply<'_>,
    sequence: u16,
    out: &mut [u8],
) -> usize
    requires samples { FitsMessage (reply_meaning reply.now) }
    requires room { longest_message ≤ length out.old }
    ensures size { result ≡ 8 + 4 * body_words (reply_meaning reply.now) }
    ensures most { result ≤ longest_message }
    ensures bytes { take result out.new ≡ reply_bytes order opcode (reply_meaning reply.now) sequence }
    ensures one { IsReplyTo opcode (reply_meaning reply.now) → IsOneMessage order 1 opcode sequence (take result out.new) }
    ensures again { IsReplyTo opcode (reply_meaning reply.now) →
        answer_in order opcode (drop 8 (take result out.new)) ≡ Some (reply_meaning reply.now) }
{
    let at = put_head(order, out, opcode, sequence, words_of(reply));
    put_body(order, out, at, reply)
}

/// Where the samples of a reply to a Record begin: after the header, the time and the count of their bytes.
pub const RECORDED_AT: usize = 16;

/// Writes the reply, in an order, to a Record around its samples, n bytes of them, at most 16000, which stand in the message
/// already, from `RECORDED_AT` on. Answers how many bytes the message has.
pub fn write_recorded(order: Order, time: DevTime, n: usize, sequence: u16, out: &mut [u8]) -> usize
    requires samples { n ≤ longest_record }
    requires room { longest_message ≤ length out.old }
    ensures most { result ≤ longest_message }
    ensures bytes { take result out.new ≡ reply_bytes order opcodes.record (recorded time.0 (take n (drop 16 out.old))) sequence }
{
    let words = 2 + n.div_ceil(4) as u32;
    let (front, samples) = out.split_at_mut(RECORDED_AT);
    let at = put_head(order, front, opcode::RECORD, sequence, words);
    let at = put(front, at, &order.u32_bytes(time.0));
    put(front, at, &order.u32_bytes(n as u32));
    RECORDED_AT + put_zeros(samples, n, 4 * n.div_ceil(4) - n)
}

fn put_body(order: Order, out: &mut [u8], at: usize, reply: &Reply<'_>) -> usize
    requires samples { FitsMessage (reply_meaning reply.now) }
    requires room { at + 16008 ≤ length out.old }
    ensures end { result ≡ at + 4 * body_words (reply_meaning reply.now) }
    ensures most { result ≤ at + 16008 }
    ensures bytes { take result out.new ≡ take at out.old ++ body_bytes order (reply_meaning reply.now) }
{
    match reply {
        Reply::Setup { devices } => put_devices(order, out, at, devices.as_slice()),
        Reply::Plain => at,
        Reply::Time { time } => put(out, at, &order.u32_bytes(time.0)),
        Reply::Played { time } => put(out, at, &order.u32_bytes(time.0)),
        Reply::Recorded { time, samples } => put_recorded(order, out, at, time.0, samples),
        Reply::Controls { controls } => put_controls(order, out, at, controls),
        Reply::Phone { phone } => put_phone(out, at, phone),
    }
}

// How many words the body of a reply has.
fn words_of(reply: &Reply<'_>) -> u32
    requires { FitsMessage (reply_meaning reply.now) }
    ensures value { result ≡ body_words (reply_meaning reply.now) }
{
    match reply {
        Reply::Setup { devices } => 2 + 3 * devices.len() as u32,
        Reply::Plain => 0,
        Reply::Time { .. } | Reply::Played { .. } => 1,
        Reply::Recorded { samples, .. } => 2 + samples.len().div_ceil(4) as u32,
        Reply::Controls { .. } | Reply::Phone { .. } => 2,
    }
}

// The header of a reply.
#[tactic(auto, unfolding(af_wire::specs::Message::head))]
fn put_head(order: Order, out: &mut [u8], opcode: u8, sequence: u16, words: u32) -> usize
    requires { 8 ≤ length out.old }
    ensures end { result ≡ 8 }
    ensures bytes { take result out.new ≡ head order 1 opcode sequence words }
{
    write_head(order, 1, opcode, sequence, words, &mut out[..8]);
    8
}

// The version, the count of the devices, and each of them.
fn put_devices(order: Order, out: &mut [u8], at: usize, devices: &[DeviceInfo]) -> usize
    requires most { length devices.now ≤ most_devices }
    requires room { at + 104 ≤ length out.old }
    ensures end { result ≡ at + 8 + 12 * length devices.now }
    ensures bytes { take result out.new ≡ take at out.old ++ body_bytes order (setup devices.now) }
{
    let at = put(out, at, &order.u16_bytes(1));
    let at = put(out, at, &order.u16_bytes(0));
    let mut at = put(out, at, &order.u32_bytes(devices.len() as u32));
    for device in devices {
        at = put_device(order, out, at, *device);
    }
    at
}

fn put_device(order: Order, out: &mut [u8], at: usize, device: DeviceInfo) -> usize
    requires { at + 12 ≤ length out.old }
    ensures end { result ≡ at + 12 }
    ensures bytes { take result out.new ≡ take at out.old ++ device_bytes order device }
{
    let [a, b, c, d] = order.u32_bytes(device.rate);
    let [e, f, g, h] = order.u32_bytes(device.horizon);
    let line = u8::from(device.line);
    put(
        out,
        at,
        &[
            device.ty.code(),
            device.channels,
            line,
            0,
            a,
            b,
            c,
            d,
            e,
            f,
            g,
            h,
        ],
    )
}

// The time, the count of the bytes, and the bytes padded with zeros to a word.
fn put_recorded(order: Order, out: &mut [u8], at: usize, time: u32, samples: &[u8]) -> usize
    requires samples { length samples.now ≤ longest_record }
    requires room { at + 16008 ≤ length out.old }
    ensures end { result ≡ at + 8 + 4 * words_for (length samples.now) }
    ensures bytes { take result out.new ≡ take at out.old ++ body_bytes order (recorded time samples.now) }
{
    let at = put(out, at, &order.u32_bytes(time));
    let at = put(out, at, &order.u32_bytes(samples.len() as u32));
    let at = put(out, at, samples);
    put_zeros(out, at, 4 * samples.len().div_ceil(4) - samples.len())
}

fn put_controls(order: Order, out: &mut [u8], at: usize, controls: &Controls) -> usize
    requires { at + 8 ≤ length out.old }
    ensures end { result ≡ at + 8 }
    ensures bytes { take result out.new ≡ take at out.old ++ body_bytes order (controls_answer controls.now) }
{
    let input_on = u8::from(controls.input_on);
    let output_on = u8::from(controls.output_on);
    let [a, b] = gain_bytes(order, controls.input_gain);
    let [c, d] = gain_bytes(order, controls.output_gain);
    put(out, at, &[input_on, output_on, 0, 0, a, b, c, d])
}

fn gain_bytes(order: Order, gain: Gain) -> [u8; 2]
    ensures { result ≡ i16_bytes order gain }
{
    order.i16_bytes(gain.db() as i16)
}

fn put_phone(out: &mut [u8], at: usize, phone: &Phone) -> usize
    requires { at + 8 ≤ length out.old }
    ensures end { result ≡ at + 8 }
    ensures bytes { take result out.new ≡ take at out.old ++ phone_bytes phone.now }
{
    let wanted_off = u8::from(phone.wanted_off);
    let given_off = u8::from(phone.given_off);
    let ringing = u8::from(phone.ringing);
    let current = u8::from(phone.current);
    let dead = u8::from(phone.dead);
    put(
        out,
        at,
        &[wanted_off, given_off, ringing, current, dead, 0, 0, 0],
    )
}
