// Reading the body of a reply: one function for each kind of body with more than a number.
ghost use Rattle.std.specs.Prelude.{◌≡◌, ◌≤◌, ◌*◌, ◌==◌, if◌then◌else◌, length, option_map, slice_index, true};
ghost use Rattle.af_limits.specs.Limits.{most_devices};
ghost use Rattle.af_wire.specs.Order.{i16_of};
ghost use Rattle.af_sample.specs.Channels.{is_channel_count};
ghost use Rattle.af_sample.specs.Gains.{gain_of};
ghost use Rattle.af_request.specs.Answer.{reply_meaning, items_of};
ghost use Rattle.af_request.specs.Fields.{u32_at};
ghost use Rattle.af_request.specs.Replies.{answer_in, controls_in, device_in, devices_in, flag_of, is_padded, is_plain, phone_in, phone_of, plain_in, recorded_body, setup_in, is_zero};

use crate::opcode;
use crate::reply::{Controls, DeviceInfo, Devices, Phone, Reply};
use af_sample::{Gain, SampleType, is_listed_rate};
use af_time::DevTime;
use af_wire::Order;

/// Reads the body, in the order of its link, of a reply to a request of this opcode, or to a setup (`SETUP`). None exactly where
/// it is no such body. Its length does not fit, a flag is above 1, a gain outside -30..30, or a type above 3. Or it has channels
/// other than 1 and 2, a rate that is not listed, a horizon that is not 4 seconds, fewer than 1 or more than 8 devices, or
/// padding that is not zero.
pub fn read_reply<'a>(order: Order, opcode: u8, body: &'a [u8]) -> Option<Reply<'a>>
    ensures { option_map reply_meaning result ≡ answer_in order opcode body.entry.now }
{
    if is_plain(opcode) {
        return plain(body);
    }
    match opcode {
        opcode::SETUP => setup(order, body),
        opcode::GET_TIME => Some(Reply::Time {
            time: DevTime(one_word(order, body)?),
        }),
        opcode::PLAY => Some(Reply::Played {
            time: DevTime(one_word(order, body)?),
        }),
        opcode::RECORD => recorded(order, body),
        opcode::QUERY_CONTROLS => controls(order, body),
        opcode::QUERY_PHONE => phone(body),
        _ => None,
    }
}

// Whether the reply to a request of this opcode has no value.
fn is_plain(opcode: u8) -> bool
    ensures { result ≡ is_plain opcode }
{
    matches!(
        opcode,
        opcode::CREATE_AC
            | opcode::CHANGE_AC
            | opcode::FREE_AC
            | opcode::SELECT_EVENTS
            | opcode::SET_CONTROLS
            | opcode::HOOK_SWITCH
    )
}

fn plain<'a>(body: &'a [u8]) -> Option<Reply<'a>>
    ensures { option_map reply_meaning result ≡ plain_in body.entry.now }
{
    if body.is_empty() {
        Some(Reply::Plain)
    } else {
        None
    }
}

// The one number of a body of four bytes.
fn one_word(order: Order, body: &[u8]) -> Option<u32>
    ensures { result ≡ if length body.now == 4 then Some (u32_at order 0 body.now) else None }
{
    let [a, b, c, d] = body else {
        return None;
    };
    Some(order.u32([*a, *b, *c, *d]))
}

fn recorded<'a>(order: Order, body: &'a [u8]) -> Option<Reply<'a>>
    ensures { option_map reply_meaning result ≡ recorded_body order body.entry.now }
{
    let [a, b, c, d, e, f, g, h, data @ ..] = body else {
        return None;
    };
    let nbytes = order.u32([*e, *f, *g, *h]);
    if !is_padded(nbytes, data) {
        return None;
    }
    Some(Reply::Recorded {
        time: DevTime(order.u32([*a, *b, *c, *d])),
        samples: &data[..nbytes as usize],
    })
}

// Whether these are `count` bytes, padded with zeros to a word.
fn is_padded(count: u32, bytes: &[u8]) -> bool
    ensures value { result ≡ is_padded count bytes.now }
    ensures within { result ≡ true → count ≤ length bytes.now }
{
    let count = count as usize;
    bytes.len() == 4 * count.div_ceil(4) && is_padding(&bytes[count..])
}

fn controls<'a>(order: Order, body: &'a [u8]) -> Option<Reply<'a>>
    ensures { option_map reply_meaning result ≡ controls_in order body.entry.now }
{
    let [input_on, output_on, 0, 0, a, b, c, d] = body else {
        return None;
    };
    let input_on = flag(*input_on)?;
    let output_on = flag(*output_on)?;
    let input_gain = gain(order, [*a, *b])?;
    let output_gain = gain(order, [*c, *d])?;
    Some(Reply::Controls {
        controls: Controls {
            input_on,
            output_on,
            input_gain,
            output_gain,
        },
    })
}

fn phone<'a>(body: &'a [u8]) -> Option<Reply<'a>>
    ensures { option_map reply_meaning result ≡ phone_in body.entry.now }
{
    let [wanted_off, given_off, ringing, current, dead, padding @ ..] = body else {
        return None;
    };
    if padding.len() != 3 || !is_padding(padding) {
        return None;
    }
    let phone = phone_of([*wanted_off, *given_off, *ringing, *current, *dead])?;
    Some(Reply::Phone { phone })
}

fn phone_of(flags: [u8; 5]) -> Option<Phone>
    ensures { result ≡ phone_of (flag_of (slice_index flags 0)) (flag_of (slice_index flags 1)) (flag_of (slice_index flags 2))
        (flag_of (slice_index flags 3)) (flag_of (slice_index flags 4)) }
{
    let [wanted_off, given_off, ringing, current, dead] = flags;
    Some(Phone {
        wanted_off: flag(wanted_off)?,
        given_off: flag(given_off)?,
        ringing: flag(ringing)?,
        current: flag(current)?,
        dead: flag(dead)?,
    })
}

fn setup<'a>(order: Order, body: &'a [u8]) -> Option<Reply<'a>>
    ensures { option_map reply_meaning result ≡ setup_in order body.entry.now }
{
    let [a, b, c, d, e, f, g, h, data @ ..] = body else {
        return None;
    };
    let major = order.u16([*a, *b]);
    let minor = order.u16([*c, *d]);
    let count = order.u32([*e, *f, *g, *h]) as usize;
    if major != 1 || minor != 0 || count == 0 || count > 8 || data.len() != 12 * count {
        return None;
    }
    let devices = devices(order, count, data)?;
    Some(Reply::Setup { devices })
}

// The devices that n times 12 bytes of the reply to a setup describe.
fn devices(order: Order, count: usize, bytes: &[u8]) -> Option<Devices>
    requires most { count ≤ most_devices }
    requires whole { length bytes.now ≡ 12 * count }
    ensures { option_map items_of result ≡ devices_in order count bytes.now }
{
    let mut devices = Devices::new();
    for i in 0..count {
        let at = 12 * i;
        devices.push(device(order, &bytes[at..at + 12])?);
    }
    Some(devices)
}

// The device that 12 bytes of the reply to a setup describe.
fn device(order: Order, bytes: &[u8]) -> Option<DeviceInfo>
    requires { length bytes.now ≡ 12 }
    ensures { result ≡ device_in order bytes.now }
{
    let [ty, channels, line, 0, a, b, c, d, e, f, g, h] = bytes else {
        return None;
    };
    let rate = order.u32([*a, *b, *c, *d]);
    let horizon = order.u32([*e, *f, *g, *h]);
    let ty = SampleType::of_code(*ty)?;
    let line = flag(*line)?;
    if is_channel_count(*channels) && is_listed_rate(rate) && horizon == rate * 4 {
        Some(DeviceInfo {
            ty,
            channels: *channels,
            line,
            rate,
            horizon,
        })
    } else {
        None
    }
}

// Whether a device can have so many channels.
fn is_channel_count(channels: u8) -> bool
    ensures { result ≡ is_channel_count channels }
{
    channels == 1 || channels == 2
}

fn flag(byte: u8) -> Option<bool>
    ensures { result ≡ flag_of byte }
{
    match byte {
        0 => Some(false),
        1 => Some(true),
        _ => None,
    }
}

// The gain whose decibels two bytes state.
fn gain(order: Order, bytes: [u8; 2]) -> Option<Gain>
    ensures { result ≡ gain_of (i16_of order bytes) }
{
    Gain::new(i32::from(order.i16(bytes)))
}

fn is_padding(bytes: &[u8]) -> bool
    ensures { result ≡ is_zero bytes.now }
{
    bytes.iter().all(|b| *b == 0)
}
