// Reading a frame as a request: one function for each opcode whose request has more than a detail and one word after it.
ghost use Rattle.std.specs.Prelude.{◌≡◌, ◌↔◌, ◌==◌, if◌then◌else◌, length, option_and_then, option_map, IsNone};
ghost use Rattle.af_request.specs.Asked.{request_meaning};
ghost use Rattle.af_request.specs.Fields.{u32_at, u8_at};
ghost use Rattle.af_request.specs.Requests.{asked_in, asked_by, row_of, IsNoRequest};
ghost use Rattle.af_request.specs.Requests.{no_op_row, create_ac_row, change_ac_row, play_run_row};
ghost use Rattle.af_request.specs.Requests.{record_run_row, set_controls_row};

use crate::{Request, opcode};
use af_time::DevTime;
use af_wire::Order;

/// Reads one whole frame in the byte order of its link. None exactly if its opcode is unknown, or its length is not the opcode's.
/// Padding, and bits that have no meaning, are ignored.
pub fn read_request<'a>(order: Order, frame: &'a [u8]) -> Option<Request<'a>>
    ensures value { option_map request_meaning result ≡ asked_in order frame.entry.now }
    ensures none { IsNone result ↔ IsNoRequest order frame.entry.now }
{
    let opcode = frame.first()?;
    request_of(order, *opcode, frame)
}

fn request_of<'a>(order: Order, opcode: u8, frame: &'a [u8]) -> Option<Request<'a>>
    ensures { option_map request_meaning result
        ≡ option_and_then (asked_by frame.entry.now) (row_of order opcode frame.entry.now) }
{
    match opcode {
        opcode::NO_OP => no_op(frame),
        opcode::GET_TIME => Some(Request::GetTime {
            device: one_word(frame)?,
        }),
        opcode::CREATE_AC => create_ac(order, frame),
        opcode::CHANGE_AC => change_ac(order, frame),
        opcode::FREE_AC => {
            let (_, ac) = two_words(order, frame)?;
            Some(Request::FreeAc { ac })
        }
        opcode::PLAY => play_run(order, frame),
        opcode::RECORD => record_run(order, frame),
        opcode::SELECT_EVENTS => {
            let (device, mask) = two_words(order, frame)?;
            Some(Request::SelectEvents { device, mask })
        }
        opcode::SET_CONTROLS => set_controls(order, frame),
        opcode::QUERY_CONTROLS => Some(Request::QueryControls {
            device: one_word(frame)?,
        }),
        opcode::HOOK_SWITCH => {
            let (device, off) = two_words(order, frame)?;
            Some(Request::HookSwitch { device, off })
        }
        opcode::QUERY_PHONE => Some(Request::QueryPhone {
            device: one_word(frame)?,
        }),
        _ => None,
    }
}

// The detail of a frame of one word.
fn one_word(frame: &[u8]) -> Option<u8>
    ensures { result ≡ if length frame.now == 4 then Some (u8_at 1 frame.now) else None }
{
    let [_, detail, _, _] = frame else {
        return None;
    };
    Some(*detail)
}

// The detail of a frame of two words, and the second word.
fn two_words(order: Order, frame: &[u8]) -> Option<(u8, u32)>
    ensures { result ≡ if length frame.now == 8 then Some (u8_at 1 frame.now, u32_at order 4 frame.now) else None }
{
    let [_, detail, _, _, a, b, c, d] = frame else {
        return None;
    };
    Some((*detail, order.u32([*a, *b, *c, *d])))
}

fn no_op<'a>(frame: &'a [u8]) -> Option<Request<'a>>
    ensures { option_map request_meaning result ≡ asked_by frame.entry.now (no_op_row frame.entry.now) }
{
    let [_, _, _, _] = frame else {
        return None;
    };
    Some(Request::NoOp)
}

fn create_ac<'a>(order: Order, frame: &'a [u8]) -> Option<Request<'a>>
    ensures { option_map request_meaning result ≡ asked_by frame.entry.now (create_ac_row order frame.entry.now) }
{
    let [
        _,
        device,
        _,
        _,
        a,
        b,
        c,
        d,
        ty,
        channels,
        preempt,
        _,
        p,
        q,
        r,
        s,
    ] = frame
    else {
        return None;
    };
    Some(Request::CreateAc {
        device: *device,
        ac: order.u32([*a, *b, *c, *d]),
        ty: *ty,
        channels: *channels,
        preempt: *preempt,
        play_gain: order.i16([*p, *q]),
        record_gain: order.i16([*r, *s]),
    })
}

fn change_ac<'a>(order: Order, frame: &'a [u8]) -> Option<Request<'a>>
    ensures { option_map request_meaning result ≡ asked_by frame.entry.now (change_ac_row order frame.entry.now) }
{
    let [_, mask, _, _, a, b, c, d, preempt, _, _, _, p, q, r, s] = frame else {
        return None;
    };
    Some(Request::ChangeAc {
        mask: *mask,
        ac: order.u32([*a, *b, *c, *d]),
        preempt: *preempt,
        play_gain: order.i16([*p, *q]),
        record_gain: order.i16([*r, *s]),
    })
}

fn play_run<'a>(order: Order, frame: &'a [u8]) -> Option<Request<'a>>
    ensures { option_map request_meaning result ≡ asked_by frame.entry.now (play_run_row order frame.entry.now) }
{
    let [
        _,
        detail,
        _,
        _,
        a,
        b,
        c,
        d,
        e,
        f,
        g,
        h,
        i,
        j,
        k,
        l,
        data @ ..,
    ] = frame
    else {
        return None;
    };
    let nbytes = order.u32([*i, *j, *k, *l]) as usize;
    if data.len() != 4 * nbytes.div_ceil(4) {
        return None;
    }
    Some(Request::PlayRun {
        quiet: *detail & 1 == 1,
        ac: order.u32([*a, *b, *c, *d]),
        time: DevTime(order.u32([*e, *f, *g, *h])),
        samples: &data[..nbytes],
    })
}

fn record_run<'a>(order: Order, frame: &'a [u8]) -> Option<Request<'a>>
    ensures { option_map request_meaning result ≡ asked_by frame.entry.now (record_run_row order frame.entry.now) }
{
    let [_, detail, _, _, a, b, c, d, e, f, g, h, i, j, k, l] = frame else {
        return None;
    };
    Some(Request::RecordRun {
        blocking: *detail & 1 == 1,
        ac: order.u32([*a, *b, *c, *d]),
        time: DevTime(order.u32([*e, *f, *g, *h])),
        nbytes: order.u32([*i, *j, *k, *l]),
    })
}

fn set_controls<'a>(order: Order, frame: &'a [u8]) -> Option<Request<'a>>
    ensures { option_map request_meaning result ≡ asked_by frame.entry.now (set_controls_row order frame.entry.now) }
{
    let [_, device, _, _, mask, input_on, output_on, _, p, q, r, s] = frame else {
        return None;
    };
    Some(Request::SetControls {
        device: *device,
        mask: *mask,
        input_on: *input_on,
        output_on: *output_on,
        input_gain: order.i16([*p, *q]),
        output_gain: order.i16([*r, *s]),
    })
}
