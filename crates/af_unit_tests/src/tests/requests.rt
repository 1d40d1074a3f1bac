// Each request and each reply with its bytes written out by hand, both ways, and bytes that are refused.
ghost use Rattle.std.specs.Prelude.{◌≡◌, true};
ghost use Rattle.af_request.specs.Asked.{request_meaning as asked};
ghost use Rattle.af_request.specs.Answer.{reply_meaning as answered};
ghost use Rattle.af_request.specs.Requests.{FitsFrame as PlaysWithin};
ghost use Rattle.af_request.specs.Replies.{FitsMessage as RecordsWithin};

use crate::tests::asserts::assert_bytes;
use af_request::*;
use af_sample::{Gain, SampleType};
use af_time::DevTime;
use af_wire::Order;
use std::process::Abort;

#[test]
fn requests_are_written_and_read(rt: HostRuntime) {
    let create = Request::CreateAc {
        device: 1,
        ac: 7,
        ty: 2,
        channels: 1,
        preempt: 1,
        play_gain: -6,
        record_gain: 6,
    };
    let change = Request::ChangeAc {
        mask: 5,
        ac: 256,
        preempt: 1,
        play_gain: 30,
        record_gain: -30,
    };
    let play = Request::PlayRun {
        quiet: false,
        ac: 1,
        time: DevTime(100),
        samples: &[1, 2, 3, 4],
    };
    let quiet = Request::PlayRun {
        quiet: true,
        ac: 1,
        time: DevTime(0x8000_0000),
        samples: &[9],
    };
    let record = Request::RecordRun {
        blocking: true,
        ac: 2,
        time: DevTime(257),
        nbytes: 16000,
    };
    let select = Request::SelectEvents {
        device: 2,
        mask: 15,
    };
    let set = Request::SetControls {
        device: 4,
        mask: 3,
        input_on: 1,
        output_on: 0,
        input_gain: -1,
        output_gain: 2,
    };
    let hook = Request::HookSwitch { device: 6, off: 1 };
    assert_requests(
        &rt,
        Order::Big,
        &[
            (Request::NoOp, &[1, 0, 0, 1]),
            (Request::GetTime { device: 3 }, &[2, 3, 0, 1]),
            (
                create,
                &[3, 1, 0, 4, 0, 0, 0, 7, 2, 1, 1, 0, 0xFF, 0xFA, 0, 6],
            ),
            (
                change,
                &[4, 5, 0, 4, 0, 0, 1, 0, 1, 0, 0, 0, 0, 30, 0xFF, 0xE2],
            ),
            (Request::FreeAc { ac: 9 }, &[5, 0, 0, 2, 0, 0, 0, 9]),
            (
                play,
                &[6, 0, 0, 5, 0, 0, 0, 1, 0, 0, 0, 100, 0, 0, 0, 4, 1, 2, 3, 4],
            ),
            (
                quiet,
                &[
                    6, 1, 0, 5, 0, 0, 0, 1, 0x80, 0, 0, 0, 0, 0, 0, 1, 9, 0, 0, 0,
                ],
            ),
            (
                record,
                &[7, 1, 0, 4, 0, 0, 0, 2, 0, 0, 1, 1, 0, 0, 0x3E, 0x80],
            ),
            (select, &[8, 2, 0, 2, 0, 0, 0, 15]),
            (set, &[9, 4, 0, 3, 3, 1, 0, 0, 0xFF, 0xFF, 0, 2]),
            (Request::QueryControls { device: 5 }, &[10, 5, 0, 1]),
            (hook, &[11, 6, 0, 2, 0, 0, 0, 1]),
            (Request::QueryPhone { device: 7 }, &[12, 7, 0, 1]),
        ],
    );
    // samples are in no order
    assert_requests(
        &rt,
        Order::Little,
        &[
            (Request::NoOp, &[1, 0, 1, 0]),
            (
                create,
                &[3, 1, 4, 0, 7, 0, 0, 0, 2, 1, 1, 0, 0xFA, 0xFF, 6, 0],
            ),
            (
                play,
                &[6, 0, 5, 0, 1, 0, 0, 0, 100, 0, 0, 0, 4, 0, 0, 0, 1, 2, 3, 4],
            ),
            (
                record,
                &[7, 1, 4, 0, 2, 0, 0, 0, 1, 1, 0, 0, 0x80, 0x3E, 0, 0],
            ),
            (select, &[8, 2, 2, 0, 15, 0, 0, 0]),
            (set, &[9, 4, 3, 0, 3, 1, 0, 0, 0xFF, 0xFF, 2, 0]),
        ],
    );
}

// Each request is written as its frame, and read from it.
fn assert_requests(rt: &impl Abort, order: Order, cases: &[(Request<'_>, &[u8])]) {
    for (request, frame) in cases {
        assert!(rt; plays_within(request), "a play is too long");
        let mut out = [0xAA; 16384];
        let length = write_request(order, request, &mut out);
        assert_bytes(rt, "a request", &out[..length], frame);
        assert_read(rt, order, frame, Some(*request));
    }
}

fn plays_within(request: &Request<'_>) -> bool
    ensures { result ≡ true → PlaysWithin (asked request.now) }
{
    match request {
        Request::PlayRun { samples, .. } => samples.len() <= 16368,
        _ => true,
    }
}

fn assert_read(rt: &impl Abort, order: Order, frame: &[u8], request: Option<Request<'_>>) {
    assert!(rt; read_request(order, frame) == request, "{frame:?}");
}

#[test]
fn padding_and_unnamed_bits_are_ignored(rt: HostRuntime) {
    let play = Request::PlayRun {
        quiet: false,
        ac: 1,
        time: DevTime(0),
        samples: &[9],
    };
    let frame = [
        6, 0xFE, 0, 5, 0, 0, 0, 1, 0, 0, 0, 0, 0, 0, 0, 1, 9, 7, 7, 7,
    ];
    assert_read(&rt, Order::Big, &frame, Some(play));
}

#[test]
fn another_opcode_or_length_is_no_request(rt: HostRuntime) {
    assert_no_requests(
        &rt,
        &[
            // unknown opcodes, other lengths, and plays of other counts of bytes
            &[0, 0, 0, 1],
            &[13, 0, 0, 1],
            &[1, 0, 0, 2, 0, 0, 0, 0],
            &[3, 0, 0, 3, 0, 0, 0, 1, 2, 1, 0, 0],
            &[5, 0, 0, 1],
            &[6, 0, 0, 4, 0, 0, 0, 1, 0, 0, 0, 0, 0xFF, 0xFF, 0xFF, 0xFF],
            &[6, 0, 0, 4, 0, 0, 0, 1, 0, 0, 0, 0, 0, 0, 0, 1],
            &[6, 0, 0, 5, 0, 0, 0, 1, 0, 0, 0, 0, 0, 0, 0, 5, 1, 2, 3, 4],
            &[6, 0, 0, 5, 0, 0, 0, 1, 0, 0, 0, 0, 0, 0, 0, 0, 1, 2, 3, 4],
        ],
    );
}

fn assert_no_requests(rt: &impl Abort, frames: &[&[u8]]) {
    for frame in frames {
        assert_read(rt, Order::Big, frame, None);
    }
}

#[test]
fn replies_are_written_and_read(rt: HostRuntime) {
    let time = DevTime(0x0102_0304);
    assert_replies(
        &rt,
        Order::Big,
        &[
            (2, Reply::Time { time }, 1, &[1, 2, 3, 4]),
            (6, Reply::Played { time }, 1, &[1, 2, 3, 4]),
            (
                7,
                recorded_answer(time),
                4,
                &[1, 2, 3, 4, 0, 0, 0, 5, 5, 6, 7, 8, 9, 0, 0, 0],
            ),
            (3, Reply::Plain, 0, &[]),
            (4, Reply::Plain, 0, &[]),
            (5, Reply::Plain, 0, &[]),
            (8, Reply::Plain, 0, &[]),
            (9, Reply::Plain, 0, &[]),
            (11, Reply::Plain, 0, &[]),
            (10, controls_answer(), 2, &[1, 0, 0, 0, 0xFF, 0xE2, 0, 5]),
            (12, phone_answer(), 2, &[1, 0, 0, 1, 1, 0, 0, 0]),
        ],
    );
    // samples are in no order
    assert_replies(
        &rt,
        Order::Little,
        &[
            (2, Reply::Time { time }, 1, &[4, 3, 2, 1]),
            (
                7,
                recorded_answer(time),
                4,
                &[4, 3, 2, 1, 5, 0, 0, 0, 5, 6, 7, 8, 9, 0, 0, 0],
            ),
            (3, Reply::Plain, 0, &[]),
            (10, controls_answer(), 2, &[1, 0, 0, 0, 0xE2, 0xFF, 5, 0]),
            (12, phone_answer(), 2, &[1, 0, 0, 1, 1, 0, 0, 0]),
        ],
    );
}

fn recorded_answer(time: DevTime) -> Reply<'static> {
    Reply::Recorded {
        time,
        samples: &[5, 6, 7, 8, 9],
    }
}

fn controls_answer() -> Reply<'static> {
    Reply::Controls {
        controls: Controls {
            input_on: true,
            output_on: false,
            input_gain: Gain::new(-30).unwrap_or_default(),
            output_gain: Gain::new(5).unwrap_or_default(),
        },
    }
}

fn phone_answer() -> Reply<'static> {
    Reply::Phone {
        phone: Phone {
            wanted_off: true,
            given_off: false,
            ringing: false,
            current: true,
            dead: true,
        },
    }
}

#[test]
fn the_reply_to_a_setup_has_the_devices(rt: HostRuntime) {
    let body = [
        0, 1, 0, 0, 0, 0, 0, 2, 2, 1, 1, 0, 0, 0, 0x1F, 0x40, 0, 0, 0x7D, 0, 0, 2, 0, 0, 0, 0,
        0xBB, 0x80, 0, 2, 0xEE, 0,
    ];
    assert_replies(
        &rt,
        Order::Big,
        &[(
            0,
            Reply::Setup {
                devices: two_devices(),
            },
            8,
            &body,
        )],
    );
    let body = [
        1, 0, 0, 0, 2, 0, 0, 0, 2, 1, 1, 0, 0x40, 0x1F, 0, 0, 0, 0x7D, 0, 0, 0, 2, 0, 0, 0x80,
        0xBB, 0, 0, 0, 0xEE, 2, 0,
    ];
    assert_replies(
        &rt,
        Order::Little,
        &[(
            0,
            Reply::Setup {
                devices: two_devices(),
            },
            8,
            &body,
        )],
    );
}

fn two_devices() -> Devices {
    let mut devices = Devices::new();
    devices.push(DeviceInfo {
        ty: SampleType::Lin16,
        channels: 1,
        line: true,
        rate: 8000,
        horizon: 32000,
    });
    devices.push(DeviceInfo {
        ty: SampleType::Mu255,
        channels: 2,
        line: false,
        rate: 48000,
        horizon: 192000,
    });
    devices
}

// Each reply to request 258 is written as a header with this count of words and this body, and read from the body.
fn assert_replies(rt: &impl Abort, order: Order, cases: &[(u8, Reply<'_>, u8, &[u8])]) {
    for (opcode, reply, words, body) in cases {
        assert!(rt; records_within(reply), "a record is too long");
        let mut out = [0xAA; 16016];
        let length = write_reply(order, *opcode, reply, 258, &mut out);
        assert_bytes(
            rt,
            "the head of a reply",
            &out[..8],
            &head(order, *opcode, *words),
        );
        assert_bytes(rt, "the body of a reply", &out[8..length], body);
        assert!(rt; is_read(order, *opcode, body, reply), "{opcode}");
    }
}

// The header of a reply to request 258.
fn head(order: Order, opcode: u8, words: u8) -> [u8; 8] {
    match order {
        Order::Big => [1, opcode, 1, 2, 0, 0, 0, words],
        Order::Little => [1, opcode, 2, 1, words, 0, 0, 0],
    }
}

fn records_within(reply: &Reply<'_>) -> bool
    ensures { result ≡ true → RecordsWithin (answered reply.now) }
{
    match reply {
        Reply::Recorded { samples, .. } => samples.len() <= 16000,
        _ => true,
    }
}

fn is_read(order: Order, opcode: u8, body: &[u8], reply: &Reply<'_>) -> bool {
    match read_reply(order, opcode, body) {
        Some(read) => read == *reply,
        None => false,
    }
}

#[test]
fn another_body_is_no_reply(rt: HostRuntime) {
    assert_no_replies(
        &rt,
        &[
            // opcodes without a reply, and other lengths
            (1, &[]),
            (13, &[]),
            (3, &[0, 0, 0, 0]),
            (2, &[0, 0, 0]),
            // padding that is not zero, and other counts of bytes
            (7, &[0, 0, 0, 1, 0, 0, 0, 1, 5, 0, 0, 1]),
            (7, &[0, 0, 0, 1, 0, 0, 0, 5, 5, 0, 0, 0]),
            (7, &[0, 0, 0, 1, 0xFF, 0xFF, 0xFF, 0xFF]),
            // a flag of 2, padding that is not zero, and a gain of 31
            (10, &[2, 0, 0, 0, 0, 0, 0, 0]),
            (10, &[1, 0, 0, 1, 0, 0, 0, 0]),
            (10, &[1, 0, 0, 0, 0, 31, 0, 0]),
            (12, &[1, 0, 0, 1, 2, 0, 0, 0]),
            (12, &[1, 0, 0, 1, 0, 0, 0, 1]),
            // no device, and devices of another type, counts of channels, rate and horizon
            (0, &[0, 1, 0, 0, 0, 0, 0, 0]),
            (
                0,
                &[
                    0, 1, 0, 0, 0, 0, 0, 1, 4, 1, 0, 0, 0, 0, 0x1F, 0x40, 0, 0, 0x7D, 0,
                ],
            ),
            (
                0,
                &[
                    0, 1, 0, 0, 0, 0, 0, 1, 2, 0, 0, 0, 0, 0, 0x1F, 0x40, 0, 0, 0x7D, 0,
                ],
            ),
            (
                0,
                &[
                    0, 1, 0, 0, 0, 0, 0, 1, 2, 3, 0, 0, 0, 0, 0x1F, 0x40, 0, 0, 0x7D, 0,
                ],
            ),
            (
                0,
                &[
                    0, 1, 0, 0, 0, 0, 0, 1, 2, 1, 0, 0, 0, 0, 0x1F, 0x41, 0, 0, 0x7D, 4,
                ],
            ),
            (
                0,
                &[
                    0, 1, 0, 0, 0, 0, 0, 1, 2, 1, 0, 0, 0, 0, 0x1F, 0x40, 0, 0, 0x7D, 1,
                ],
            ),
        ],
    );
}

fn assert_no_replies(rt: &impl Abort, cases: &[(u8, &[u8])]) {
    for (opcode, body) in cases {
        assert!(rt;
            is_no_reply(*opcode, body),
            "{opcode}: {} bytes",
            body.len()
        );
    }
}

fn is_no_reply(opcode: u8, body: &[u8]) -> bool {
    read_reply(Order::Big, opcode, body).is_none()
}
