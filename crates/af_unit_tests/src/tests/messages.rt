// Setups, frames and messages whose bytes are written out by hand.
use crate::tests::asserts::assert_bytes;
use af_time::DevTime;
use af_wire::*;
use std::process::Abort;

#[test]
fn fronts_of_setups(rt: HostRuntime) {
    assert_setups(
        &rt,
        &[
            (b"AFB\0\0\x01\0\0", SetupFront::Setup(Order::Big)),
            (&Order::Big.setup(), SetupFront::Setup(Order::Big)),
            // a minor version of any number, and a frame after it
            (
                b"AFB\0\0\x01\0\x07\x01\0\0\x01",
                SetupFront::Setup(Order::Big),
            ),
            (b"AFB\0\0\x01\0", SetupFront::NeedMore),
            (b"", SetupFront::NeedMore),
            (b"AFB\0\0\x02\0\0", bad_setup(Order::Big, 2)),
            (b"AFB\0\x01\0\0\0", bad_setup(Order::Big, 256)),
            (b"GET / HT", bad_setup(Order::Big, 0x4745_5420)),
            // in the other order: its version is read in that order, and a bad one answered in it
            (b"AFl\0\x01\0\0\0", SetupFront::Setup(Order::Little)),
            (&Order::Little.setup(), SetupFront::Setup(Order::Little)),
            (b"AFl\0\x02\0\0\0", bad_setup(Order::Little, 2)),
            (b"AFl\0\0\x01\0\0", bad_setup(Order::Little, 256)),
            (b"AFl\0\x01\0\0", SetupFront::NeedMore),
            (b"AFL\0\x01\0\0\0", bad_setup(Order::Big, 0x4146_4C00)),
        ],
    );
}

fn bad_setup(order: Order, value: u32) -> SetupFront {
    SetupFront::BadSetup { order, value }
}

fn assert_setups(rt: &impl Abort, cases: &[(&[u8], SetupFront)]) {
    for (input, front) in cases {
        assert!(rt; setup_of(input) == *front, "{input:?}");
    }
}

#[test]
fn fronts_of_frames(rt: HostRuntime) {
    assert_frames(
        &rt,
        Order::Big,
        &[
            (&[1, 0, 0, 1], Front::Frame(4)),
            (&[2, 0, 0, 1, 5], Front::Frame(4)),
            (&[5, 0, 0, 2, 0, 0, 0, 9], Front::Frame(8)),
            (&[5, 0, 0, 2, 0, 0, 0], Front::NeedMore),
            (&[5, 0, 0], Front::NeedMore),
            // 4096 words are the most
            (&[6, 0, 0x10, 0], Front::NeedMore),
            (&[6, 0, 0x10, 1], Front::Malformed),
            (&[6, 0, 0, 0], Front::Malformed),
        ],
    );
    assert_frames(
        &rt,
        Order::Little,
        &[
            (&[2, 0, 1, 0], Front::Frame(4)),
            (&[2, 0, 0, 1], Front::NeedMore),
            (&[6, 0, 0, 0x10], Front::NeedMore),
            (&[6, 0, 1, 0x10], Front::Malformed),
        ],
    );
    let mut longest = [0; 16384];
    longest[2] = 0x10;
    assert_frames(
        &rt,
        Order::Big,
        &[
            (&longest, Front::Frame(16384)),
            (&longest[..16383], Front::NeedMore),
        ],
    );
}

fn assert_frames(rt: &impl Abort, order: Order, cases: &[(&[u8], Front)]) {
    for (input, front) in cases {
        assert!(rt; frame_at(order, input) == *front, "{} bytes", input.len());
    }
}

// The front of a whole message.
fn whole(kind: u8, detail: u8, sequence: u16, length: usize) -> MessageFront {
    MessageFront::Message {
        kind,
        detail,
        sequence,
        length,
    }
}

#[test]
fn fronts_of_messages(rt: HostRuntime) {
    assert_messages(
        &rt,
        Order::Big,
        &[
            (&[1, 2, 0, 1, 0, 0, 0, 1, 0, 0, 0, 9], whole(1, 2, 1, 12)),
            (
                &[1, 2, 0, 1, 0, 0, 0, 1, 0, 0, 0],
                MessageFront::NeedMore(12),
            ),
            (&[1, 2, 0, 1, 0, 0, 0], MessageFront::NeedMore(8)),
            (&[1, 12, 1, 2, 0, 0, 0, 0, 9], whole(1, 12, 258, 8)),
            // a record has 4002 words at most
            (
                &[1, 7, 0, 1, 0, 0, 0x0F, 0xA2],
                MessageFront::NeedMore(16016),
            ),
            (&[1, 7, 0, 1, 0, 0, 0x0F, 0xA3], MessageFront::BadMessage),
            (&[0, 8, 0, 1, 0, 0, 0, 2], MessageFront::NeedMore(16)),
            (&[2, 4, 0, 1, 0, 0, 0, 3], MessageFront::NeedMore(20)),
            // no opcode, no code of an error, no kind of event, no kind of message, and an event of another length
            (&[1, 1, 0, 1, 0, 0, 0, 0], MessageFront::BadMessage),
            (&[1, 13, 0, 1, 0, 0, 0, 0], MessageFront::BadMessage),
            (&[0, 0, 0, 1, 0, 0, 0, 2], MessageFront::BadMessage),
            (&[0, 9, 0, 1, 0, 0, 0, 2], MessageFront::BadMessage),
            (&[2, 3, 0, 0, 0, 0, 0, 3], MessageFront::BadMessage),
            (&[3, 1, 0, 0, 0, 0, 0, 3], MessageFront::BadMessage),
            (&[2, 1, 0, 0, 0, 0, 0, 2], MessageFront::BadMessage),
        ],
    );
    assert_messages(
        &rt,
        Order::Little,
        &[
            (&[1, 2, 1, 0, 1, 0, 0, 0, 9, 0, 0, 0], whole(1, 2, 1, 12)),
            (
                &[1, 7, 1, 0, 0xA2, 0x0F, 0, 0],
                MessageFront::NeedMore(16016),
            ),
            (&[1, 7, 1, 0, 0xA3, 0x0F, 0, 0], MessageFront::BadMessage),
            (&[0, 8, 0, 1, 0, 0, 0, 2], MessageFront::BadMessage),
        ],
    );
}

fn assert_messages(rt: &impl Abort, order: Order, cases: &[(&[u8], MessageFront)]) {
    for (input, front) in cases {
        assert!(rt; message_at(order, input) == *front, "{input:?}");
    }
}

#[test]
fn events_and_errors_are_spelled(rt: HostRuntime) {
    let digit = Event {
        kind: EventKind::Digit,
        device: 2,
        time: DevTime(0x0102_0304),
        value: 0x35,
    };
    let hook = Event {
        kind: EventKind::Hook,
        device: 7,
        time: DevTime(0xFFFF_FFFF),
        value: 1,
    };
    assert_events(
        &rt,
        Order::Big,
        &[
            (
                digit,
                7,
                [
                    2, 8, 0, 7, 0, 0, 0, 3, 0, 0, 0, 2, 1, 2, 3, 4, 0, 0, 0, 0x35,
                ],
            ),
            (
                hook,
                0x0100,
                [
                    2, 2, 1, 0, 0, 0, 0, 3, 0, 0, 0, 7, 0xFF, 0xFF, 0xFF, 0xFF, 0, 0, 0, 1,
                ],
            ),
        ],
    );
    assert_events(
        &rt,
        Order::Little,
        &[(
            digit,
            7,
            [
                2, 8, 7, 0, 3, 0, 0, 0, 2, 0, 0, 0, 4, 3, 2, 1, 0x35, 0, 0, 0,
            ],
        )],
    );
    let mut error = [0xAA; 16];
    write_error(Order::Big, 2, 0x0102_0304, 6, 258, &mut error);
    let spelled = [0, 2, 1, 2, 0, 0, 0, 2, 1, 2, 3, 4, 6, 0, 0, 0];
    assert_bytes(&rt, "an error", &error, &spelled);
    write_error(Order::Little, 2, 0x0102_0304, 6, 258, &mut error);
    let spelled = [0, 2, 2, 1, 2, 0, 0, 0, 4, 3, 2, 1, 6, 0, 0, 0];
    assert_bytes(&rt, "an error", &error, &spelled);
    let mut head = [0xAA; 8];
    write_head(Order::Big, 1, 7, 258, 4002, &mut head);
    assert_bytes(&rt, "a head", &head, &[1, 7, 1, 2, 0, 0, 0x0F, 0xA2]);
    write_head(Order::Little, 1, 7, 258, 4002, &mut head);
    assert_bytes(&rt, "a head", &head, &[1, 7, 2, 1, 0xA2, 0x0F, 0, 0]);
}

// Each event is written as its message, and read from it.
fn assert_events(rt: &impl Abort, order: Order, cases: &[(Event, u16, [u8; 20])]) {
    for (event, sequence, message) in cases {
        let mut out = [0xAA; 20];
        write_event(order, *event, *sequence, &mut out);
        assert_bytes(rt, "an event", &out, message);
        assert_read(rt, order, message[1], &message[8..], Some(*event));
    }
}

fn assert_read(rt: &impl Abort, order: Order, detail: u8, body: &[u8], event: Option<Event>) {
    assert!(rt;
        read_event(order, detail, body) == event,
        "detail {detail}, {body:?}"
    );
}

#[test]
fn what_states_no_event(rt: HostRuntime) {
    assert_no_events(
        &rt,
        &[
            // no kind, device 8, a flag of 2, and bodies of other lengths
            (3, &[0, 0, 0, 2, 1, 2, 3, 4, 0, 0, 0, 1]),
            (1, &[0, 0, 0, 8, 1, 2, 3, 4, 0, 0, 0, 1]),
            (1, &[0, 0, 0, 2, 1, 2, 3, 4, 0, 0, 0, 2]),
            (8, &[0, 0, 0, 2, 1, 2, 3, 4, 0, 0, 0]),
            (8, &[0, 0, 0, 2, 1, 2, 3, 4, 0, 0, 0, 0x35, 0]),
        ],
    );
    assert_codes(
        &rt,
        &[
            (1, EventKind::Ring),
            (2, EventKind::Hook),
            (4, EventKind::Current),
            (8, EventKind::Digit),
        ],
    );
}

fn assert_no_events(rt: &impl Abort, cases: &[(u8, &[u8])]) {
    for (detail, body) in cases {
        assert_read(rt, Order::Big, *detail, body, None);
    }
}

fn assert_codes(rt: &impl Abort, cases: &[(u8, EventKind)]) {
    for (code, kind) in cases {
        assert!(rt; kind.code() == *code, "{code}");
        assert!(rt; EventKind::of_code(*code) == Some(*kind), "{code}");
    }
}
