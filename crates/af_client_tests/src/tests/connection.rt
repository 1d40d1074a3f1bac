// Conversations of a connection: what its link gives, what is called, what that answers, and what was sent.
use crate::tests::checks::{SETUP_REPLY, STEREO_REPLY, bytes_of, holds, same_bytes};
use af_io::MemLink;
use af_lib::{Cause, Conn, ConnFault};
use af_request::{Controls, DeviceInfo, Phone};
use af_sample::{Gain, SampleType};
use af_time::DevTime;
use af_wire::{Event, EventKind, Order};
use std::alloc::Global;
use std::process::Abort;
use std::test::Fail;

const DIGIT: Event = Event {
    device: 0,
    kind: EventKind::Digit,
    time: DevTime(0),
    value: 0x35,
};

// A connection whose link gives these bytes after the reply to the setup.
fn connected(alloc: Global, replies: &[u8]) -> Result<Conn<MemLink>, Fail> {
    connected_to(alloc, SETUP_REPLY, replies)
}

// The same after this reply.
fn connected_to(alloc: Global, setup: &str, replies: &[u8]) -> Result<Conn<MemLink>, Fail> {
    let mut far = bytes_of(alloc, setup)?;
    far.extend_from_slice(replies)?;
    let link = MemLink::new(alloc, far.as_slice(), 7, 1000, &[])?;
    match Conn::connect(alloc, link, Order::Big) {
        Ok(conn) => Ok(conn),
        Err(_) => Err(Fail::from("no connection")),
    }
}

// This is what a connection was sent after the setup.
fn was_sent(
    rt: &impl Abort,
    alloc: Global,
    conn: Conn<MemLink>,
    requests: &str,
) -> Result<(), Fail> {
    let mut wanted = bytes_of(alloc, "41464200 00010000")?;
    let requests = bytes_of(alloc, requests)?;
    wanted.extend_from_slice(requests.as_slice())?;
    let link = conn.into_link();
    same_bytes(rt, "what was sent", link.sent(), wanted.as_slice());
    Ok(())
}

#[test]
fn a_connection_has_the_devices_of_the_setup_reply(rt: HostRuntime) -> Result<(), Fail> {
    let conn = connected(rt.alloc(), &[])?;
    let device = DeviceInfo {
        ty: SampleType::Lin16,
        channels: 1,
        line: false,
        rate: 8000,
        horizon: 32000,
    };
    holds(&rt, "the devices", conn.devices() == [device].as_slice());
    was_sent(&rt, rt.alloc(), conn, "")
}

// The fault of a connection whose link gives these bytes.
fn fault_of(alloc: Global, far: &str) -> Result<Option<ConnFault>, Fail> {
    let far = bytes_of(alloc, far)?;
    let link = MemLink::new(alloc, far.as_slice(), 7, 1000, &[])?;
    match Conn::connect(alloc, link, Order::Big) {
        Ok(_) => Ok(None),
        Err((fault, _)) => Ok(Some(fault)),
    }
}

#[test]
fn setups_that_fail(rt: HostRuntime) -> Result<(), Fail> {
    let bad = ConnFault::BadReply {
        header: [2, 3, 0, 0, 0, 0, 0, 3],
        first: [0; 8],
    };
    let cases = [
        ("cut", "01000000", ConnFault::LinkEnded),
        (
            "refused",
            "00010000 00000002 00000002 00000000",
            ConnFault::ServerError { code: 1, value: 2 },
        ),
        ("no message", "02030000 00000003", bad),
    ];
    for (what, far, fault) in cases {
        let found = fault_of(rt.alloc(), far)?;
        holds(&rt, what, found == Some(fault));
    }
    Ok(())
}

// A gain that a test states.
fn gain(decibels: i32) -> Gain {
    Gain::new(decibels).unwrap_or_default()
}

// Each request once. Of settings and controls, only those that are stated are sent.
fn ask_each(rt: &impl Abort, conn: &mut Conn<MemLink>) {
    let none = Gain::default();
    holds(
        rt,
        "create",
        conn.create_ac(7, 1, SampleType::Alaw, none, gain(30), true) == Ok(()),
    );
    holds(
        rt,
        "change",
        conn.change_ac(7, None, Some(gain(-6)), Some(true)) == Ok(()),
    );
    holds(rt, "time", conn.get_time(1) == Ok(DevTime(9)));
    holds(
        rt,
        "play",
        conn.play_run(7, DevTime(10), &[0xD5]) == Ok(DevTime(11)),
    );
    holds(rt, "free", conn.free_ac(7) == Ok(()));
    holds(rt, "select", conn.select_events(1, 15) == Ok(()));
    holds(
        rt,
        "set",
        conn.set_controls(1, None, Some(gain(-6)), None, Some(false)) == Ok(()),
    );
    let controls = Controls {
        input_on: true,
        output_on: false,
        input_gain: none,
        output_gain: gain(-6),
    };
    holds(rt, "controls", conn.query_controls(1) == Ok(controls));
    holds(rt, "hook", conn.hook(1, true) == Ok(()));
    let phone = Phone {
        wanted_off: true,
        given_off: false,
        ringing: true,
        current: false,
        dead: false,
    };
    holds(rt, "phone", conn.query_phone(1) == Ok(phone));
    holds(rt, "no event", conn.next_event() == None);
    holds(rt, "none lost", conn.lost() == 0);
}

#[test]
fn each_request_is_answered(rt: HostRuntime) -> Result<(), Fail> {
    let replies = bytes_of(
        rt.alloc(),
        "01030001 00000000 01040002 00000000 01020003 00000001 00000009 01060004 00000001 0000000b \
         01050005 00000000 01080006 00000000 01090007 00000000 010a0008 00000002 01000000 0000fffa \
         010b0009 00000000 010c000a 00000002 01000100 00000000",
    )?;
    let mut conn = connected(rt.alloc(), replies.as_slice())?;
    ask_each(&rt, &mut conn);
    was_sent(
        &rt,
        rt.alloc(),
        conn,
        "03010004 00000007 01010100 0000001e 04060004 00000007 01000000 0000fffa 02010001 \
         06000005 00000007 0000000a 00000001 d5000000 05000002 00000007 08010002 0000000f \
         09010003 0a000000 0000fffa 0a010001 0b010002 00000001 0c010001",
    )
}

// A time, an event and a refusal from a little-endian server.
fn ask_little(rt: &impl Abort, conn: &mut Conn<MemLink>) {
    holds(rt, "the time", conn.get_time(0) == Ok(DevTime(9)));
    holds(rt, "an event", conn.wait_event() == Ok(DIGIT));
    let refused = ConnFault::ServerError { code: 4, value: 5 };
    holds(rt, "refused", conn.free_ac(5) == Err(refused));
}

#[test]
fn a_connection_keeps_its_order(rt: HostRuntime) -> Result<(), Fail> {
    let far = bytes_of(
        rt.alloc(),
        "01000000 05000000 01000000 01000000 02010000 401f0000 007d0000 \
         01020100 01000000 09000000 02080000 03000000 00000000 00000000 35000000 \
         00040200 02000000 05000000 05000000",
    )?;
    let link = MemLink::new(rt.alloc(), far.as_slice(), 7, 1000, &[])?;
    let Ok(mut conn) = Conn::connect(rt.alloc(), link, Order::Little) else {
        return Err(Fail::from("no connection"));
    };
    ask_little(&rt, &mut conn);
    let wanted = bytes_of(rt.alloc(), "41466c00 01000000 02000100 05000200 05000000")?;
    let link = conn.into_link();
    same_bytes(&rt, "what was sent", link.sent(), wanted.as_slice());
    Ok(())
}

// A context on a device that exists, and one on a device that does not.
fn create_each(rt: &impl Abort, conn: &mut Conn<MemLink>) {
    let none = Gain::default();
    let refused = ConnFault::ServerError { code: 3, value: 1 };
    holds(
        rt,
        "there",
        conn.create_ac(1, 0, SampleType::Lin16, none, none, false) == Ok(()),
    );
    holds(
        rt,
        "not there",
        conn.create_ac(2, 1, SampleType::Lin16, none, none, false) == Err(refused),
    );
}

#[test]
fn a_context_has_the_channels_of_its_device(rt: HostRuntime) -> Result<(), Fail> {
    let replies = bytes_of(
        rt.alloc(),
        "01030001 00000000 00030002 00000002 00000001 03000000",
    )?;
    let mut conn = connected_to(rt.alloc(), STEREO_REPLY, replies.as_slice())?;
    create_each(&rt, &mut conn);
    was_sent(
        &rt,
        rt.alloc(),
        conn,
        "03000004 00000001 02020000 00000000 03010004 00000002 02010000 00000000",
    )
}

// A refused request, and the one after it.
fn ask_refused(rt: &impl Abort, conn: &mut Conn<MemLink>) {
    let refused = ConnFault::ServerError { code: 4, value: 5 };
    holds(rt, "refused", conn.free_ac(5) == Err(refused));
    holds(rt, "usable", conn.get_time(0) == Ok(DevTime(3)));
}

#[test]
fn a_refused_connection_stays_usable(rt: HostRuntime) -> Result<(), Fail> {
    let replies = bytes_of(
        rt.alloc(),
        "00040001 00000002 00000005 05000000 01020002 00000001 00000003",
    )?;
    let mut conn = connected(rt.alloc(), replies.as_slice())?;
    ask_refused(&rt, &mut conn);
    was_sent(&rt, rt.alloc(), conn, "05000002 00000005 02000001")
}

// A record that does not block may answer fewer bytes. One that blocks answers all of them: fewer are a bad reply.
fn record_each(rt: &impl Abort, conn: &mut Conn<MemLink>) {
    let mut into = [9u8; 4];
    holds(
        rt,
        "fewer",
        conn.record_run(1, DevTime(0), false, &mut into) == Ok((DevTime(2), 2)),
    );
    same_bytes(rt, "fewer bytes", &into, &[0, 10, 9, 9]);
    holds(
        rt,
        "whole",
        conn.record_run(1, DevTime(0), true, &mut into) == Ok((DevTime(2), 4)),
    );
    same_bytes(rt, "whole bytes", &into, &[0, 10, 0, 11]);
    let bad = ConnFault::BadReply {
        header: [1, 7, 0, 3, 0, 0, 0, 3],
        first: [0, 0, 0, 2, 0, 0, 0, 2],
    };
    holds(
        rt,
        "not whole",
        conn.record_run(1, DevTime(0), true, &mut into) == Err(bad),
    );
}

#[test]
fn a_record_that_waits_is_whole(rt: HostRuntime) -> Result<(), Fail> {
    let replies = bytes_of(
        rt.alloc(),
        "01070001 00000003 00000002 00000002 000a0000 01070002 00000003 00000002 00000004 000a000b \
         01070003 00000003 00000002 00000002 000a0000",
    )?;
    let mut conn = connected(rt.alloc(), replies.as_slice())?;
    record_each(&rt, &mut conn);
    was_sent(
        &rt,
        rt.alloc(),
        conn,
        "07000004 00000001 00000000 00000004 07010004 00000001 00000000 00000004 \
         07010004 00000001 00000000 00000004",
    )
}

// A link that ends, and a request after that.
fn ask_spent(rt: &impl Abort, conn: &mut Conn<MemLink>) {
    holds(rt, "ended", conn.get_time(0) == Err(ConnFault::LinkEnded));
    let spent = ConnFault::Spent {
        first: Cause::LinkEnded,
    };
    holds(rt, "spent", conn.get_time(0) == Err(spent));
}

#[test]
fn a_spent_connection_sends_nothing(rt: HostRuntime) -> Result<(), Fail> {
    let mut conn = connected(rt.alloc(), &[])?;
    ask_spent(&rt, &mut conn);
    was_sent(&rt, rt.alloc(), conn, "02000001")
}

// One event, and then a message that is no event.
fn wait_each(rt: &impl Abort, conn: &mut Conn<MemLink>) {
    holds(rt, "an event", conn.wait_event() == Ok(DIGIT));
    let bad = ConnFault::BadReply {
        header: [1, 2, 0, 0, 0, 0, 0, 1],
        first: [0, 0, 0, 9, 0, 0, 0, 0],
    };
    holds(rt, "a reply", conn.wait_event() == Err(bad));
    let spent = ConnFault::Spent {
        first: Cause::BadReply,
    };
    holds(rt, "spent", conn.wait_event() == Err(spent));
}

#[test]
fn waiting_takes_the_next_event(rt: HostRuntime) -> Result<(), Fail> {
    let replies = bytes_of(
        rt.alloc(),
        "02080000 00000003 00000000 00000000 00000035 01020000 00000001 00000009",
    )?;
    let mut conn = connected(rt.alloc(), replies.as_slice())?;
    wait_each(&rt, &mut conn);
    was_sent(&rt, rt.alloc(), conn, "")
}

// 65 events come before a reply, the first with the value 0 and the others with 1: the ring keeps the last 64.
fn take_events(rt: &impl Abort, conn: &mut Conn<MemLink>) {
    holds(rt, "the time", conn.get_time(0) == Ok(DevTime(9)));
    holds(rt, "one lost", conn.lost() == 1);
    let ring = Event {
        device: 0,
        kind: EventKind::Ring,
        time: DevTime(0),
        value: 1,
    };
    for _ in 0..64u32 {
        holds(rt, "one of 64", conn.next_event() == Some(ring));
    }
    holds(rt, "no event more", conn.next_event() == None);
}

#[test]
fn a_full_ring_loses_its_oldest_event(rt: HostRuntime) -> Result<(), Fail> {
    let mut replies = bytes_of(rt.alloc(), "02010000 00000003 00000000 00000000 00000000")?;
    let event = bytes_of(rt.alloc(), "02010000 00000003 00000000 00000000 00000001")?;
    for _ in 0..64u32 {
        replies.extend_from_slice(event.as_slice())?;
    }
    let reply = bytes_of(rt.alloc(), "01020001 00000001 00000009")?;
    replies.extend_from_slice(reply.as_slice())?;
    let mut conn = connected(rt.alloc(), replies.as_slice())?;
    take_events(&rt, &mut conn);
    was_sent(&rt, rt.alloc(), conn, "02000001")
}
