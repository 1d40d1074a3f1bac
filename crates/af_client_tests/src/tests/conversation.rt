// A conversation in which each read and each write of the link fails once: the call that makes it answers LinkFault, and all
// calls after it Spent.
use crate::tests::checks::{SETUP_REPLY, bytes_of, holds};
use af_io::MemLink;
use af_lib::{Cause, Conn, ConnFault};
use af_sample::{Gain, SampleType};
use af_time::DevTime;
use af_wire::Order;
use std::alloc::Global;
use std::process::Abort;
use std::test::Fail;

#[derive(Clone, Copy)]
enum Step {
    Create,
    Change,
    Time,
    Play,
    Record,
    Free,
    Select,
    Set,
    Controls,
    Hook,
    Phone,
    Event,
}

// The steps after the setup: what the link gives for each, and how many calls of the link it makes. A request is one write. A
// message is two reads of its header, and one read for each 7 bytes of its body. An event stands before the reply to FreeAC: the
// first wait takes it from the ring.
static STEPS: [(Step, &str, u64); 13] = [
    (Step::Create, "01030001 00000000", 3),
    (Step::Change, "01040002 00000000", 3),
    (Step::Time, "01020003 00000001 00000009", 4),
    (Step::Play, "01060004 00000001 0000000b", 4),
    (
        Step::Record,
        "01070005 00000003 00000002 00000002 000a0000",
        5,
    ),
    (
        Step::Free,
        "02080000 00000003 00000000 00000000 00000035 01050006 00000000",
        7,
    ),
    (Step::Select, "01080007 00000000", 3),
    (Step::Set, "01090008 00000000", 3),
    (Step::Controls, "010a0009 00000002 01000000 0000fffa", 5),
    (Step::Hook, "010b000a 00000000", 3),
    (Step::Phone, "010c000b 00000002 01000100 00000000", 5),
    (Step::Event, "", 0),
    (
        Step::Event,
        "02080000 00000003 00000000 00000000 00000035",
        4,
    ),
];

// The calls of the setup, whose reply has a body of 20 bytes, and those of setup and steps.
const SETUP_CALLS: u64 = 6;

const ALL_CALLS: u64 = 55;

// The fault that a step is answered with.
fn fault_of(conn: &mut Conn<MemLink>, step: Step) -> Option<ConnFault> {
    let none = Gain::default();
    match step {
        Step::Create => conn
            .create_ac(7, 0, SampleType::Lin16, none, none, false)
            .err(),
        Step::Change => conn.change_ac(7, None, None, Some(true)).err(),
        Step::Time => conn.get_time(0).err(),
        Step::Play => conn.play_run(7, DevTime(10), &[0, 1]).err(),
        Step::Record => conn.record_run(7, DevTime(0), false, &mut [0; 4]).err(),
        Step::Free => conn.free_ac(7).err(),
        Step::Select => conn.select_events(0, 15).err(),
        Step::Set => conn.set_controls(0, None, None, None, Some(false)).err(),
        Step::Controls => conn.query_controls(0).err(),
        Step::Hook => conn.hook(0, true).err(),
        Step::Phone => conn.query_phone(0).err(),
        Step::Event => conn.wait_event().err(),
    }
}

// The fault that is wanted of a step that makes the calls from one number up to another, if the call `fails` fails.
fn wanted(fails: u64, from: u64, to: u64) -> Option<ConnFault> {
    if fails < from {
        Some(ConnFault::Spent {
            first: Cause::LinkFault,
        })
    } else if fails < to {
        Some(ConnFault::LinkFault)
    } else {
        None
    }
}

// All bytes that the link gives.
fn replies(alloc: Global) -> Result<Vec<u8>, Fail> {
    let mut bytes = bytes_of(alloc, SETUP_REPLY)?;
    for (_, reply, _) in &STEPS {
        let reply = bytes_of(alloc, reply)?;
        bytes.extend_from_slice(reply.as_slice())?;
    }
    Ok(bytes)
}

// The steps of a conversation whose link fails at one call.
fn take_steps(rt: &impl Abort, conn: &mut Conn<MemLink>, fails: u64) {
    let mut from = SETUP_CALLS;
    for (step, _, calls) in &STEPS {
        let to = from.wrapping_add(*calls);
        holds(
            rt,
            "a step",
            fault_of(conn, *step) == wanted(fails, from, to),
        );
        from = to;
    }
    holds(rt, "all calls", from == ALL_CALLS);
}

// A conversation whose link fails at one call.
fn converse(rt: &impl Abort, alloc: Global, far: &[u8], fails: u64) -> Result<(), Fail> {
    let link = MemLink::new(alloc, far, 7, 1000, &[fails])?;
    match Conn::connect(alloc, link, Order::Big) {
        Ok(mut conn) => {
            holds(rt, "set up", fails >= SETUP_CALLS);
            take_steps(rt, &mut conn, fails);
        }
        Err((fault, _link)) => {
            holds(rt, "a setup", fails < SETUP_CALLS);
            holds(rt, "its fault", fault == ConnFault::LinkFault);
        }
    }
    Ok(())
}

// In the last run no call fails.
#[test]
fn each_read_and_each_write_fails_once(rt: HostRuntime) -> Result<(), Fail> {
    let far = replies(rt.alloc())?;
    for fails in 0..=ALL_CALLS {
        converse(&rt, rt.alloc(), far.as_slice(), fails)?;
    }
    Ok(())
}
