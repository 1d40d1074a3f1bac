// The answering machine over a link and child programs in memory: how it ends, what it sends, which children run, and what it
// writes.
use crate::tests::checks::{bytes_of, holds, same_bytes, words_of};
use af_answer::{AnswerEnd, answer_run};
use af_details::{WatchedDial, WatchedSpawner};
use af_io::{MemDial, MemLink, MemSink};
use af_process::{Act, BeganGot, MemSpawner};
use std::alloc::Global;
use std::process::Abort;
use std::test::Fail;

// An act of a spawner whose children are shells that run a text of one byte.
#[derive(Clone, Copy, Debug, PartialEq, Eq)]
enum Seen {
    Began(u8, BeganGot),
    Finished(u32, Option<i32>),
    Other,
}

// What a machine is given: its arguments, what its link replies, how many events follow, which call of the link, which starts of
// children and which writes of the sink fail, and the status of its first child. Then what comes of it.
#[derive(Clone, Copy)]
struct Row<'a> {
    words: &'a [&'a str],
    replies: &'a str,
    events: u32,
    fails: u64,
    starts: &'a [u64],
    writes: &'a [u64],
    status: i32,
    end: AnswerEnd,
    sent: &'a str,
    acts: &'a [Seen],
    held: &'a [u8],
}

// The setup of a device with a line, and what follows: events asked for, a ring, the hook off, the hook on.
const RUNG: &str =
    "01000000 00000005 00010000 00000001 02010100 00001f40 00007d00 01080001 00000000 \
    02010001 00000003 00000000 00000000 00000001 010b0002 00000000 010b0003 00000000";

// The same without the last reply; with a refusal in its place, since the line is dead; and with a reply to another request.
const OFF: &str =
    "01000000 00000005 00010000 00000001 02010100 00001f40 00007d00 01080001 00000000 \
    02010001 00000003 00000000 00000000 00000001 010b0002 00000000";

const REFUSED: &str =
    "01000000 00000005 00010000 00000001 02010100 00001f40 00007d00 01080001 00000000 \
    02010001 00000003 00000000 00000000 00000001 010b0002 00000000 \
    00080003 00000002 00000000 0b000000";

const OF_ANOTHER: &str =
    "01000000 00000005 00010000 00000001 02010100 00001f40 00007d00 01080001 00000000 \
    02010001 00000003 00000000 00000000 00000001 010b0002 00000000 010b0004 00000000";

// A reply where a ring is expected.
const REPLIED: &str =
    "01000000 00000005 00010000 00000001 02010100 00001f40 00007d00 01080001 00000000 \
    010b0002 00000000";

const NO_LINE: &str = "01000000 00000005 00010000 00000001 02010000 00001f40 00007d00";

const SENT: &str = "41464200 00010000 08000002 00000003 0b000002 00000001 0b000002 00000000";

const ONE_CALL: [&str; 6] = [
    "answer",
    "h:1",
    "--rings=1",
    "--calls=1",
    "--greeting=g",
    "--message=m",
];

const BOTH: [Seen; 4] = [
    Seen::Began(b'g', BeganGot::Child(0)),
    Seen::Finished(0, Some(0)),
    Seen::Began(b'm', BeganGot::Child(1)),
    Seen::Finished(1, Some(0)),
];

// A call whose message is recorded.
const RECORDED: Row<'static> = Row {
    words: &ONE_CALL,
    replies: RUNG,
    events: 0,
    fails: u64::MAX,
    starts: &[],
    writes: &[],
    status: 0,
    end: AnswerEnd::Done,
    sent: SENT,
    acts: &BOTH,
    held: b"answered 1 recorded 1 failed 0\n",
};

// Calls that are taken.
static TAKEN: [Row<'static>; 3] = [
    RECORDED,
    Row {
        starts: &[0],
        acts: &[Seen::Began(b'g', BeganGot::Failed)],
        held: b"answered 1 recorded 0 failed 1\n",
        ..RECORDED
    },
    Row {
        status: 3,
        acts: &[
            Seen::Began(b'g', BeganGot::Child(0)),
            Seen::Finished(0, Some(3)),
        ],
        held: b"answered 1 recorded 0 failed 1\n",
        ..RECORDED
    },
];

// Other ends. After each OffHook an OnHook is sent.
static ENDED: [Row<'static>; 7] = [
    Row {
        replies: NO_LINE,
        end: AnswerEnd::NoLine { device: 0 },
        sent: "41464200 00010000",
        acts: &[],
        held: b"",
        ..RECORDED
    },
    Row {
        words: &["answer", "h:1", "--greeting=g", "--message=m"],
        end: AnswerEnd::Usage,
        sent: "",
        acts: &[],
        held: b"",
        ..RECORDED
    },
    Row {
        replies: REFUSED,
        end: AnswerEnd::Refused { code: 8, value: 0 },
        held: b"",
        ..RECORDED
    },
    Row {
        replies: OF_ANOTHER,
        end: AnswerEnd::BadReply {
            header: [1, 11, 0, 4, 0, 0, 0, 0],
            first: [0; 8],
        },
        held: b"",
        ..RECORDED
    },
    Row {
        replies: REPLIED,
        end: AnswerEnd::BadReply {
            header: [1, 11, 0, 2, 0, 0, 0, 0],
            first: [0; 8],
        },
        sent: "41464200 00010000 08000002 00000003",
        acts: &[],
        held: b"",
        ..RECORDED
    },
    Row {
        replies: OFF,
        events: 4096,
        end: AnswerEnd::EventFlood,
        held: b"",
        ..RECORDED
    },
    Row {
        writes: &[0],
        end: AnswerEnd::SinkFault,
        held: b"",
        ..RECORDED
    },
];

// The calls of the link in a call that is taken, from a first to a last number: what was sent if one of them fails, and whether
// the children have run. A request is one write. A message is two reads of its header, and one read for each 7 bytes of its body.
static CUT: [(u64, u64, &str, bool); 6] = [
    (0, 0, "", false),
    (1, 6, "41464200 00010000", false),
    (7, 13, "41464200 00010000 08000002 00000003", false),
    (
        14,
        15,
        "41464200 00010000 08000002 00000003 0b000002 00000001",
        false,
    ),
    (
        16,
        16,
        "41464200 00010000 08000002 00000003 0b000002 00000001",
        true,
    ),
    (17, 18, SENT, true),
];

fn as_seen(act: &Act) -> Seen {
    match act {
        Act::Began { words, got } => match words.as_slice() {
            [shell, flag, text] if shell.as_str() == "sh" && flag.as_str() == "-c" => {
                match text.as_str().as_bytes() {
                    [byte] => Seen::Began(*byte, *got),
                    _ => Seen::Other,
                }
            }
            _ => Seen::Other,
        },
        Act::Finished { child, status } => Seen::Finished(*child, *status),
        _ => Seen::Other,
    }
}

// The children that ran are these.
fn had_run(rt: &impl Abort, spawner: &MemSpawner, wanted: &[Seen]) {
    holds(rt, "the acts are told", spawner.tells());
    holds(rt, "so many acts", spawner.acts().len() == wanted.len());
    for (act, seen) in spawner.acts().iter().zip(wanted) {
        holds(rt, "an act", as_seen(act) == *seen);
    }
}

// What a link gives: these replies, and then so many events, each of a loop current that flows.
fn gives(alloc: Global, replies: &str, events: u32) -> Result<Vec<u8>, Fail> {
    let mut bytes = bytes_of(alloc, replies)?;
    let event = bytes_of(alloc, "02040003 00000003 00000000 00000000 00000001")?;
    for _ in 0..events {
        bytes.extend_from_slice(event.as_slice())?;
    }
    Ok(bytes)
}

fn comes_to(rt: &impl Abort, alloc: Global, row: &Row<'_>) -> Result<(), Fail> {
    let words = words_of(alloc, row.words)?;
    let replies = gives(alloc, row.replies, row.events)?;
    let sent = bytes_of(alloc, row.sent)?;
    let link = MemLink::new(alloc, replies.as_slice(), 7, 1000, &[row.fails])?;
    let teller: Option<HostRuntime> = None;
    let mut dial = WatchedDial::new(MemDial::new(Some(link), None), teller, false);
    let mut spawner = WatchedSpawner::new(MemSpawner::new(alloc, row.starts, &[row.status])?);
    let mut room = [0u8; 100];
    let mut sink = MemSink::new(&mut room, row.writes);
    let end = answer_run(alloc, &words, &mut sink, &mut dial, &mut spawner);
    holds(rt, "the end", end == row.end);
    same_bytes(rt, "the line", sink.held(), row.held);
    let found = match dial.dial().kept(0) {
        Some(link) => link.sent(),
        None => &[],
    };
    same_bytes(rt, "what was sent", found, sent.as_slice());
    had_run(rt, spawner.spawner(), row.acts);
    Ok(())
}

fn come_to(rt: &impl Abort, alloc: Global, rows: &[Row<'_>]) -> Result<(), Fail> {
    for row in rows {
        comes_to(rt, alloc, row)?;
    }
    Ok(())
}

#[test]
fn a_machine_takes_a_call_and_hangs_up(rt: HostRuntime) -> Result<(), Fail> {
    come_to(&rt, rt.alloc(), &TAKEN)
}

#[test]
fn a_machine_ends_for_what_it_meets(rt: HostRuntime) -> Result<(), Fail> {
    come_to(&rt, rt.alloc(), &ENDED)
}

// A call whose link fails at each of some calls in turn.
fn cut_at(rt: &impl Abort, alloc: Global, row: &Row<'_>, calls: (u64, u64)) -> Result<(), Fail> {
    for fails in calls.0..=calls.1 {
        comes_to(rt, alloc, &Row { fails, ..*row })?;
    }
    Ok(())
}

// A call that is taken, with each read and each write of its link failing once.
fn cut_each(rt: &impl Abort, alloc: Global, row: &Row<'_>) -> Result<(), Fail> {
    for (first, last, sent, run) in &CUT {
        let acts: &[Seen] = if *run { row.acts } else { &[] };
        let cut = Row {
            end: AnswerEnd::LinkFault,
            sent,
            acts,
            held: b"",
            ..*row
        };
        cut_at(rt, alloc, &cut, (*first, *last))?;
    }
    Ok(())
}

#[test]
fn a_machine_ends_where_a_read_or_a_write_fails(rt: HostRuntime) -> Result<(), Fail> {
    for row in &TAKEN {
        cut_each(&rt, rt.alloc(), row)?;
    }
    Ok(())
}
