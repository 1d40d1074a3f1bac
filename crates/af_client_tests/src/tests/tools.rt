// The tools over sources, sinks and links in memory, which give their bytes in pieces and are watched, as those of their program
// are. The worked runs in tests/tools show what
// the tools send for which arguments.
use crate::tests::checks::{SETUP_REPLY, STEREO_REPLY, bytes_of, holds, same_bytes, words_of};
use af_details::{WatchedDial, WatchedSource};
use af_io::{MemDial, MemLink, MemSink, MemSource};
use af_tools::{ToolEnd, af_run};
use std::alloc::Global;
use std::process::Abort;
use std::test::Fail;

// What was sent on the first or the second link that a dial got back.
fn sent_over(dial: &MemDial, place: usize) -> &[u8] {
    match dial.kept(place) {
        Some(link) => link.sent(),
        None => &[],
    }
}

// The links that a dial got back were sent this, one after the other.
fn was_sent(rt: &impl Abort, what: &str, dial: &MemDial, wanted: &[u8]) {
    let first = sent_over(dial, 0);
    let second = sent_over(dial, 1);
    same_bytes(rt, what, first, wanted.get(..first.len()).unwrap_or(&[]));
    same_bytes(rt, what, second, wanted.get(first.len()..).unwrap_or(&[]));
}

// What fails in a run: these calls of the first link, of the source and of the sink.
#[derive(Clone, Copy)]
struct Failing<'a> {
    link: &'a [u64],
    source: &'a [u64],
    sink: &'a [u64],
}

const NOTHING: Failing<'static> = Failing {
    link: &[],
    source: &[],
    sink: &[],
};

// What a run is given: its arguments, what its source gives, what its two links reply, and what fails.
#[derive(Clone, Copy)]
struct Given<'a> {
    words: &'a [&'a str],
    source: &'a [u8],
    replies: [&'a str; 2],
    failing: Failing<'a>,
}

// What a run comes to: how it ends, what its links are sent, and what the sink holds.
#[derive(Clone, Copy)]
struct Outcome<'a> {
    end: ToolEnd,
    sent: &'a str,
    held: &'a [u8],
}

// A run whose source gives its bytes 3 at a time, and whose links give their replies 7 at a time.
fn comes_to(
    rt: &impl Abort,
    alloc: Global,
    what: &str,
    given: Given<'_>,
    wanted: Outcome<'_>,
) -> Result<(), Fail> {
    let args = words_of(alloc, given.words)?;
    let first = bytes_of(alloc, given.replies[0])?;
    let second = bytes_of(alloc, given.replies[1])?;
    let requests = bytes_of(alloc, wanted.sent)?;
    let mut source = WatchedSource::new(MemSource::new(given.source, 3, given.failing.source));
    let mut room = [0u8; 100];
    let mut sink = MemSink::new(&mut room, given.failing.sink);
    let one = MemLink::new(alloc, first.as_slice(), 7, 1000, given.failing.link)?;
    let other = MemLink::new(alloc, second.as_slice(), 7, 1000, &[])?;
    let teller: Option<HostRuntime> = None;
    let mut dial = WatchedDial::new(MemDial::new(Some(one), Some(other)), teller, false);
    let end = af_run(alloc, &args, &mut source, &mut sink, &mut dial);
    holds(rt, what, end == wanted.end);
    same_bytes(rt, what, sink.held(), wanted.held);
    was_sent(rt, what, dial.dial(), requests.as_slice());
    Ok(())
}

const PLAY: [&str; 4] = ["aplay", "h:1", "--type=mu255", "--block=2"];

// The replies to a play of two blocks.
const PLAYED: &str =
    "01000000 00000005 00010000 00000001 02010000 00001f40 00007d00 01030001 00000000 \
    01020002 00000001 00000000 01060003 00000001 00000000 01060004 00000001 00000000 01050005 00000000";

// What fails in a play of two blocks, and what it comes to.
static CASES: [(&str, Failing<'static>, Outcome<'static>); 6] = [
    (
        "nothing fails",
        NOTHING,
        Outcome {
            end: ToolEnd::Done,
            sent: "41464200 00010000 03000004 00000001 00010000 00000000 02000001 \
                   06000005 00000001 00000320 00000002 cece0000 \
                   06000005 00000001 00000322 00000001 ce000000 05000002 00000001",
            held: b"played 3 at 800\n",
        },
    ),
    (
        "a read of the link fails in a reply",
        Failing {
            link: &[11],
            ..NOTHING
        },
        Outcome {
            end: ToolEnd::LinkFault,
            sent: "41464200 00010000 03000004 00000001 00010000 00000000 02000001",
            held: b"",
        },
    ),
    (
        "the first play is not taken",
        Failing {
            link: &[13],
            ..NOTHING
        },
        Outcome {
            end: ToolEnd::LinkFault,
            sent: "41464200 00010000 03000004 00000001 00010000 00000000 02000001",
            held: b"",
        },
    ),
    (
        "the first read of the source fails, before the time is asked for",
        Failing {
            source: &[0],
            ..NOTHING
        },
        Outcome {
            end: ToolEnd::ReadFault,
            sent: "41464200 00010000 03000004 00000001 00010000 00000000",
            held: b"",
        },
    ),
    (
        "the second read of the source fails, after two bytes",
        Failing {
            source: &[1],
            ..NOTHING
        },
        Outcome {
            end: ToolEnd::ReadFault,
            sent: "41464200 00010000 03000004 00000001 00010000 00000000 02000001 \
                   06000005 00000001 00000320 00000002 cece0000",
            held: b"",
        },
    ),
    (
        "the sink fails",
        Failing {
            sink: &[0],
            ..NOTHING
        },
        Outcome {
            end: ToolEnd::SinkFault,
            sent: "41464200 00010000 03000004 00000001 00010000 00000000 02000001 \
                   06000005 00000001 00000320 00000002 cece0000 \
                   06000005 00000001 00000322 00000001 ce000000 05000002 00000001",
            held: b"",
        },
    ),
];

// Plays over each of these.
fn play_each(
    rt: &impl Abort,
    alloc: Global,
    cases: &[(&str, Failing<'_>, Outcome<'_>)],
) -> Result<(), Fail> {
    for (what, failing, wanted) in cases {
        let given = Given {
            words: &PLAY,
            source: &[0xCE; 3],
            replies: [PLAYED, SETUP_REPLY],
            failing: *failing,
        };
        comes_to(rt, alloc, what, given, *wanted)?;
    }
    Ok(())
}

#[test]
fn blocks_are_played_or_what_fails_is_told(rt: HostRuntime) -> Result<(), Fail> {
    play_each(&rt, rt.alloc(), &CASES)
}

#[test]
fn controls_are_told_over_a_little_endian_link(rt: HostRuntime) -> Result<(), Fail> {
    comes_to(
        &rt,
        rt.alloc(),
        "an order",
        Given {
            words: &["aset", "h:1", "--order=little"],
            source: &[],
            replies: [
                "01000000 05000000 01000000 01000000 02010000 401f0000 007d0000 \
                 010a0100 02000000 01010000 0000faff",
                SETUP_REPLY,
            ],
            failing: NOTHING,
        },
        Outcome {
            end: ToolEnd::Done,
            sent: "41466c00 01000000 0a000100",
            held: b"input on 0\noutput on -6\n",
        },
    )
}

#[test]
fn a_list_ends_at_the_line_that_is_not_written(rt: HostRuntime) -> Result<(), Fail> {
    comes_to(
        &rt,
        rt.alloc(),
        "a list of three devices",
        Given {
            words: &["list", "h:1"],
            source: &[],
            replies: [
                "01000000 0000000b 00010000 00000003 02010100 00001f40 00007d00 \
                 02010000 00001f40 00007d00 02010000 00001f40 00007d00 \
                 010a0001 00000002 01010000 0000fffa 010c0002 00000002 01010000 00000000 \
                 01020003 00000001 00000320 010a0004 00000002 01010000 00000000 \
                 01020005 00000001 00000321",
                SETUP_REPLY,
            ],
            failing: Failing {
                sink: &[1],
                ..NOTHING
            },
        },
        Outcome {
            end: ToolEnd::SinkFault,
            sent: "41464200 00010000 0a000001 0c000001 02000001 0a010001 02010001",
            held: b"0 lin16 8000 1 800 input on 0 output on -6 line 1 1 0 0 0\n",
        },
    )
}

#[test]
fn a_block_is_passed_over_little_endian_links(rt: HostRuntime) -> Result<(), Fail> {
    comes_to(
        &rt,
        rt.alloc(),
        "a relay in an order",
        Given {
            words: &[
                "apass",
                "h:1",
                "h:2",
                "--order=little",
                "--blocks=1",
                "--block=2",
            ],
            source: &[],
            replies: [
                "01000000 05000000 01000000 01000000 02010000 401f0000 007d0000 01030100 00000000 \
                 01020200 01000000 00000000 01070300 03000000 02000000 04000000 000a000b 01050400 00000000",
                "01000000 05000000 01000000 01000000 02010000 401f0000 007d0000 01030100 00000000 \
                 01020200 01000000 00000000 01060300 01000000 00000000 01050400 00000000",
            ],
            failing: NOTHING,
        },
        Outcome {
            end: ToolEnd::Done,
            sent: "41466c00 01000000 03000400 01000000 02010000 00000000 02000100 \
                   07010400 01000000 00000000 04000000 05000200 01000000 \
                   41466c00 01000000 03000400 01000000 02010000 00000000 02000100 \
                   06000500 01000000 40060000 04000000 000a000b 05000200 01000000",
            held: b"passed 1 resynced 0\n",
        },
    )
}

#[test]
fn a_block_is_passed_from_link_to_link(rt: HostRuntime) -> Result<(), Fail> {
    comes_to(
        &rt,
        rt.alloc(),
        "a relay",
        Given {
            words: &["apass", "h:1", "h:2", "--blocks=1", "--block=2"],
            source: &[],
            replies: [
                "01000000 00000005 00010000 00000001 02010000 00001f40 00007d00 01030001 00000000 \
                 01020002 00000001 00000000 01070003 00000003 00000002 00000004 000a000b 01050004 00000000",
                "01000000 00000005 00010000 00000001 02010000 00001f40 00007d00 01030001 00000000 \
                 01020002 00000001 00000000 01060003 00000001 00000000 01050004 00000000",
            ],
            failing: NOTHING,
        },
        Outcome {
            end: ToolEnd::Done,
            sent: "41464200 00010000 03000004 00000001 02010000 00000000 02000001 \
                   07010004 00000001 00000000 00000004 05000002 00000001 \
                   41464200 00010000 03000004 00000001 02010000 00000000 02000001 \
                   06000005 00000001 00000640 00000004 000a000b 05000002 00000001",
            held: b"passed 1 resynced 0\n",
        },
    )
}

#[test]
fn frames_of_two_channels_are_played(rt: HostRuntime) -> Result<(), Fail> {
    comes_to(
        &rt,
        rt.alloc(),
        "a play of two channels",
        Given {
            words: &["aplay", "h:1", "--block=2"],
            source: &[0, 1, 0, 2, 0, 3, 0, 4, 0, 5, 0, 6, 0],
            replies: [
                "01000000 00000005 00010000 00000001 02020000 00001f40 00007d00 01030001 00000000 \
                 01020002 00000001 00000000 01060003 00000001 00000000 01060004 00000001 00000000 \
                 01050005 00000000",
                SETUP_REPLY,
            ],
            failing: NOTHING,
        },
        Outcome {
            end: ToolEnd::Done,
            sent: "41464200 00010000 03000004 00000001 02020000 00000000 02000001 \
                   06000006 00000001 00000320 00000008 00010002 00030004 \
                   06000005 00000001 00000322 00000004 00050006 05000002 00000001",
            held: b"played 3 at 800\n",
        },
    )
}

// One device of two channels at 44100 frames a second.
const FAST_STEREO_REPLY: &str = "01000000 00000005 00010000 00000001 02020000 0000ac44 0002b110";

// Two devices that no relay passes between, and how it ends.
static PAIRS: [(&str, [&str; 2], ToolEnd); 3] = [
    (
        "one channel and two",
        [SETUP_REPLY, STEREO_REPLY],
        ToolEnd::ChannelMismatch { from: 1, to: 2 },
    ),
    (
        "two channels and one",
        [STEREO_REPLY, SETUP_REPLY],
        ToolEnd::ChannelMismatch { from: 2, to: 1 },
    ),
    (
        "two rates, and one channel and two",
        [SETUP_REPLY, FAST_STEREO_REPLY],
        ToolEnd::RateMismatch {
            from: 8000,
            to: 44100,
        },
    ),
];

// Relays between each of these.
fn relay_each(
    rt: &impl Abort,
    alloc: Global,
    cases: &[(&str, [&str; 2], ToolEnd)],
) -> Result<(), Fail> {
    for (what, replies, end) in cases {
        let given = Given {
            words: &["apass", "h:1", "h:2", "--blocks=1"],
            source: &[],
            replies: *replies,
            failing: NOTHING,
        };
        let wanted = Outcome {
            end: *end,
            sent: "41464200 00010000 41464200 00010000",
            held: b"",
        };
        comes_to(rt, alloc, what, given, wanted)?;
    }
    Ok(())
}

#[test]
fn devices_of_other_shapes_are_not_passed(rt: HostRuntime) -> Result<(), Fail> {
    relay_each(&rt, rt.alloc(), &PAIRS)
}

#[test]
fn a_dial_without_links_fails(rt: HostRuntime) -> Result<(), Fail> {
    let args = words_of(rt.alloc(), &PLAY)?;
    let mut source = MemSource::new(&[], 1, &[]);
    let mut room = [0u8; 4];
    let mut sink = MemSink::new(&mut room, &[]);
    let mut dial = MemDial::new(None, None);
    let end = af_run(rt.alloc(), &args, &mut source, &mut sink, &mut dial);
    holds(&rt, "no link", end == ToolEnd::DialFault);
    was_sent(&rt, "what was sent", &dial, &[]);
    Ok(())
}
