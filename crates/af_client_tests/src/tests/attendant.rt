// The machine that hears its caller over a link and commands in memory: which commands run and are ended, and what it writes. The
// worked runs in tests/tools show what it sends.
use crate::tests::checks::{bytes_of, holds, same_bytes, words_of};
use af_answer::AnswerEnd;
use af_attendant::attendant_run;
use af_command::{CommandAct, MemRunner};
use af_io::{MemDial, MemLink, MemSink};
use af_process::Words;
use std::alloc::Global;
use std::process::Abort;
use std::test::Fail;

// An act of a runner. The text of a command has one byte, which follows its digits.
#[derive(Clone, Copy, Debug, PartialEq, Eq)]
enum Seen<'a> {
    Begun(&'a str, &'a str),
    Looked(bool),
    Ended,
    Finished(Option<i32>),
    Other,
}

// What a machine is given: what its link replies after the setup, which call of the link, which starts and which writes fail, for
// how many looks each command runs, and how it ends. Then what comes of it.
#[derive(Clone, Copy)]
struct Row<'a> {
    what: &'a str,
    replies: &'a str,
    fails: u64,
    starts: &'a [u64],
    writes: &'a [u64],
    looks: &'a [u32],
    statuses: &'a [i32],
    end: AnswerEnd,
    acts: &'a [Seen<'a>],
    held: &'a [u8],
}

const WORDS: [&str; 8] = [
    "answer",
    "h:1",
    "--rings=1",
    "--calls=1",
    "--greeting=g",
    "--message=m",
    "--until=#",
    "--hang-up",
];

// A device with a line; events asked for, a 7, a ring at 800, and the hook off.
const RUNG: &str =
    "01000000 00000005 00010000 00000001 02010100 00001f40 00007d00 01080001 00000000 \
    02080001 00000003 00000000 000002bc 00000037 02010001 00000003 00000000 00000320 00000001 \
    010b0002 00000000";

// Both commands end by themselves: the greeting at its second look, and the message at its first.
const QUIET: Row<'static> = Row {
    what: "both commands end by themselves",
    replies: "01020003 00000001 000003c0 01020004 00000001 00000460 01020005 00000001 00000500 010b0006 00000000",
    fails: u64::MAX,
    starts: &[],
    writes: &[],
    looks: &[1, 0],
    statuses: &[0, 0],
    end: AnswerEnd::Done,
    acts: &[
        Seen::Begun("7", "g"),
        Seen::Looked(true),
        Seen::Looked(false),
        Seen::Finished(Some(0)),
        Seen::Begun("7", "m"),
        Seen::Looked(false),
        Seen::Finished(Some(0)),
    ],
    held: b"call 1 at 800 digits 7 greeting 0 message 0\nanswered 1 recorded 1 failed 0\n",
};

static ROWS: [Row<'static>; 8] = [
    QUIET,
    Row {
        what: "a digit ends the greeting, and the current the message",
        replies: "02080002 00000003 00000000 00000384 00000023 01020003 00000001 000003c0 \
            02040003 00000003 00000000 000003e8 00000000 01020004 00000001 00000460 010b0005 00000000",
        looks: &[9, 9],
        acts: &[
            Seen::Begun("7", "g"),
            Seen::Looked(true),
            Seen::Ended,
            Seen::Finished(Some(137)),
            Seen::Begun("7#", "m"),
            Seen::Looked(true),
            Seen::Ended,
            Seen::Finished(Some(137)),
        ],
        held: b"call 1 at 800 digits 7# greeting 137 message 137\nanswered 1 recorded 0 failed 1\n",
        ..QUIET
    },
    Row {
        what: "a digit after a look that found the greeting over ends nothing",
        replies: "02080002 00000003 00000000 00000384 00000023 01020003 00000001 000003c0 \
            01020004 00000001 00000460 010b0005 00000000",
        looks: &[0, 0],
        statuses: &[0, 3],
        acts: &[
            Seen::Begun("7", "g"),
            Seen::Looked(false),
            Seen::Finished(Some(0)),
            Seen::Begun("7#", "m"),
            Seen::Looked(false),
            Seen::Finished(Some(3)),
        ],
        held: b"call 1 at 800 digits 7# greeting 0 message 3\nanswered 1 recorded 0 failed 1\n",
        ..QUIET
    },
    Row {
        what: "a command is ended once, by the first event that asks for it",
        replies: "02080002 00000003 00000000 00000384 00000023 02080002 00000003 00000000 00000385 00000023 \
            02040002 00000003 00000000 00000386 00000000 01020003 00000001 000003c0 010b0004 00000000",
        looks: &[9],
        acts: &[
            Seen::Begun("7", "g"),
            Seen::Looked(true),
            Seen::Ended,
            Seen::Finished(Some(137)),
        ],
        held: b"call 1 at 800 digits 7## greeting 137 message -\nanswered 1 recorded 0 failed 0\n",
        ..QUIET
    },
    Row {
        what: "the greeting does not start",
        replies: "010b0003 00000000",
        starts: &[0],
        acts: &[Seen::Begun("7", "g")],
        held: b"call 1 at 800 digits 7 greeting 127 message -\nanswered 1 recorded 0 failed 1\n",
        ..QUIET
    },
    Row {
        what: "the message does not start",
        replies: "01020003 00000001 000003c0 010b0004 00000000",
        starts: &[1],
        looks: &[0],
        acts: &[
            Seen::Begun("7", "g"),
            Seen::Looked(false),
            Seen::Finished(Some(0)),
            Seen::Begun("7", "m"),
        ],
        held: b"call 1 at 800 digits 7 greeting 0 message 127\nanswered 1 recorded 0 failed 1\n",
        ..QUIET
    },
    Row {
        what: "the line of the call is not written",
        writes: &[0],
        end: AnswerEnd::SinkFault,
        held: b"",
        ..QUIET
    },
    Row {
        what: "the numbers of calls are not written",
        writes: &[1],
        end: AnswerEnd::SinkFault,
        held: b"call 1 at 800 digits 7 greeting 0 message 0\n",
        ..QUIET
    },
];

// A start, by its command line.
fn as_begun(words: &Words) -> Seen<'_> {
    match words.as_slice() {
        [env, server, device, call, digits, shell, flag, text]
            if env.as_str() == "env"
                && server.as_str() == "AUDIOFILE_SERVER=h:1"
                && device.as_str() == "AUDIOFILE_DEVICE=0"
                && call.as_str() == "AUDIOFILE_CALL=1"
                && shell.as_str() == "sh"
                && flag.as_str() == "-c" => {
            match digits.as_str().strip_prefix("AUDIOFILE_DIGITS=") {
                Some(digits) => Seen::Begun(digits, text.as_str()),
                None => Seen::Other,
            }
        }
        _ => Seen::Other,
    }
}

fn as_seen(act: &CommandAct) -> Seen<'_> {
    match act {
        CommandAct::Begun { words, .. } => as_begun(words),
        CommandAct::Looked { runs } => Seen::Looked(*runs),
        CommandAct::Ended => Seen::Ended,
        CommandAct::Finished { status } => Seen::Finished(*status),
    }
}

// The commands were run so.
fn had_run(rt: &impl Abort, what: &str, runner: &MemRunner, wanted: &[Seen<'_>]) {
    holds(rt, what, runner.acts().len() == wanted.len());
    for (act, seen) in runner.acts().iter().zip(wanted) {
        holds(rt, what, as_seen(act) == *seen);
    }
}

fn comes_to(rt: &impl Abort, alloc: Global, row: &Row<'_>) -> Result<(), Fail> {
    let words = words_of(alloc, &WORDS)?;
    let mut replies = bytes_of(alloc, RUNG)?;
    replies.extend_from_slice(bytes_of(alloc, row.replies)?.as_slice())?;
    let link = MemLink::new(alloc, replies.as_slice(), 7, 1000, &[row.fails])?;
    let mut dial = MemDial::new(Some(link), None);
    let mut runner = MemRunner::new(alloc, row.starts, row.looks, row.statuses)?;
    let mut room = [0u8; 200];
    let mut sink = MemSink::new(&mut room, row.writes);
    let end = attendant_run(alloc, &words, &mut sink, &mut dial, &mut runner);
    holds(rt, row.what, end == row.end);
    same_bytes(rt, row.what, sink.held(), row.held);
    had_run(rt, row.what, &runner, row.acts);
    Ok(())
}

#[test]
fn a_machine_hears_its_caller(rt: HostRuntime) -> Result<(), Fail> {
    for row in &ROWS {
        comes_to(&rt, rt.alloc(), row)?;
    }
    Ok(())
}

// The calls of the link up to the first command, of which each in turn fails. A request is one write. A message is two reads of
// its header, and one read for each 7 bytes of its body.
const CALLS_BEFORE: u64 = 20;

#[test]
fn no_command_runs_where_the_link_fails_before(rt: HostRuntime) -> Result<(), Fail> {
    for fails in 0..CALLS_BEFORE {
        let row = Row {
            what: "a link that fails",
            fails,
            end: AnswerEnd::LinkFault,
            acts: &[],
            held: b"",
            ..QUIET
        };
        comes_to(&rt, rt.alloc(), &row)?;
    }
    Ok(())
}
