// The log over a link and commands in memory: what each command is started with and takes, and the line of each piece. The worked
// runs in tests/tools show what the tool sends.
use crate::tests::checks::{bytes_of, holds, same_bytes, words_of};
use af_io::{MemDial, MemLink, MemSink};
use af_logger::{MemCommand, MemCommands, MemPlan, log_run};
use af_time::DevTime;
use af_toolkit::ToolEnd;
use std::alloc::Global;
use std::process::Abort;
use std::test::Fail;

// What a log is given: two of its options, what its commands do, the times that the replies to its blocks tell, whether the
// context is freed, and which writes of the sink fail. Then what comes of it: how it ends, how many bytes its commands took, and
// its lines.
#[derive(Clone, Copy)]
struct Row<'a> {
    what: &'a str,
    form: &'a str,
    count: &'a str,
    plans: &'a [MemPlan],
    told: &'a [u32],
    freed: bool,
    writes: &'a [u64],
    end: ToolEnd,
    took: &'a [usize],
    held: &'a [u8],
}

// A device of mu-law at 8000 frames a second; a context, and the time 16.
const BEGUN: &str =
    "01000000 00000005 00010000 00000001 00010000 00001f40 00007d00 01030001 00000000 \
    01020002 00000001 00000010";

// A command that takes all, one that takes so many bytes, and one that runs until it is waited for.
const TAKES_ALL: MemPlan = MemPlan {
    takes: usize::MAX,
    looks: Some(0),
    status: 0,
};

const TAKES_NOTHING: MemPlan = MemPlan {
    takes: 0,
    looks: Some(0),
    status: 1,
};

const TAKES_SOME: MemPlan = MemPlan {
    takes: 4143,
    looks: Some(0),
    status: 3,
};

const RUNS_ON: MemPlan = MemPlan {
    takes: usize::MAX,
    looks: None,
    status: 5,
};

// The times of the blocks of two and of three pieces, each told as soon as the block is over.
const FOUR: [u32; 4] = [4016, 8016, 12016, 16016];

const SIX: [u32; 6] = [4016, 8016, 12016, 16016, 20016, 24016];

const WHOLE: Row<'static> = Row {
    what: "two pieces are taken whole",
    form: "--file=wave",
    count: "--count=2",
    plans: &[TAKES_ALL, TAKES_ALL],
    told: &FOUR,
    freed: true,
    writes: &[],
    end: ToolEnd::Done,
    took: &[8044, 8044],
    held: b"piece 1 at 16 frames 8000 lost 0 dropped 0 status 0\n\
        piece 2 at 8016 frames 8000 lost 0 dropped 0 status 0\n",
};

static ROWS: [Row<'static>; 9] = [
    WHOLE,
    Row {
        what: "of a command that takes nothing all frames are dropped",
        plans: &[TAKES_NOTHING, TAKES_ALL],
        took: &[0, 8044],
        held: b"piece 1 at 16 frames 0 lost 0 dropped 8000 status 1\n\
            piece 2 at 8016 frames 8000 lost 0 dropped 0 status 0\n",
        ..WHOLE
    },
    Row {
        what: "what a command takes of a block counts, and then it gets no more",
        plans: &[TAKES_SOME, TAKES_ALL],
        took: &[4143, 8044],
        held: b"piece 1 at 16 frames 4099 lost 0 dropped 3901 status 3\n\
            piece 2 at 8016 frames 8000 lost 0 dropped 0 status 0\n",
        ..WHOLE
    },
    Row {
        what: "samples alone have no header",
        form: "--file=raw",
        plans: &[TAKES_SOME, TAKES_ALL],
        took: &[4143, 8000],
        held: b"piece 1 at 16 frames 4143 lost 0 dropped 3857 status 3\n\
            piece 2 at 8016 frames 8000 lost 0 dropped 0 status 0\n",
        ..WHOLE
    },
    Row {
        what: "what had left counts only among the frames that were handed",
        form: "--file=raw",
        plans: &[TAKES_SOME, TAKES_ALL],
        told: &[36016, 40016, 40017, 44022],
        took: &[4143, 8000],
        held: b"piece 1 at 16 frames 4143 lost 4143 dropped 3857 status 3\n\
            piece 2 at 8016 frames 8000 lost 7 dropped 0 status 0\n",
        ..WHOLE
    },
    Row {
        what: "a command that runs on is killed when the third piece begins, and waited for at the end",
        count: "--count=3",
        plans: &[RUNS_ON, RUNS_ON, RUNS_ON],
        told: &SIX,
        took: &[8044, 8044, 8044],
        held: b"piece 1 at 16 frames 8000 lost 0 dropped 0 status 137\n\
            piece 2 at 8016 frames 8000 lost 0 dropped 0 status 5\n\
            piece 3 at 16016 frames 8000 lost 0 dropped 0 status 5\n",
        ..WHOLE
    },
    Row {
        what: "a link that ends in the second piece",
        told: &[4016, 8016, 12016],
        freed: false,
        end: ToolEnd::LinkEnded,
        took: &[8044, 4044],
        held: b"piece 1 at 16 frames 8000 lost 0 dropped 0 status 0\n\
            piece 2 at 8016 frames 4000 lost 0 dropped 0 status 0\n",
        ..WHOLE
    },
    Row {
        what: "a link that ends before the first block",
        told: &[],
        freed: false,
        end: ToolEnd::LinkEnded,
        took: &[],
        held: b"",
        ..WHOLE
    },
    Row {
        what: "no line follows one that was not written",
        count: "--count=1",
        told: &[4016, 8016],
        writes: &[0],
        end: ToolEnd::SinkFault,
        took: &[8044],
        held: b"",
        ..WHOLE
    },
];

// Adds a number of four bytes.
fn add(bytes: &mut Vec<u8>, number: u32) -> Result<(), Fail> {
    bytes.extend_from_slice(&number.to_be_bytes())?;
    Ok(())
}

// Adds the reply to the request with a number: a block of 4000 frames, told at a time.
fn add_block(bytes: &mut Vec<u8>, number: u32, told: u32) -> Result<(), Fail> {
    add(bytes, 0x01070000 | number)?;
    add(bytes, 1002)?;
    add(bytes, told)?;
    add(bytes, 4000)?;
    bytes.extend_from_slice(&[0xFE; 4000])?;
    Ok(())
}

// What the link gives.
fn replies(alloc: Global, row: &Row<'_>) -> Result<Vec<u8>, Fail> {
    let mut bytes = bytes_of(alloc, BEGUN)?;
    let mut number = 3u32;
    for told in row.told {
        add_block(&mut bytes, number, *told)?;
        number = number.wrapping_add(1);
    }
    if row.freed {
        add(&mut bytes, 0x01050000 | number)?;
        add(&mut bytes, 0)?;
    }
    Ok(bytes)
}

// A command was started for the piece with a number and a time, and took so many bytes.
fn was_handed(
    rt: &impl Abort,
    what: &str,
    command: &MemCommand,
    (number, time): (u64, DevTime),
    took: usize,
) {
    holds(rt, what, command.text.as_str() == "c");
    holds(rt, what, command.terms.number == number);
    holds(rt, what, command.terms.time == time);
    holds(rt, what, command.terms.frames == 8000);
    holds(rt, what, command.taken.len() == took);
    holds(rt, what, command.closed);
}

// So many commands were started, each for the piece after that of the one before, and all have ended.
fn were_handed(rt: &impl Abort, what: &str, commands: &MemCommands, took: &[usize]) {
    let started = commands.commands();
    holds(rt, what, started.len() == took.len());
    holds(rt, what, commands.ended() == took.len());
    let mut number = 1u64;
    let mut time = DevTime(16);
    for (command, took) in started.iter().zip(took) {
        was_handed(rt, what, command, (number, time), *took);
        number = number.wrapping_add(1);
        time = time.after(8000);
    }
}

fn comes_to(rt: &impl Abort, alloc: Global, row: &Row<'_>) -> Result<(), Fail> {
    let options = [
        "log",
        "h:1",
        "--every=1",
        "--block=4000",
        "--into=c",
        row.form,
        row.count,
    ];
    let words = words_of(alloc, &options)?;
    let given = replies(alloc, row)?;
    let link = MemLink::new(alloc, given.as_slice(), 700, 1000, &[])?;
    let mut dial = MemDial::new(Some(link), None);
    let mut commands = MemCommands::new(alloc, row.plans)?;
    let mut room = [0u8; 400];
    let mut sink = MemSink::new(&mut room, row.writes);
    let end = log_run(alloc, &words, &mut commands, &mut sink, &mut dial);
    holds(rt, row.what, end == row.end);
    same_bytes(rt, row.what, sink.held(), row.held);
    were_handed(rt, row.what, &commands, row.took);
    Ok(())
}

#[test]
fn each_piece_is_handed_to_a_command(rt: HostRuntime) -> Result<(), Fail> {
    for row in &ROWS {
        comes_to(&rt, rt.alloc(), row)?;
    }
    Ok(())
}
