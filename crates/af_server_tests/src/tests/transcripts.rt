// A log is printed line by line and as its summary. What is expected was written by hand.
use af_io::{Bytes, MemSink, Put};
use af_outside::{Happening, ReadGot, Wake, Why};
use af_script::{print_log, print_summary};
use std::alloc::Global;
use std::process::Abort;
use std::test::Fail;

// A happening, and the bytes that it has, if any.
#[derive(Clone, Copy)]
enum Row<'a> {
    Woke(Wake),
    Given(u8, &'a [u8]),
    NotYet(u8),
    Ended(u8),
    ReadFailed(u8),
    Took(u8, &'a [u8]),
    WriteFailed(u8),
    Closed(u8, Why),
    Captured(u8, &'a [u8]),
    CaptureFailed(u8),
    Emitted(u8, &'a [u8], bool),
    Hooked(u8, bool, bool),
}

fn happening(alloc: Global, row: Row<'_>) -> Result<Happening, Fail> {
    Ok(match row {
        Row::Woke(wake) => Happening::Woke(wake),
        Row::Given(link, bytes) => Happening::Read {
            link,
            got: ReadGot::Given(Bytes::copied(alloc, bytes)?),
        },
        Row::NotYet(link) => Happening::Read {
            link,
            got: ReadGot::NotYet,
        },
        Row::Ended(link) => Happening::Read {
            link,
            got: ReadGot::Ended,
        },
        Row::ReadFailed(link) => Happening::Read {
            link,
            got: ReadGot::Failed,
        },
        Row::Took(link, bytes) => Happening::Wrote {
            link,
            offered: 9,
            took: Some(Bytes::copied(alloc, bytes)?),
        },
        Row::WriteFailed(link) => Happening::Wrote {
            link,
            offered: 9,
            took: None,
        },
        Row::Closed(link, why) => Happening::Closed { link, why },
        Row::Captured(device, bytes) => Happening::Captured {
            device,
            frames: 1,
            got: Some(Bytes::copied(alloc, bytes)?),
        },
        Row::CaptureFailed(device) => Happening::Captured {
            device,
            frames: 4096,
            got: None,
        },
        Row::Emitted(device, bytes, done) => Happening::Emitted {
            device,
            sound: Bytes::copied(alloc, bytes)?,
            done,
        },
        Row::Hooked(device, off, done) => Happening::Hooked { device, off, done },
    })
}

fn log_of(alloc: Global, rows: &[Row<'_>]) -> Result<Vec<Happening>, Fail> {
    let mut log = Vec::new(alloc);
    for row in rows {
        log.push(happening(alloc, *row)?)?;
    }
    Ok(log)
}

// One of each kind, and each way that it can go.
const ROWS: [Row<'static>; 22] = [
    Row::Woke(Wake::Ticked(0, 2)),
    Row::Captured(0, &[9, 9]),
    Row::Emitted(0, &[0, 255, 127, 160], true),
    Row::NotYet(3),
    Row::Ended(3),
    Row::ReadFailed(3),
    Row::Given(3, &[8]),
    Row::Took(31, &[1, 2, 3]),
    Row::Took(4, &[]),
    Row::WriteFailed(5),
    Row::Closed(0, Why::BadSetup),
    Row::Closed(10, Why::Malformed),
    Row::Closed(1, Why::Ended),
    Row::Closed(30, Why::LinkFault),
    Row::Closed(2, Why::Overrun),
    Row::Hooked(5, true, true),
    Row::Hooked(5, false, true),
    Row::Hooked(5, true, false),
    Row::CaptureFailed(6),
    Row::Emitted(7, &[1], false),
    Row::Emitted(7, &[0, 255, 127, 160], true),
    Row::Took(0, &[5]),
];

const LINES: &str = "emit 0 00ff7fa0\n\
                     read 3 failed\n\
                     link 31 010203\n\
                     write 5 failed\n\
                     closed 0 setup\n\
                     closed 10 malformed\n\
                     closed 1 ended\n\
                     closed 30 fault\n\
                     closed 2 overrun\n\
                     hook 5 offhook\n\
                     hook 5 onhook\n\
                     hook 5 failed\n\
                     capture 6 failed\n\
                     emit 7 failed\n\
                     emit 7 00ff7fa0\n\
                     link 0 05\n";

// What was printed, and whether it was printed whole, are as expected.
fn printed(rt: &impl Abort, what: &str, went: bool, found: &[u8], wanted: &[u8]) {
    assert!(rt; went, "{what}");
    assert_eq!(rt; found, wanted, "{what}");
}

// The log is printed so to a sink whose listed writes fail.
fn prints(rt: &impl Abort, log: &[Happening], fails: &[u64], put: Put, held: &[u8]) {
    let mut room = [0u8; 400];
    let mut sink = MemSink::new(&mut room, fails);
    let found = print_log(log, &mut sink);
    printed(rt, "a log", found == put, sink.held(), held);
}

// The same of its summary.
fn sums(rt: &impl Abort, log: &[Happening], fails: &[u64], put: Put, held: &[u8]) {
    let mut room = [0u8; 400];
    let mut sink = MemSink::new(&mut room, fails);
    let found = print_summary(log, 4000000000, &mut sink);
    printed(rt, "a summary", found == put, sink.held(), held);
}

#[test]
fn a_log_is_printed_and_summed(rt: HostRuntime) -> Result<(), Fail> {
    let log = log_of(rt.alloc(), &ROWS)?;
    prints(&rt, &log, &[], Put::Done, LINES.as_bytes());
    // a line of bytes is written in six pieces
    let begun = b"emit 0 00ff7fa0\nread 3 failed\nlink 31 ";
    prints(&rt, &log, &[16], Put::Failed, begun);
    let summary = b"steps 4000000000\nemitted 8\ntaken 4\nclosed 5\nsum 1084\n";
    sums(&rt, &log, &[], Put::Done, summary);
    sums(&rt, &log, &[4], Put::Failed, b"steps 4000000000\nemitted ");
    Ok(())
}
