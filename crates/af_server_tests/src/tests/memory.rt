// The outside in memory: the answers of its calls, and which calls fail.
use crate::tests::checks::{holds, same_bytes};
use af_io::{
    Args, Dial, Dialed, Got, Link, MemDial, MemLink, MemSink, MemSource, Put, Sink, Source,
    TextFault, read_text,
};
use std::alloc::Global;
use std::process::Abort;
use std::test::Fail;

// A call of a link, with what it is to answer.
#[derive(Clone, Copy)]
enum Call<'a> {
    Read(Got, &'a [u8]),
    Write(&'a [u8], Put),
}

fn call_link<L: Link>(rt: &impl Abort, link: &mut L, calls: &[Call<'_>]) {
    for call in calls {
        match *call {
            Call::Read(got, bytes) => {
                let mut into = [0u8; 8];
                holds(rt, "a read of a link", link.read(&mut into) == got);
                holds(rt, "what a link gave", into.starts_with(bytes));
            }
            Call::Write(piece, put) => {
                assert!(rt; !piece.is_empty());
                holds(rt, "a write to a link", link.write(piece) == put);
            }
        }
    }
}

fn read_source<S: Source>(rt: &impl Abort, source: &mut S, answers: &[(Got, &[u8])]) {
    for (got, bytes) in answers {
        let mut into = [0u8; 8];
        holds(rt, "a read of a source", source.read(&mut into) == *got);
        holds(rt, "what a source gave", into.starts_with(bytes));
    }
}

fn write_sink<K: Sink>(rt: &impl Abort, sink: &mut K, answers: &[(&[u8], Put)]) {
    for (piece, put) in answers {
        assert!(rt; !piece.is_empty());
        holds(rt, "a write to a sink", sink.write(piece) == *put);
    }
}

// Dials, makes calls of the link, and gives it back. The answer is whether there was a link.
fn call_dialled<D: Dial>(rt: &impl Abort, dial: &mut D, calls: &[Call<'_>]) -> bool {
    let Dialed::Far(mut far) = dial.dial("h:1") else {
        return false;
    };
    call_link(rt, &mut far, calls);
    dial.hang_up(far);
    true
}

#[test]
fn a_source_and_a_sink_fail_in_mid_stream(rt: HostRuntime) {
    let mut source = MemSource::new(&[1, 2, 3, 4, 5], 2, &[1]);
    let answers: [(Got, &[u8]); 2] = [(Got::Bytes(2), &[1, 2]), (Got::Failed, &[])];
    read_source(&rt, &mut source, &answers);
    same_bytes(&rt, "after a failed read", source.left(), &[3, 4, 5]);
    let answers: [(Got, &[u8]); 3] = [
        (Got::Bytes(2), &[3, 4]),
        (Got::Bytes(1), &[5]),
        (Got::Ended, &[]),
    ];
    read_source(&rt, &mut source, &answers);
    let mut room = [0u8; 4];
    let mut sink = MemSink::new(&mut room, &[1]);
    // the second write is to fail, and there is no room for the third
    let answers: [(&[u8], Put); 4] = [
        (&[1, 2], Put::Done),
        (&[3], Put::Failed),
        (&[3, 4, 5], Put::Failed),
        (&[3, 4], Put::Done),
    ];
    write_sink(&rt, &mut sink, &answers);
    same_bytes(&rt, "the sink", sink.held(), &[1, 2, 3, 4]);
}

// A source that gives these bytes, and whose listed reads fail, is read as a text of at most 7 bytes.
fn reads_text(
    rt: &impl Abort,
    alloc: Global,
    bytes: &[u8],
    fails: &[u64],
    wanted: Result<(), TextFault>,
) {
    let mut source = MemSource::new(bytes, 3, fails);
    let found = match read_text(alloc, &mut source, 7) {
        Ok(text) => {
            same_bytes(rt, "a text", text.as_slice(), bytes);
            Ok(())
        }
        Err(fault) => Err(fault),
    };
    holds(rt, "how a text is read", found == wanted);
}

#[test]
fn a_text_is_read_to_its_end(rt: HostRuntime) {
    let alloc = rt.alloc();
    reads_text(&rt, alloc, b"", &[], Ok(()));
    reads_text(&rt, alloc, b"1234567", &[], Ok(()));
    reads_text(&rt, alloc, b"12345678", &[], Err(TextFault::TooLong));
    reads_text(&rt, alloc, b"1234567", &[1], Err(TextFault::ReadFault));
}

// A dial of two links. Reads and writes of a link are counted together.
fn two_links(alloc: Global) -> Result<MemDial, Fail> {
    let first = MemLink::new(alloc, &[1, 2, 3], 2, 4, &[1, 3])?;
    let second = MemLink::new(alloc, &[], 1, 8, &[])?;
    Ok(MemDial::new(Some(first), Some(second)))
}

// The dial got the link at this place back. It had been sent these bytes, and failed so often.
fn kept(rt: &impl Abort, dial: &MemDial, place: usize, sent: &[u8], faults: u64) {
    match dial.kept(place) {
        Some(link) => {
            same_bytes(rt, "what a link was sent", link.sent(), sent);
            holds(rt, "the faults of a link", link.faults() == faults);
        }
        None => holds(rt, "a link that is kept", false),
    }
}

const OF_THE_FIRST: [Call<'static>; 7] = [
    Call::Read(Got::Bytes(2), &[1, 2]),
    Call::Write(&[7], Put::Failed),
    Call::Write(&[7, 8, 9], Put::Done),
    Call::Read(Got::Failed, &[]),
    Call::Write(&[5, 6], Put::Failed),
    Call::Read(Got::Bytes(1), &[3]),
    Call::Read(Got::Ended, &[]),
];

const OF_THE_SECOND: [Call<'static>; 1] = [Call::Write(&[8], Put::Done)];

// Both links are dialled and called, and there is no third.
fn call_both<D: Dial>(rt: &impl Abort, dial: &mut D) {
    holds(rt, "the first link", call_dialled(rt, dial, &OF_THE_FIRST));
    holds(
        rt,
        "the second link",
        call_dialled(rt, dial, &OF_THE_SECOND),
    );
    holds(rt, "no third link", !call_dialled(rt, dial, &[]));
}

#[test]
fn links_are_dialled_in_order_and_given_back(rt: HostRuntime) -> Result<(), Fail> {
    let mut dial = two_links(rt.alloc())?;
    call_both(&rt, &mut dial);
    kept(&rt, &dial, 0, &[7, 8, 9], 3);
    kept(&rt, &dial, 1, &[8], 0);
    Ok(())
}

fn give_back(alloc: Global, dial: &mut MemDial) -> Result<(), Fail> {
    let link = MemLink::new(alloc, &[], 1, 1, &[])?;
    dial.hang_up(link);
    Ok(())
}

#[test]
fn a_third_link_is_not_kept(rt: HostRuntime) -> Result<(), Fail> {
    let mut dial = MemDial::new(None, None);
    for _ in 0..3u32 {
        give_back(rt.alloc(), &mut dial)?;
    }
    kept(&rt, &dial, 0, &[], 0);
    kept(&rt, &dial, 1, &[], 0);
    holds(&rt, "no third link", dial.kept(2).is_none());
    Ok(())
}

#[test]
fn words_of_a_command_line(rt: HostRuntime) -> Result<(), Fail> {
    let mut args = Args::new(rt.alloc());
    args.push("script")?;
    args.push("")?;
    holds(&rt, "the number of words", args.len() == 2);
    holds(&rt, "all words", args.as_slice().len() == 2);
    holds(&rt, "the first word", args.word(0) == Some("script"));
    holds(&rt, "the last word", args.word(1) == Some(""));
    Ok(())
}
