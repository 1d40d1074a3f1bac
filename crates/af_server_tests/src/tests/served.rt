// What a server asks of its world, over a tape that is watched, and which wakes have a turn. The examples are worked by hand.
use crate::tests::checks::holds;
use crate::tests::serving::{DEVICE, FOREVER, NINE, NONE, TIME, args, script_of};
use af_io::{MemSink, MemSource};
use af_outside::{DeviceSpec, Happening, Lifecycle, LifecycleFaults, Tape, ToldKind, Wake};
use af_script::print_log;
use afd_log::{Fronts, Log, Logged, NoSight};
use afd_serve::{Endless, LiveEnd, afd_live};
use std::alloc::Global;
use std::process::Abort;
use std::test::Fail;

const TWO_DEVICES: &[u8] =
    b"device lin16 8000 0 silent\ndevice alaw 44100 7 stereo line files a b\n";

const WITH_A_PHONE: &[u8] =
    b"device lin16 8000 0 silent\ndevice alaw 44100 7 stereo line files a b\nphone 1 5 p q\n";

const TWO: &[u8] =
    b"device lin16 8000 0\ndevice alaw 44100 7 stereo line\nopen 3\ntick 1 5\nidle\n";

// A call of the world that is expected: a listen at an address; an attach of a device, with its rate, whether it has a line, and
// its two files, if any; a program for the line of a device, with its restarts, and how many words its command line has; a wait,
// with whether there was more to do, and the wake that it gave.
enum Called<'a> {
    Listen(&'a str),
    Attach(u8, u32, bool, Option<(&'a str, &'a str)>),
    AttachLine(u8, u32, usize),
    Wait(bool, Wake),
}

fn is_backed(kind: &ToldKind, files: Option<(&str, &str)>) -> bool {
    match (kind, files) {
        (ToldKind::Silent, None) => true,
        (ToldKind::Files { input, output }, Some((one, other))) => {
            input.as_slice() == one.as_bytes() && output.as_slice() == other.as_bytes()
        }
        _ => false,
    }
}

fn is_attached(spec: &DeviceSpec, rate: u32, line: bool) -> bool {
    spec.rate == rate && spec.line == line
}

fn is_call(found: &Lifecycle, wanted: &Called<'_>) -> bool {
    match (found, wanted) {
        (Lifecycle::Listened(address), Called::Listen(name)) => address.as_slice()
            == name.as_bytes(),
        (Lifecycle::Attached { device, spec, kind }, Called::Attach(number, rate, line, files)) =>
            *device == *number && is_attached(spec, *rate, *line) && is_backed(kind, *files),
        (
            Lifecycle::LineAttached {
                device,
                restarts,
                words,
            },
            Called::AttachLine(number, times, count),
        ) => *device == *number && *restarts == *times && words.words().len() == *count,
        (Lifecycle::Waited { more, wake }, Called::Wait(asked, given)) => {
            *more == *asked && *wake == *given
        }
        _ => false,
    }
}

// These calls of the world were done.
fn assert_calls(rt: &impl Abort, what: &str, calls: &[Lifecycle], wanted: &[Called<'_>]) {
    holds(rt, what, calls.len() == wanted.len());
    for (found, call) in calls.iter().zip(wanted) {
        holds(rt, what, is_call(found, call));
    }
}

// These wakes had a turn.
fn assert_turns(rt: &impl Abort, what: &str, log: &[Happening], wanted: &[Wake]) {
    let mut left = wanted.iter();
    for happening in log {
        if let Happening::Woke(wake) = happening {
            holds(rt, what, left.next() == Some(wake));
        }
    }
    holds(rt, what, left.next().is_none());
}

// A log is printed so.
fn assert_printed(rt: &impl Abort, what: &str, log: &[Happening], wanted: &str) {
    let mut room = [0u8; 200];
    let mut sink = MemSink::new(&mut room, &[]);
    let _ = print_log(log, &mut sink);
    holds(rt, what, sink.held() == wanted.as_bytes());
}

// What a server with a configuration calls, and writes, as it plays a script.
struct Served<'a> {
    what: &'a str,
    words: &'a [&'a str],
    config: &'a [u8],
    script: &'a [u8],
    faults: LifecycleFaults,
    end: LiveEnd,
    calls: &'a [Called<'a>],
    turns: &'a [Wake],
    printed: &'a str,
}

// Over a tape that is watched: what it was asked, and what it prints, is what a tape by itself is asked and prints.
fn assert_served(
    rt: &impl Abort,
    alloc: Global,
    endless: &dyn Endless,
    log: &Log<'_>,
    case: &Served<'_>,
) -> Result<(), Fail> {
    let words = args(alloc, case.words)?;
    let script = script_of(alloc, case.script)?;
    let steps = script.steps.as_slice();
    let tape = Tape::new(alloc, &script.config, steps, case.faults)?;
    let mut world = Logged::new(tape, NoSight, log);
    let mut source = MemSource::new(case.config, 7, &[]);
    let end = afd_live(alloc, endless, &words, &mut source, &mut world);
    holds(rt, case.what, end == case.end);
    let tape = world.world();
    assert_calls(rt, case.what, tape.lifecycle(), case.calls);
    assert_turns(rt, case.what, tape.log(), case.turns);
    assert_printed(rt, case.what, tape.log(), case.printed);
    Ok(())
}

static SERVED: [Served<'static>; 8] = [
    Served {
        what: "each wait has its turn, and a server that was to go on forever ends by Stop alone",
        words: FOREVER,
        config: DEVICE,
        script: TIME,
        faults: NONE,
        end: LiveEnd::Done,
        calls: &[
            Called::Listen("x"),
            Called::Attach(0, 8000, false, None),
            Called::Wait(false, Wake::Opened(0)),
            Called::Wait(false, Wake::Readable(0)),
            Called::Wait(true, Wake::Stop),
        ],
        turns: &[Wake::Opened(0), Wake::Readable(0)],
        printed: "link 0 010000000000000500010000000000010201000000001f4000007d00010200010000000100000000\n",
    },
    Served {
        what: "a link is ready until a read of it gives nothing: there is more to do before the last wait",
        words: NINE,
        config: DEVICE,
        script: TIME,
        faults: NONE,
        end: LiveEnd::Done,
        calls: &[
            Called::Listen("x"),
            Called::Attach(0, 8000, false, None),
            Called::Wait(false, Wake::Opened(0)),
            Called::Wait(false, Wake::Readable(0)),
            Called::Wait(true, Wake::Stop),
        ],
        turns: &[Wake::Opened(0), Wake::Readable(0)],
        printed: "link 0 010000000000000500010000000000010201000000001f4000007d00010200010000000100000000\n",
    },
    Served {
        what: "so many waits as are asked for",
        words: &["serve", "x", "00000000000000000001"],
        config: DEVICE,
        script: TIME,
        faults: NONE,
        end: LiveEnd::WaitsSpent,
        calls: &[
            Called::Listen("x"),
            Called::Attach(0, 8000, false, None),
            Called::Wait(false, Wake::Opened(0)),
        ],
        turns: &[Wake::Opened(0)],
        printed: "",
    },
    Served {
        what: "each device is attached in order, and the second one, of two channels, ticks",
        words: NINE,
        config: TWO_DEVICES,
        script: TWO,
        faults: NONE,
        end: LiveEnd::Done,
        calls: &[
            Called::Listen("x"),
            Called::Attach(0, 8000, false, None),
            Called::Attach(1, 44100, true, Some(("a", "b"))),
            Called::Wait(false, Wake::Opened(3)),
            Called::Wait(false, Wake::Ticked(1, 5)),
            Called::Wait(false, Wake::Idle),
            Called::Wait(false, Wake::Stop),
        ],
        turns: &[Wake::Opened(3), Wake::Ticked(1, 5), Wake::Idle],
        printed: "emit 1 d5d5d5d5d5d5d5d5d5d5\n",
    },
    Served {
        what: "the program of a line is put there after all devices",
        words: NINE,
        config: WITH_A_PHONE,
        script: TWO,
        faults: NONE,
        end: LiveEnd::Done,
        calls: &[
            Called::Listen("x"),
            Called::Attach(0, 8000, false, None),
            Called::Attach(1, 44100, true, Some(("a", "b"))),
            Called::AttachLine(1, 5, 2),
            Called::Wait(false, Wake::Opened(3)),
            Called::Wait(false, Wake::Ticked(1, 5)),
            Called::Wait(false, Wake::Idle),
            Called::Wait(false, Wake::Stop),
        ],
        turns: &[Wake::Opened(3), Wake::Ticked(1, 5), Wake::Idle],
        printed: "emit 1 d5d5d5d5d5d5d5d5d5d5\n",
    },
    Served {
        what: "there is no second device: what does not fit is taken as Idle",
        words: NINE,
        config: DEVICE,
        script: TWO,
        faults: NONE,
        end: LiveEnd::Done,
        calls: &[
            Called::Listen("x"),
            Called::Attach(0, 8000, false, None),
            Called::Wait(false, Wake::Opened(3)),
            Called::Wait(false, Wake::Ticked(1, 5)),
            Called::Wait(false, Wake::Idle),
            Called::Wait(false, Wake::Stop),
        ],
        turns: &[Wake::Opened(3), Wake::Idle, Wake::Idle],
        printed: "",
    },
    Served {
        what: "a fault of the second attach leaves the first one, and no turn is taken",
        words: NINE,
        config: TWO_DEVICES,
        script: TWO,
        faults: LifecycleFaults {
            listen: false,
            attach: Some(1),
            wait: None,
        },
        end: LiveEnd::AttachFault { device: 1 },
        calls: &[Called::Listen("x"), Called::Attach(0, 8000, false, None)],
        turns: &[],
        printed: "",
    },
    Served {
        what: "the waits before one that fails had their turns",
        words: NINE,
        config: TWO_DEVICES,
        script: TWO,
        faults: LifecycleFaults {
            listen: false,
            attach: None,
            wait: Some(3),
        },
        end: LiveEnd::WaitFault,
        calls: &[
            Called::Listen("x"),
            Called::Attach(0, 8000, false, None),
            Called::Attach(1, 44100, true, Some(("a", "b"))),
            Called::Wait(false, Wake::Opened(3)),
            Called::Wait(false, Wake::Ticked(1, 5)),
            Called::Wait(false, Wake::Idle),
        ],
        turns: &[Wake::Opened(3), Wake::Ticked(1, 5), Wake::Idle],
        printed: "emit 1 d5d5d5d5d5d5d5d5d5d5\n",
    },
];

#[test]
fn what_is_asked_of_the_world_is_told(rt: HostRuntime) -> Result<(), Fail> {
    let log = Log::new(&rt, false, Fronts::PLAIN);
    for case in &SERVED {
        assert_served(&rt, rt.alloc(), &rt, &log, case)?;
    }
    Ok(())
}
