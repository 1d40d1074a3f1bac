// A device whose sound a program gives and takes: whole runs over a program in memory.
ghost use Rattle.std.specs.Prelude.{◌≤◌};
ghost use Rattle.arrayvec.specs.ArrayVec.{array_vec_len};

use af_card::{Card, Shape};
use af_io::Put;
use af_process::Words;
use af_program::{Act, Launched, MemProgram, Plan};
use af_world::CardKind;
use arrayvec::ArrayString;
use std::alloc::Global;
use std::process::Abort;
use std::test::Fail;

// A call of a device, and what it answers. Moments are in milliseconds.
#[derive(Clone, Copy)]
enum Call {
    Due(u64, u32),
    Capture(&'static [u8], Put),
    Emit(&'static [u8], Put),
}

// A device with frames of two bytes, what its program does, and the calls that are made.
#[derive(Clone, Copy)]
struct Run<'a> {
    kind: CardKind,
    restarts: u32,
    plan: Plan<'a>,
    calls: &'a [Call],
    // what the program took in all, and the frames for which it had no room
    taken: &'a [u8],
    lost: u64,
}

const SECOND: u64 = 1000;

fn one_word() -> Words
    ensures { 1 ≤ array_vec_len result }
{
    let mut word = ArrayString::new();
    let _ = word.try_push_str("cat");
    let mut words = Words::new();
    words.push(word);
    words
}

fn nanos(millis: u64) -> u64 {
    millis.saturating_mul(1_000_000)
}

fn is_answered(card: &mut Card<MemProgram>, call: &Call) -> bool {
    match call {
        Call::Due(at, frames) => card.due(nanos(*at)) == *frames,
        Call::Capture(sound, put) => {
            let mut room = [9; 8];
            if sound.len() > room.len() {
                return false;
            }
            let into = &mut room[..sound.len()];
            card.capture(into) == *put && *into == **sound
        }
        Call::Emit(sound, put) => !sound.is_empty() && card.emit(sound) == *put,
    }
}

// All that the program took, byte by byte.
fn takes_so(acts: &[Act], wanted: &[u8]) -> bool {
    let mut left = wanted;
    for act in acts {
        if let Act::Took { bytes } = act {
            match left.strip_prefix(bytes.as_slice()) {
                Some(rest) => left = rest,
                None => return false,
            }
        }
    }
    left.is_empty()
}

fn assert_run(rt: &impl Abort, alloc: Global, name: &str, run: &Run<'_>) -> Result<(), Fail> {
    let shape = Shape {
        kind: run.kind,
        frame_bytes: 2,
        silence: 0,
        rate: 100,
    };
    if run.restarts > 1_000_000 {
        return Ok(());
    }
    let program = MemProgram::new(alloc, &run.plan)?;
    let mut card = Card::new(alloc, program, shape, run.restarts, &one_word())?;
    assert!(rt; card.begin(0) == Launched::Runs, "{name}");
    for (at, call) in run.calls.iter().enumerate() {
        let is_wanted = is_answered(&mut card, call);
        assert!(rt; is_wanted, "{name} at {at}");
    }
    assert!(rt; takes_so(card.program().acts(), run.taken), "{name}");
    assert!(rt; card.lost() == run.lost, "{name}");
    Ok(())
}

// A card gives a frame and a half, then the rest and another, and takes all: as many frames go by as it gave.
const IN_STEP: [Call; 7] = [
    Call::Due(10, 1),
    Call::Capture(b"ab", Put::Done),
    Call::Emit(b"AB", Put::Done),
    Call::Due(20, 2),
    Call::Capture(b"cdef", Put::Done),
    Call::Emit(b"CDEF", Put::Done),
    Call::Due(30, 0),
];

// It gives more frames than a clock of a hundred frames a second has, and they go by at once.
const FAST: [Call; 4] = [
    Call::Due(10, 4),
    Call::Capture(b"abcdefgh", Put::Done),
    Call::Emit(b"ABCDEFGH", Put::Done),
    Call::Due(11, 0),
];

// It has room for three of six bytes: the frame that was begun is finished, and the third is lost.
const NO_ROOM: [Call; 6] = [
    Call::Due(10, 3),
    Call::Capture(b"abcdef", Put::Done),
    Call::Emit(b"ABCDEF", Put::Done),
    Call::Due(20, 1),
    Call::Capture(b"gh", Put::Done),
    Call::Emit(b"GH", Put::Done),
];

// It closes its input and goes on as a microphone: all is lost.
const CLOSED: [Call; 6] = [
    Call::Due(10, 2),
    Call::Capture(b"abcd", Put::Done),
    Call::Emit(b"ABCD", Put::Done),
    Call::Due(20, 1),
    Call::Capture(b"ef", Put::Done),
    Call::Emit(b"EF", Put::Done),
];

// A microphone ends after half a frame, and comes back a second later. The half is dropped, and meanwhile the clock ticks.
const DIES: [Call; 12] = [
    Call::Due(10, 1),
    Call::Capture(b"ab", Put::Done),
    Call::Emit(b"AB", Put::Done),
    Call::Due(20, 0),
    Call::Due(520, 50),
    Call::Due(SECOND, 48),
    Call::Due(SECOND + 20, 2),
    // started again, once nothing is due
    Call::Due(SECOND + 20, 0),
    Call::Due(SECOND + 30, 1),
    Call::Capture(b"de", Put::Done),
    Call::Emit(b"DE", Put::Done),
    Call::Due(SECOND + 40, 0),
];

// If each look finds frames due by the clock, the program is started as their sound is emitted.
const BUSY: [Call; 9] = [
    Call::Due(10, 1),
    Call::Capture(b"ab", Put::Done),
    Call::Emit(b"AB", Put::Done),
    Call::Due(20, 0),
    Call::Due(SECOND, 98),
    Call::Due(SECOND + 30, 3),
    Call::Capture(b"\0\0\0\0\0\0", Put::Done),
    Call::Emit(b"ABCDEF", Put::Done),
    Call::Due(SECOND + 60, 1),
];

// With no start left the device is dead, and its time goes on by the clock.
const SPENT: [Call; 5] = [
    Call::Due(10, 0),
    Call::Due(20, 1),
    Call::Capture(b"\x09\x09", Put::Failed),
    Call::Emit(b"AB", Put::Failed),
    Call::Due(30, 1),
];

// A loudspeaker is handed a piece, which is a frame here. The next one is due once it took all of that.
const FULL: [Call; 8] = [
    Call::Due(1, 1),
    Call::Capture(b"\0\0", Put::Done),
    Call::Emit(b"AB", Put::Done),
    Call::Due(11, 0),
    Call::Due(21, 1),
    Call::Capture(b"\0\0", Put::Done),
    Call::Emit(b"CD", Put::Done),
    Call::Due(31, 1),
];

// An encoder goes by the clock. It has room for three of six bytes: the frame that was begun is finished, and the third is lost.
const ENCODER: [Call; 9] = [
    Call::Due(0, 0),
    Call::Due(10, 1),
    Call::Capture(b"\0\0", Put::Done),
    Call::Emit(b"AB", Put::Done),
    Call::Due(40, 3),
    Call::Capture(b"\0\0\0\0\0\0", Put::Done),
    Call::Emit(b"CDEFGH", Put::Done),
    Call::Due(40, 0),
    Call::Due(41, 0),
];

// It closes its input and is ended, and comes back a second later. Meanwhile, and all the time, the clock ticks.
const ENCODER_ENDS: [Call; 13] = [
    Call::Due(0, 0),
    Call::Due(10, 1),
    Call::Capture(b"\0\0", Put::Done),
    Call::Emit(b"AB", Put::Done),
    Call::Due(20, 1),
    Call::Capture(b"\0\0", Put::Done),
    Call::Emit(b"CD", Put::Done),
    Call::Due(SECOND + 10, 99),
    Call::Due(SECOND + 20, 1),
    // started again, once nothing is due
    Call::Due(SECOND + 20, 0),
    Call::Due(SECOND + 30, 1),
    Call::Capture(b"\0\0", Put::Done),
    Call::Emit(b"EF", Put::Done),
];

const NOTHING: Plan<'static> = Plan {
    fails: &[],
    output: b"",
    gives: &[],
    takes: &[],
};

#[test]
fn a_device_goes_by_its_program(rt: HostRuntime) -> Result<(), Fail> {
    let runs = [
        (
            "in step",
            Run {
                kind: CardKind::Card,
                restarts: 0,
                plan: Plan {
                    output: b"abcdef",
                    gives: &[Some(3), Some(3)],
                    ..NOTHING
                },
                calls: &IN_STEP,
                taken: b"ABCDEF",
                lost: 0,
            },
        ),
        (
            "fast",
            Run {
                kind: CardKind::Card,
                restarts: 0,
                plan: Plan {
                    output: b"abcdefgh",
                    gives: &[Some(8)],
                    ..NOTHING
                },
                calls: &FAST,
                taken: b"ABCDEFGH",
                lost: 0,
            },
        ),
        (
            "no room",
            Run {
                kind: CardKind::Card,
                restarts: 0,
                plan: Plan {
                    output: b"abcdefgh",
                    gives: &[Some(6), Some(2)],
                    takes: &[Some(3)],
                    ..NOTHING
                },
                calls: &NO_ROOM,
                taken: b"ABCDGH",
                lost: 1,
            },
        ),
        (
            "closed",
            Run {
                kind: CardKind::Card,
                restarts: 0,
                plan: Plan {
                    output: b"abcdef",
                    gives: &[Some(4), Some(2)],
                    takes: &[None],
                    ..NOTHING
                },
                calls: &CLOSED,
                taken: b"",
                lost: 3,
            },
        ),
        (
            "dies",
            Run {
                kind: CardKind::Microphone,
                restarts: 1,
                plan: Plan {
                    output: b"abcde",
                    gives: &[Some(3), None, Some(2)],
                    ..NOTHING
                },
                calls: &DIES,
                taken: b"",
                lost: 0,
            },
        ),
        (
            "busy",
            Run {
                kind: CardKind::Microphone,
                restarts: 1,
                plan: Plan {
                    output: b"abcde",
                    gives: &[Some(3), None, Some(2)],
                    ..NOTHING
                },
                calls: &BUSY,
                taken: b"",
                lost: 0,
            },
        ),
        (
            "spent",
            Run {
                kind: CardKind::Microphone,
                restarts: 0,
                plan: Plan {
                    gives: &[None],
                    ..NOTHING
                },
                calls: &SPENT,
                taken: b"",
                lost: 0,
            },
        ),
        (
            "full",
            Run {
                kind: CardKind::Speaker,
                restarts: 0,
                plan: Plan {
                    takes: &[Some(1), Some(0)],
                    ..NOTHING
                },
                calls: &FULL,
                taken: b"ABCD",
                lost: 0,
            },
        ),
        (
            "encoder",
            Run {
                kind: CardKind::Encoder,
                restarts: 0,
                plan: Plan {
                    takes: &[Some(3), Some(3)],
                    ..NOTHING
                },
                calls: &ENCODER,
                taken: b"ABCDEF",
                lost: 1,
            },
        ),
        (
            "encoder ends",
            Run {
                kind: CardKind::Encoder,
                restarts: 1,
                plan: Plan {
                    takes: &[None],
                    ..NOTHING
                },
                calls: &ENCODER_ENDS,
                taken: b"EF",
                lost: 1,
            },
        ),
    ];
    for (name, run) in &runs {
        assert_run(&rt, rt.alloc(), name, run)?;
    }
    Ok(())
}
