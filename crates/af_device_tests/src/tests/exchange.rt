// The program that is the exchange of a line: whole runs over a program in memory.
ghost use Rattle.std.specs.Prelude.{◌≤◌};
ghost use Rattle.arrayvec.specs.ArrayVec.{array_vec_len};

use af_exchange::Exchange;
use af_io::Put;
use af_phone::LineChange;
use af_process::Words;
use af_program::{Act, Launched, MemProgram, Plan};
use arrayvec::ArrayString;
use std::alloc::Global;
use std::process::Abort;
use std::test::Fail;

// A call, and what it answers. Moments are in milliseconds.
#[derive(Clone, Copy)]
enum Call {
    Next(u64, Option<LineChange>),
    Hook(u64, bool, Put),
    // so many hook calls, and the answer of the last
    Hooks(u64, u32, Put),
}

// What a program does, and the calls that are made.
#[derive(Clone, Copy)]
struct Run<'a> {
    restarts: u32,
    plan: Plan<'a>,
    begins: Launched,
    calls: &'a [Call],
    // what all programs took
    taken: &'a [u8],
    // how many starts were tried
    tried: u32,
}

const SECOND: u64 = 1000;

fn one_word() -> Words
    ensures { 1 ≤ array_vec_len result }
{
    let mut word = ArrayString::new();
    let _ = word.try_push_str("exchange");
    let mut words = Words::new();
    words.push(word);
    words
}

fn nanos(millis: u64) -> u64 {
    millis.saturating_mul(1_000_000)
}

fn is_answered(exchange: &mut Exchange<MemProgram>, call: &Call) -> bool {
    match call {
        Call::Next(at, change) => exchange.next_change(nanos(*at)) == *change,
        Call::Hook(at, off, put) => exchange.set_hook(*off, nanos(*at)) == *put,
        Call::Hooks(at, count, put) => hooks(exchange, *at, *count) == *put,
    }
}

fn hooks(exchange: &mut Exchange<MemProgram>, at: u64, count: u32) -> Put {
    let mut put = Put::Failed;
    for _ in 0..count {
        put = exchange.set_hook(true, nanos(at));
    }
    put
}

// All that the programs took, byte by byte.
fn takes_so(acts: &[Act], wanted: &[u8]) -> bool {
    let mut left = wanted;
    for act in acts {
        if let Act::Took { bytes } = act {
            match left.strip_prefix(bytes.as_slice()) {
                Some(rest) => left = rest,
                None => return false,
            }
        }
    }
    left.is_empty()
}

fn assert_run(rt: &impl Abort, alloc: Global, name: &str, run: &Run<'_>) -> Result<(), Fail> {
    if run.restarts > 1_000_000 {
        return Ok(());
    }
    let program = MemProgram::new(alloc, &run.plan)?;
    let mut exchange = Exchange::new(alloc, program, run.restarts, &one_word())?;
    assert!(rt; exchange.begin(0) == run.begins, "{name}");
    for (at, call) in run.calls.iter().enumerate() {
        let is_wanted = is_answered(&mut exchange, call);
        assert!(rt; is_wanted, "{name} at {at}");
    }
    assert!(rt; exchange.tried() == run.tried, "{name}");
    assert!(rt; takes_so(exchange.program().acts(), run.taken), "{name}");
    Ok(())
}

const RING: Option<LineChange> = Some(LineChange::Ring(true));

const SILENT: Option<LineChange> = Some(LineChange::Ring(false));

// A line comes in two pieces, then a comment, then two changes at once.
const PIECES: [Call; 7] = [
    Call::Next(1, None),
    Call::Next(2, RING),
    Call::Next(3, None),
    Call::Next(4, Some(LineChange::Digit(b'#'))),
    Call::Next(4, Some(LineChange::Current(false))),
    Call::Next(5, Some(LineChange::Current(true))),
    Call::Next(6, None),
];

// A line is malformed between two changes: the first is given, and the program is ended. A second later it is started again.
const FAULT: [Call; 7] = [
    Call::Next(1, RING),
    Call::Next(2, None),
    Call::Next(SECOND + 1, None),
    Call::Next(SECOND + 2, None),
    Call::Next(SECOND + 3, None),
    Call::Next(SECOND + 4, SILENT),
    Call::Next(SECOND + 5, None),
];

// The output ends in the middle of a line.
const CUT: [Call; 4] = [
    Call::Next(1, RING),
    Call::Next(2, None),
    Call::Next(3, None),
    Call::Next(5 * SECOND, None),
];

// A comment of 64 bytes is one, and one of 65 is malformed.
const LONG: [Call; 3] = [
    Call::Next(1, RING),
    Call::Next(2, None),
    Call::Hook(3, true, Put::Failed),
];

// The hook while a program runs, while none does, and at the start of the next one.
const HOOK: [Call; 6] = [
    Call::Hook(1, true, Put::Done),
    Call::Hook(2, false, Put::Done),
    Call::Next(3, None),
    Call::Hook(4, true, Put::Done),
    Call::Next(SECOND + 3, None),
    Call::Hook(SECOND + 4, false, Put::Done),
];

// There is room for three bytes, and for more only later.
const NO_ROOM: [Call; 3] = [
    Call::Hook(1, true, Put::Done),
    Call::Next(2, None),
    Call::Next(3, None),
];

// It takes nothing any more.
const CLOSED: [Call; 5] = [
    Call::Hook(1, true, Put::Done),
    Call::Next(2, RING),
    Call::Next(3, None),
    Call::Next(SECOND + 3, None),
    Call::Next(SECOND + 4, None),
];

// With no start left a hook call fails, once the program takes nothing.
const SPENT: [Call; 3] = [
    Call::Hook(1, true, Put::Failed),
    Call::Next(2, None),
    Call::Hook(3, true, Put::Failed),
];

// It has no room: beside the hook of its start 511 calls are kept, and the next one is too many.
const FULL: [Call; 3] = [
    Call::Hooks(1, 511, Put::Done),
    Call::Hooks(2, 1, Put::Failed),
    Call::Next(3, None),
];

// Starts fail: the next ones come a second, two and four seconds later.
const FAILS: [Call; 8] = [
    Call::Next(SECOND - 1, None),
    Call::Next(SECOND, None),
    Call::Next(3 * SECOND - 1, None),
    Call::Hook(3 * SECOND - 1, true, Put::Done),
    Call::Next(3 * SECOND, None),
    Call::Next(7 * SECOND - 1, None),
    Call::Next(7 * SECOND, None),
    Call::Hook(8 * SECOND, false, Put::Done),
];

const NOTHING: Plan<'static> = Plan {
    fails: &[],
    output: b"",
    gives: &[],
    takes: &[],
};

const LONG_LINES: &[u8] = b"###############################################################\
#\nring on\n#################################################################\n";

const QUIET: Run<'static> = Run {
    restarts: 0,
    plan: NOTHING,
    begins: Launched::Runs,
    calls: &[],
    taken: b"onhook\n",
    tried: 1,
};

#[test]
fn changes_and_hook_calls(rt: HostRuntime) -> Result<(), Fail> {
    let runs = [
        (
            "pieces",
            Run {
                plan: Plan {
                    output: b"ring on\n# loop on\ndigit #\nloop off\nloop on\n",
                    gives: &[Some(4), Some(4), Some(5), Some(22), Some(99)],
                    ..NOTHING
                },
                calls: &PIECES,
                ..QUIET
            },
        ),
        (
            "fault",
            Run {
                restarts: 1,
                plan: Plan {
                    output: b"ring on\nrang\nring offring off\n",
                    gives: &[Some(21), Some(0), Some(99)],
                    ..NOTHING
                },
                calls: &FAULT,
                taken: b"onhook\nonhook\n",
                tried: 2,
                ..QUIET
            },
        ),
        (
            "cut",
            Run {
                plan: Plan {
                    output: b"ring on\nring off\n",
                    gives: &[Some(16), None],
                    ..NOTHING
                },
                calls: &CUT,
                ..QUIET
            },
        ),
        (
            "long",
            Run {
                plan: Plan {
                    output: LONG_LINES,
                    gives: &[Some(199)],
                    ..NOTHING
                },
                calls: &LONG,
                ..QUIET
            },
        ),
        (
            "hook",
            Run {
                restarts: 1,
                plan: Plan {
                    gives: &[None],
                    ..NOTHING
                },
                calls: &HOOK,
                taken: b"onhook\noffhook\nonhook\noffhook\nonhook\n",
                tried: 2,
                ..QUIET
            },
        ),
        (
            "no room",
            Run {
                plan: Plan {
                    takes: &[Some(3), Some(0), Some(5)],
                    ..NOTHING
                },
                calls: &NO_ROOM,
                taken: b"onhook\noffhook\n",
                ..QUIET
            },
        ),
        (
            "closed",
            Run {
                restarts: 1,
                plan: Plan {
                    output: b"ring on\n",
                    gives: &[Some(99)],
                    takes: &[Some(7), None],
                    ..NOTHING
                },
                calls: &CLOSED,
                taken: b"onhook\noffhook\n",
                tried: 2,
                ..QUIET
            },
        ),
        (
            "spent",
            Run {
                plan: Plan {
                    takes: &[Some(7), None],
                    ..NOTHING
                },
                calls: &SPENT,
                ..QUIET
            },
        ),
        (
            "full",
            Run {
                plan: Plan {
                    takes: &[Some(0); 600],
                    ..NOTHING
                },
                calls: &FULL,
                taken: b"",
                ..QUIET
            },
        ),
        (
            "fails",
            Run {
                restarts: 3,
                plan: Plan {
                    fails: &[0, 1, 2],
                    ..NOTHING
                },
                begins: Launched::Failed,
                calls: &FAILS,
                taken: b"offhook\nonhook\n",
                tried: 4,
                ..QUIET
            },
        ),
    ];
    for (name, run) in &runs {
        assert_run(&rt, rt.alloc(), name, run)?;
    }
    Ok(())
}
