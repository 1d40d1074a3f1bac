// The server over a tape: how it ends. The examples are worked by hand.
use crate::tests::checks::holds;
use af_io::{Args, MemSource};
use af_outside::{LifecycleFaults, Tape};
use af_script::{Script, read_script};
use afd_serve::{Endless, LiveEnd, afd_live, status_of};
use std::alloc::Global;
use std::process::Abort;
use std::test::Fail;

pub const NINE: &[&str] = &["serve", "x", "9"];

pub const FOREVER: &[&str] = &["serve", "x", "forever"];

pub const DEVICE: &[u8] = b"device lin16 8000 0 silent";

pub const TIME: &[u8] = b"device lin16 8000 0\nopen 0\nsend 0 414642000001000002000001\n";

pub const NONE: LifecycleFaults = LifecycleFaults {
    listen: false,
    attach: None,
    wait: None,
};

pub fn args(alloc: Global, words: &[&str]) -> Result<Args, Fail> {
    let mut args = Args::new(alloc);
    for word in words {
        args.push(word)?;
    }
    Ok(args)
}

// How the server ends over a configuration, which comes in pieces of 7 bytes and whose listed reads fail, and a tape.
fn run_to_end(
    alloc: Global,
    endless: &dyn Endless,
    words: &Args,
    config: &[u8],
    fails: &[u64],
    tape: &mut Tape,
) -> LiveEnd {
    let mut source = MemSource::new(config, 7, fails);
    afd_live(alloc, endless, words, &mut source, tape)
}

// The arguments of a server, a configuration whose listed reads fail, and calls that fail; then its end and its status.
#[derive(Clone, Copy)]
struct Ending<'a> {
    what: &'a str,
    words: &'a [&'a str],
    config: &'a [u8],
    fails: &'a [u64],
    faults: LifecycleFaults,
    end: LiveEnd,
    status: u8,
}

fn assert_ends(
    rt: &impl Abort,
    alloc: Global,
    endless: &dyn Endless,
    script: &Script,
    case: &Ending<'_>,
) -> Result<(), Fail> {
    let words = args(alloc, case.words)?;
    let steps = script.steps.as_slice();
    let mut tape = Tape::new(alloc, &script.config, steps, case.faults)?;
    let end = run_to_end(alloc, endless, &words, case.config, case.fails, &mut tape);
    holds(rt, case.what, end == case.end);
    holds(rt, case.what, status_of(end) == case.status);
    Ok(())
}

// A script that is no longer than a script may be.
pub fn script_of(alloc: Global, text: &[u8]) -> Result<Script, Fail> {
    if text.len() > 1048576 {
        return Err(Fail::from("the script is too long"));
    }
    match read_script(alloc, text) {
        Ok(script) => Ok(script),
        Err(fault) => Err(Fail::from(fault)),
    }
}

fn assert_all_end(
    rt: &impl Abort,
    alloc: Global,
    endless: &dyn Endless,
    cases: &[Ending<'_>],
) -> Result<(), Fail> {
    let script = script_of(alloc, TIME)?;
    for case in cases {
        assert_ends(rt, alloc, endless, &script, case)?;
    }
    Ok(())
}

static OUTSIDE: [Ending<'static>; 8] = [
    Ending {
        what: "a wait gave Stop",
        words: NINE,
        config: DEVICE,
        fails: &[],
        faults: NONE,
        end: LiveEnd::Done,
        status: 0,
    },
    Ending {
        what: "a wait gave Stop to a server that was to go on forever",
        words: FOREVER,
        config: DEVICE,
        fails: &[],
        faults: NONE,
        end: LiveEnd::Done,
        status: 0,
    },
    Ending {
        what: "a wait that fails of a server that was to go on forever",
        words: FOREVER,
        config: DEVICE,
        fails: &[],
        faults: LifecycleFaults {
            listen: false,
            attach: None,
            wait: Some(0),
        },
        end: LiveEnd::WaitFault,
        status: 10,
    },
    Ending {
        what: "the one wait is spent",
        words: &["serve", "x", "1"],
        config: DEVICE,
        fails: &[],
        faults: NONE,
        end: LiveEnd::WaitsSpent,
        status: 11,
    },
    Ending {
        what: "a listen that fails",
        words: NINE,
        config: DEVICE,
        fails: &[],
        faults: LifecycleFaults {
            listen: true,
            attach: None,
            wait: None,
        },
        end: LiveEnd::ListenFault,
        status: 8,
    },
    Ending {
        what: "an attach that fails",
        words: NINE,
        config: DEVICE,
        fails: &[],
        faults: LifecycleFaults {
            listen: false,
            attach: Some(0),
            wait: None,
        },
        end: LiveEnd::AttachFault { device: 0 },
        status: 9,
    },
    Ending {
        what: "a wait that fails",
        words: NINE,
        config: DEVICE,
        fails: &[],
        faults: LifecycleFaults {
            listen: false,
            attach: None,
            wait: Some(0),
        },
        end: LiveEnd::WaitFault,
        status: 10,
    },
    Ending {
        what: "a read that fails in the middle of a good configuration",
        words: NINE,
        config: DEVICE,
        fails: &[2],
        faults: NONE,
        end: LiveEnd::ReadFault,
        status: 5,
    },
];

#[test]
fn each_end_has_its_cause(rt: HostRuntime) -> Result<(), Fail> {
    assert_all_end(&rt, rt.alloc(), &rt, &OUTSIDE)
}

// The server ends so over this configuration.
fn assert_config(
    rt: &impl Abort,
    alloc: Global,
    endless: &dyn Endless,
    what: &str,
    config: &[u8],
    end: LiveEnd,
) -> Result<(), Fail> {
    let case = Ending {
        what,
        words: NINE,
        config,
        fails: &[],
        faults: NONE,
        end,
        status: if end == LiveEnd::TooLong { 4 } else { 3 },
    };
    assert_all_end(rt, alloc, endless, &[case])
}

#[test]
fn a_configuration_that_is_none_ends_it(rt: HostRuntime) -> Result<(), Fail> {
    let alloc = rt.alloc();
    let first = LiveEnd::ConfigFault { line: 1 };
    assert_config(&rt, alloc, &rt, "an empty one", b"", first)?;
    assert_config(
        &rt,
        alloc,
        &rt,
        "no such rate",
        b"device lin16 8001 0 silent",
        first,
    )
}

#[test]
fn a_configuration_has_65536_bytes_at_most(rt: HostRuntime) -> Result<(), Fail> {
    let alloc = rt.alloc();
    let long = vec![in alloc; b'#'; 65537]?;
    let second = LiveEnd::ConfigFault { line: 2 };
    assert_config(&rt, alloc, &rt, "one byte more", &long, LiveEnd::TooLong)?;
    assert_config(&rt, alloc, &rt, "as many as may be", &long[1..], second)
}

static NO_WORDS: [&[&str]; 14] = [
    &[],
    &["script"],
    &["serve", "x"],
    &["serve", "x", "1", "1"],
    &["serve", "x", "0"],
    &["serve", "x", "Forever"],
    &["serve", "x", "forever 1"],
    &["serve", "x", "forever", "1"],
    &["serve", "x", "+1"],
    &["serve", "x", ""],
    &["serve", "x", "9223372036854775808"],
    &["serve", "x", "000000000000000000001"],
    &["serve", "", "1"],
    &[
        "serve",
        "aaaaaaaaaaaaaaaaaaaaaaaaaaaaaaaaaaaaaaaaaaaaaaaaaaaaaaaaaaaaaaaaa",
        "1",
    ],
];

#[test]
fn other_words_are_usage(rt: HostRuntime) -> Result<(), Fail> {
    for words in NO_WORDS {
        let case = Ending {
            what: "words that are none of the command's",
            words,
            config: DEVICE,
            fails: &[],
            faults: NONE,
            end: LiveEnd::Usage,
            status: 2,
        };
        assert_all_end(&rt, rt.alloc(), &rt, &[case])?;
    }
    Ok(())
}
