// Telephone lines through calls, step by step.
use af_phone::*;
use af_request::Phone;
use af_wire::EventKind;
use std::process::Abort;

// A call with its answer, if it has one.
#[derive(Drop)]
enum Step {
    Change(LineChange, (EventKind, u32)),
    Want(bool),
    Needs(Option<bool>),
    // a hook call was done, or failed
    Hooked(bool),
    Shows(Phone),
}

// Runs lists of steps, each over a new line.
fn assert_runs(rt: &impl Abort, runs: &[&[Step]]) {
    for steps in runs {
        let mut line = Line::new();
        for step in *steps {
            assert_step(rt, &mut line, step);
        }
    }
}

fn assert_step(rt: &impl Abort, line: &mut Line, step: &Step) {
    match step {
        Step::Change(change, event) => assert_event(rt, line.change(*change), *event),
        Step::Want(off) => line.want(*off),
        Step::Needs(hook) => assert_eq!(rt; line.needs_hook(), *hook),
        Step::Hooked(done) => line.hooked(*done),
        Step::Shows(phone) => assert_eq!(rt; line.phone(), *phone),
    }
}

fn assert_event(rt: &impl Abort, found: (EventKind, u32), wanted: (EventKind, u32)) {
    assert_eq!(rt; found, wanted);
}

#[test]
fn a_call_is_taken_and_ends(rt: HostRuntime) {
    let in_talk = Phone {
        wanted_off: true,
        given_off: true,
        ringing: false,
        current: true,
        dead: false,
    };
    let dead = Phone {
        wanted_off: true,
        given_off: false,
        ringing: true,
        current: false,
        dead: true,
    };
    assert_runs(
        &rt,
        &[
            &[
                Step::Change(LineChange::Ring(true), (EventKind::Ring, 1)),
                Step::Needs(None),
                Step::Want(true),
                Step::Needs(Some(true)),
                Step::Hooked(true),
                Step::Needs(None),
                Step::Change(LineChange::Ring(false), (EventKind::Ring, 0)),
                Step::Change(LineChange::Current(true), (EventKind::Current, 1)),
                Step::Change(LineChange::Digit(b'#'), (EventKind::Digit, 35)),
                Step::Shows(in_talk),
                Step::Want(false),
                Step::Needs(Some(false)),
            ],
            // a failed hook call leaves a dead line, which still changes; a code that is no digit's changes nothing
            &[
                Step::Want(true),
                Step::Hooked(false),
                Step::Needs(None),
                Step::Change(LineChange::Ring(true), (EventKind::Ring, 1)),
                Step::Change(LineChange::Digit(b'x'), (EventKind::Digit, 120)),
                Step::Shows(dead),
            ],
        ],
    );
}

#[test]
fn digits_and_masks(rt: HostRuntime) {
    assert_digits(&rt, b"0123456789*#ABCD", true);
    assert_digits(&rt, b"/:@E+$a ", false);
    assert_event(&rt, LineChange::Digit(b'D').event(), (EventKind::Digit, 68));
    assert_masks(
        &rt,
        &[
            (15, EventKind::Hook, true),
            (8, EventKind::Digit, true),
            (11, EventKind::Current, false),
            (4294967280, EventKind::Ring, false),
        ],
    );
}

fn assert_digits(rt: &impl Abort, codes: &[u8], digits: bool) {
    for code in codes {
        assert!(rt;
            is_digit(*code) == digits && LineChange::Digit(*code).is_possible() == digits,
            "{code}"
        );
    }
}

fn assert_masks(rt: &impl Abort, cases: &[(u32, EventKind, bool)]) {
    for (mask, kind, selected) in cases {
        assert!(rt; event_for(*mask, *kind) == *selected, "{mask}, {kind:?}");
    }
}
