// Deferred requests, and when they are due, step by step.
use af_wait::Waiting;
use std::process::Abort;

// What is done, or asked with its answer.
enum Step {
    // a link has a request deferred for n frames of a device
    Add(u8, u8, u32),
    Drop(u8),
    // n frames of a device pass
    Pass(u8, u32),
    // the link whose request is due next for a device leaves
    Next(u8, Option<u8>),
    First(u8, Option<u8>),
    Waits(u8, bool),
    Len(usize),
}

// Runs lists of steps, each over a list of its own that is empty at first.
fn assert_runs(rt: &impl Abort, runs: &[&[Step]]) {
    for steps in runs {
        let mut waiting = Waiting::new();
        for step in *steps {
            assert_step(rt, &mut waiting, step);
        }
    }
}

fn assert_step(rt: &impl Abort, waiting: &mut Waiting, step: &Step) {
    match step {
        Step::Add(link, device, left) => {
            assert!(rt;
                *link < 32 && *left > 0 && !waiting.is_waiting(*link),
                "{link}"
            );
            waiting.add(*link, *device, *left);
        }
        Step::Drop(link) => waiting.drop_link(*link),
        Step::Pass(device, n) => waiting.pass(*device, *n),
        Step::Next(device, link) => assert_link(rt, waiting.next_due(*device), *link),
        Step::First(device, link) => assert_link(rt, waiting.first_due(*device), *link),
        Step::Waits(link, waits) => assert!(rt; waiting.is_waiting(*link) == *waits, "{link}"),
        Step::Len(len) => assert!(rt; waiting.len() == *len, "{len}"),
    }
}

fn assert_link(rt: &impl Abort, found: Option<u8>, wanted: Option<u8>) {
    assert_eq!(rt; found, wanted);
}

#[test]
fn what_is_due_completes_in_the_order_of_beginning(rt: HostRuntime) {
    assert_runs(
        &rt,
        &[
            &[
                Step::Add(5, 0, 100),
                Step::Add(2, 0, 40),
                Step::Add(9, 1, 40),
                Step::Next(0, None),
                Step::Pass(0, 100),
                Step::Next(1, None),
                Step::Next(0, Some(5)),
                Step::Next(0, Some(2)),
                Step::Next(0, None),
                Step::Pass(1, 4096),
                Step::Next(1, Some(9)),
            ],
            // what is deferred can be asked
            &[
                Step::Add(5, 0, 2),
                Step::Add(2, 0, 1),
                Step::Len(2),
                Step::Waits(5, true),
                Step::Waits(2, true),
                Step::Waits(0, false),
                Step::Pass(0, 1),
                Step::First(0, Some(2)),
                Step::First(1, None),
                Step::Len(2),
                Step::Pass(0, 1),
                Step::First(0, Some(5)),
            ],
            // a dropped link has no deferred request any more
            &[
                Step::Add(1, 3, 4096),
                Step::Add(0, 3, 4096),
                Step::Drop(1),
                Step::Pass(3, 4096),
                Step::Next(3, Some(0)),
                Step::Next(3, None),
            ],
            // a record far ahead stays deferred
            &[
                Step::Add(31, 7, (1 << 31) + 1),
                Step::Pass(7, 1 << 31),
                Step::Next(7, None),
                Step::Pass(7, 1),
                Step::Next(7, Some(31)),
            ],
        ],
    );
}
