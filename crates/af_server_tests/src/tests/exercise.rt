// The script of an exercise, against steps that were drawn by another implementation of the generator.
use af_outside::{DeviceSpec, Step};
use af_phone::LineChange;
use af_random::make_script;
use af_sample::SampleType;
use std::process::Abort;
use std::test::Fail;

// What a step was drawn as.
#[derive(Clone, Copy)]
enum Drawn<'a> {
    Open(u8),
    // n bytes on a link, beginning with these
    Send(u8, usize, &'a [u8]),
    // n frames in which this pattern is captured
    Tick(u32, &'a [u8]),
    RoomForAll(u8),
    Digit(u8),
}

fn is_drawn(step: &Step, drawn: Drawn<'_>) -> bool {
    match (step, drawn) {
        (Step::Open(link), Drawn::Open(wanted)) => *link == wanted,
        (Step::Send(link, bytes), Drawn::Send(wanted, length, first)) => {
            let bytes = bytes.as_slice();
            *link == wanted && bytes.len() == length && bytes.starts_with(first)
        }
        (Step::Tick(0, frames, Some(bytes)), Drawn::Tick(wanted, pattern)) => {
            let bytes = bytes.as_slice();
            *frames == wanted
                && bytes.len() == wanted as usize * 2
                && bytes.starts_with(pattern)
                && bytes.ends_with(pattern)
        }
        (Step::Room(link, None), Drawn::RoomForAll(wanted)) => *link == wanted,
        (Step::Line(0, LineChange::Digit(code)), Drawn::Digit(wanted)) => *code == wanted,
        _ => false,
    }
}

// The steps at these places were drawn so.
fn are_drawn(rt: &impl Abort, steps: &[Step], rows: &[(usize, Drawn<'_>)]) {
    for (place, drawn) in rows {
        let found = match steps.get(*place) {
            Some(step) => is_drawn(step, *drawn),
            None => false,
        };
        assert!(rt; found, "step {place}");
    }
}

fn has_device(rt: &impl Abort, found: &[DeviceSpec], wanted: DeviceSpec) {
    assert_eq!(rt; found, [wanted].as_slice());
}

fn has_length(rt: &impl Abort, found: &[Step], wanted: usize) {
    assert_eq!(rt; found.len(), wanted);
}

const STEPS: [(usize, Drawn<'static>); 13] = [
    (0, Drawn::Open(0)),
    (3, Drawn::Open(3)),
    (
        4,
        Drawn::Send(
            0,
            32,
            b"\x41\x46\x42\0\0\x01\0\0\x03\0\0\x04\0\0\0\x01\x02\x01\0\0\0\0\0\0\x08\0\0\x02\0\0\0\x0f",
        ),
    ),
    // the last link preempts
    (
        7,
        Drawn::Send(
            3,
            32,
            b"\x41\x46\x42\0\0\x01\0\0\x03\0\0\x04\0\0\0\x01\x02\x01\x01\0\0\0\0\0\x08\0\0\x02\0\0\0\x0f",
        ),
    ),
    (8, Drawn::Tick(191, &[0x57, 0x0e])),
    (9, Drawn::RoomForAll(1)),
    (10, Drawn::RoomForAll(0)),
    (11, Drawn::Tick(289, &[0x5e, 0x9e])),
    // a play
    (
        13,
        Drawn::Send(
            0,
            216,
            b"\x06\0\0\x36\0\0\0\x01\0\0\x32\xeb\0\0\0\xc8\xf4\x6f\xf4\x6f",
        ),
    ),
    (14, Drawn::Tick(462, &[0xa9, 0x53])),
    (16, Drawn::Digit(b'2')),
    // a record
    (
        17,
        Drawn::Send(1, 16, b"\x07\x01\0\x04\0\0\0\x01\xff\xff\xe6\xeb\0\0\0\x64"),
    ),
    (19, Drawn::Send(3, 4, &[2, 0, 0, 1])),
];

#[test]
fn the_steps_of_an_exercise_are_drawn(rt: HostRuntime) -> Result<(), Fail> {
    let script = make_script(rt.alloc(), 7, 12)?;
    let device = DeviceSpec {
        ty: SampleType::Lin16,
        rate: 8000,
        start: 4294960000,
        channels: 1,
        line: true,
    };
    has_device(&rt, script.config.as_slice(), device);
    has_length(&rt, script.steps.as_slice(), 20);
    are_drawn(&rt, script.steps.as_slice(), &STEPS);
    Ok(())
}
