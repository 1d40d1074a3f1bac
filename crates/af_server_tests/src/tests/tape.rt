// A tape as a world that gives its own wakes: the answers of its calls, and its entries for listens, attaches and waits.
use crate::tests::checks::{holds, same_text};
use af_io::{Bytes, Put};
use af_outside::{
    Config, DeviceSpec, Kind, Lifecycle, LifecycleFaults, LineProgram, LinkGot, LinkTook, Live,
    Ready, Step, Tape, Waited, Wake, Why, World,
};
use af_phone::LineChange;
use af_process::Words;
use af_sample::SampleType;
use std::alloc::{AllocError, Global};
use std::fmt::Write as _;
use std::process::Abort;
use std::test::Fail;

// A call of the outside, with what it is to answer.
#[derive(Clone, Copy)]
enum Call {
    Listen(Ready),
    Attach(u8, u32, Ready),
    // a program is to be the exchange of a device's line
    AttachLine(u8, Ready),
    // asked with whether there is more to do
    Wait(bool, Waited),
    Read(LinkGot),
    // three bytes are offered to a link
    Write(u8, LinkTook),
    Close(Why),
    // what a device captures, if that is done
    Capture(u8, &'static [u8], Put),
    Emit(Put),
    // the hook of device 2 is to be off
    Hook(Put),
}

fn call_live<W: Live>(rt: &impl Abort, alloc: Global, world: &mut W, calls: &[Call]) {
    for call in calls {
        match *call {
            Call::Listen(ready) => holds(rt, "a listen", world.listen(alloc, "h") == ready),
            Call::Attach(device, start, ready) => {
                let found = world.attach(alloc, device, &device_from(start), Kind::Silent);
                holds(rt, "an attach", found == ready);
            }
            Call::AttachLine(device, ready) => {
                let program = LineProgram {
                    restarts: 5,
                    words: &Words::new(),
                };
                let found = world.attach_line(alloc, device, program);
                holds(rt, "an attach of a line", found == ready);
            }
            Call::Wait(more, waited) => holds(rt, "a wait", world.wait(more) == waited),
            _ => call_world(rt, world, *call),
        }
    }
}

fn call_world<W: World>(rt: &impl Abort, world: &mut W, call: Call) {
    match call {
        Call::Read(got) => {
            let mut into = [0u8; 16384];
            holds(rt, "a read", world.read(3, &mut into) == got);
        }
        Call::Write(link, took) => {
            holds(rt, "a write", world.write(link, &[7, 8, 9]) == took);
        }
        Call::Close(why) => world.close(3, why),
        Call::Capture(device, bytes, put) => capture(rt, world, device, bytes, put),
        Call::Emit(put) => holds(rt, "an emit", world.emit(0, &[1, 2]) == put),
        Call::Hook(put) => holds(rt, "a hook call", world.hook(2, true) == put),
        Call::Listen(_) | Call::Attach(..) | Call::AttachLine(..) | Call::Wait(..) => {}
    }
}

// A capture of as many bytes as are wanted, of up to four.
fn capture<W: World>(rt: &impl Abort, world: &mut W, device: u8, wanted: &[u8], put: Put) {
    let mut room = [7u8; 4];
    let into = &mut room[..wanted.len().min(4)];
    if into.is_empty() {
        return;
    }
    holds(rt, "a capture", world.capture(device, 1, into) == put);
    holds(
        rt,
        "what is captured",
        put == Put::Failed || *into == *wanted,
    );
}

fn device_from(start: u32) -> DeviceSpec {
    DeviceSpec {
        ty: SampleType::Lin16,
        rate: 8000,
        start,
        channels: 1,
        line: start == 9,
    }
}

// A line of text for each entry of a lifecycle log.
fn lines_of(alloc: Global, lifecycle: &[Lifecycle]) -> Result<String, AllocError> {
    let mut text = String::new(alloc);
    for entry in lifecycle {
        match entry {
            Lifecycle::Listened(address) => writeln!(text, "listened {:?}", address.as_slice())?,
            Lifecycle::Attached {
                device,
                spec,
                kind: _,
            } => writeln!(text, "attached {device} {}", spec.start)?,
            Lifecycle::LineAttached {
                device,
                restarts,
                words: _,
            } => writeln!(text, "line {device} {restarts}")?,
            Lifecycle::Waited { more, wake } => writeln!(text, "waited {more} {wake:?}")?,
        }
    }
    Ok(text)
}

// One of each kind.
fn all_steps(alloc: Global) -> Result<Vec<Step>, Fail> {
    let sent = Bytes::copied(alloc, &[1, 2])?;
    let captured = Bytes::copied(alloc, &[5, 6])?;
    let steps = vec![in alloc;
        Step::Open(3),
        Step::Send(3, sent),
        Step::End(3),
        Step::Room(3, Some(2)),
        Step::Tick(0, 1, Some(captured)),
        Step::Line(2, LineChange::Ring(true)),
        Step::FailRead(3),
        Step::FailWrite(3),
        Step::FailCapture(0),
        Step::FailEmit(0),
        Step::FailHook(2),
        Step::Idle,
    ]?;
    Ok(steps)
}

const CALLS: [Call; 41] = [
    Call::Listen(Ready::Done),
    // the attaches of device 1 fail, device 3 does not exist, and device 2 has another start
    Call::Attach(0, 7, Ready::Done),
    Call::Attach(1, 8, Ready::Failed),
    Call::Attach(2, 9, Ready::Done),
    Call::Attach(3, 9, Ready::Failed),
    Call::Attach(2, 7, Ready::Failed),
    // device 2 has a line, device 0 has none, and device 3 does not exist
    Call::AttachLine(2, Ready::Done),
    Call::AttachLine(0, Ready::Failed),
    Call::AttachLine(3, Ready::Failed),
    // wait 1 fails, and takes no step
    Call::Wait(false, Waited::Woke(Wake::Opened(3))),
    Call::Wait(true, Waited::Failed),
    Call::Wait(true, Waited::Woke(Wake::Readable(3))),
    Call::Wait(false, Waited::Woke(Wake::Readable(3))),
    Call::Wait(false, Waited::Woke(Wake::Writable(3))),
    Call::Wait(false, Waited::Woke(Wake::Ticked(0, 1))),
    Call::Wait(false, Waited::Woke(Wake::Line(2, LineChange::Ring(true)))),
    Call::Wait(false, Waited::Woke(Wake::Idle)),
    Call::Wait(false, Waited::Woke(Wake::Idle)),
    Call::Wait(false, Waited::Woke(Wake::Idle)),
    Call::Wait(false, Waited::Woke(Wake::Idle)),
    Call::Wait(false, Waited::Woke(Wake::Idle)),
    // each call that is to fail does so once
    Call::Read(LinkGot::Failed),
    Call::Read(LinkGot::Bytes(2)),
    Call::Read(LinkGot::Ended),
    Call::Write(3, LinkTook::Failed),
    Call::Write(3, LinkTook::Took(2)),
    // a link that does not exist takes all
    Call::Write(40, LinkTook::Took(3)),
    Call::Capture(0, &[5, 6], Put::Failed),
    // what a tick states is captured, also a second time, if it is as many bytes as are asked for, and else silence
    Call::Capture(0, &[5, 6], Put::Done),
    Call::Capture(0, &[0], Put::Done),
    Call::Capture(0, &[5, 6], Put::Done),
    Call::Capture(1, &[0, 0], Put::Done),
    // so does a device that does not exist
    Call::Capture(5, &[0, 0], Put::Done),
    Call::Emit(Put::Failed),
    Call::Emit(Put::Done),
    Call::Hook(Put::Failed),
    Call::Hook(Put::Done),
    Call::Close(Why::Ended),
    Call::Wait(false, Waited::Woke(Wake::Idle)),
    // after the last step each wait gives Stop
    Call::Wait(true, Waited::Woke(Wake::Stop)),
    Call::Wait(false, Waited::Woke(Wake::Stop)),
];

const TOLD: &str = "listened [104]\n\
                    attached 0 7\n\
                    attached 2 9\n\
                    line 2 5\n\
                    waited false Opened(3)\n\
                    waited true Readable(3)\n\
                    waited false Readable(3)\n\
                    waited false Writable(3)\n\
                    waited false Ticked(0, 1)\n\
                    waited false Line(2, Ring(true))\n\
                    waited false Idle\n\
                    waited false Idle\n\
                    waited false Idle\n\
                    waited false Idle\n\
                    waited false Idle\n\
                    waited false Idle\n\
                    waited true Stop\n\
                    waited false Stop\n";

// Makes these calls of a tape that plays all steps with these faults. Its log is observable, and these are the lines of its
// lifecycle log.
fn plays(
    rt: &impl Abort,
    alloc: Global,
    faults: LifecycleFaults,
    calls: &[Call],
    told: &str,
) -> Result<(), Fail> {
    let mut config = Config::new();
    config.push(device_from(7));
    config.push(device_from(8));
    config.push(device_from(9));
    let steps = all_steps(alloc)?;
    let mut tape = Tape::new(alloc, &config, steps.as_slice(), faults)?;
    call_live(rt, alloc, &mut tape, calls);
    assert!(rt; tape.tells());
    same_text(
        rt,
        "the lifecycle log",
        lines_of(alloc, tape.lifecycle())?.as_str(),
        told,
    );
    Ok(())
}

#[test]
fn a_tape_is_listened_in_and_attached_to_and_gives_its_wakes(rt: HostRuntime) -> Result<(), Fail> {
    let faults = LifecycleFaults {
        listen: false,
        attach: Some(1),
        wait: Some(1),
    };
    plays(&rt, rt.alloc(), faults, &CALLS, TOLD)?;
    let faults = LifecycleFaults {
        listen: true,
        attach: None,
        wait: None,
    };
    plays(&rt, rt.alloc(), faults, &[Call::Listen(Ready::Failed)], "")
}
