// A script with every kind of line is read as its devices and its steps.
use crate::tests::checks::same_text;
use af_outside::{DeviceSpec, Step};
use af_sample::SampleType;
use af_script::read_script;
use std::alloc::{AllocError, Global};
use std::fmt::Write as _;
use std::process::Abort;
use std::test::Fail;

// The word of a step, and the number of its link or its device. A step without one has 0.
fn head_of(step: &Step) -> (&'static str, u8) {
    match step {
        Step::Open(link) => ("open", *link),
        Step::Send(link, _) => ("send", *link),
        Step::End(link) => ("end", *link),
        Step::Room(link, _) => ("room", *link),
        Step::Tick(device, _, _) => ("tick", *device),
        Step::Line(device, _) => ("line", *device),
        Step::FailRead(link) => ("failread", *link),
        Step::FailWrite(link) => ("failwrite", *link),
        Step::FailCapture(device) => ("failcapture", *device),
        Step::FailEmit(device) => ("failemit", *device),
        Step::FailHook(device) => ("failhook", *device),
        Step::Idle => ("idle", 0),
    }
}

// Writes the other values of a step.
fn write_rest(text: &mut String, step: &Step) -> Result<(), AllocError> {
    match step {
        Step::Send(_, bytes) => writeln!(text, " {:?}", bytes.as_slice()),
        Step::Room(_, room) => writeln!(text, " {room:?}"),
        Step::Tick(_, frames, Some(bytes)) => writeln!(text, " {frames} {:?}", bytes.as_slice()),
        Step::Tick(_, frames, None) => writeln!(text, " {frames} silence"),
        Step::Line(_, change) => writeln!(text, " {change:?}"),
        _ => writeln!(text),
    }
}

// Writes a line of text for a step.
fn write_step(text: &mut String, step: &Step) -> Result<(), AllocError> {
    let (word, number) = head_of(step);
    write!(text, "{word} {number}")?;
    write_rest(text, step)
}

fn lines_of(alloc: Global, steps: &[Step]) -> Result<String, AllocError> {
    let mut text = String::new(alloc);
    for step in steps {
        write_step(&mut text, step)?;
    }
    Ok(text)
}

fn same_devices(rt: &impl Abort, found: &[DeviceSpec], wanted: &[DeviceSpec]) {
    assert_eq!(rt; found, wanted);
}

fn spec(ty: SampleType, rate: u32, start: u32, channels: u8, line: bool) -> DeviceSpec {
    DeviceSpec {
        ty,
        rate,
        start,
        channels,
        line,
    }
}

// Each type is there twice, and each rate at least once.
const SCRIPT: &str = "# eight devices\n\
                      \n  device   mu255 08000 4294967295 \n\
                      device alaw 11025 1\n\
                      device lin16 16000 2\n\
                      device lin32 22050 3\n   \n\
                      device mu255 32000 4\n\
                      device alaw 44100 5 stereo\n\
                      device lin16 48000 6\n\
                      device lin32 8000 7  stereo line \n\
                      #send\n\
                      open 031\n\
                      send  31 00fFA5\n\
                      end 00\n\
                      room 31 0\n\
                      room 007 4294967295\n\
                      room 7 all\n\
                      tick 00 0001\n\
                      tick 3 2 0001020304050607\n\
                      tick 5 2 08090a0b\n\
                      ring 7 on\n\
                      ring 07 off\n\
                      loop 7 on\n\
                      loop 7 off\n\
                      digit 7 #\n\
                      digit 7 D\n\
                      failread 1\n\
                      failwrite 02\n\
                      failcapture 7\n\
                      failemit 007\n\
                      failhook 7\n idle\n\
                      tick 0 4096";

const STATED: &str = "open 31\n\
                      send 31 [0, 255, 165]\n\
                      end 0\n\
                      room 31 Some(0)\n\
                      room 7 Some(4294967295)\n\
                      room 7 None\n\
                      tick 0 1 silence\n\
                      tick 3 2 [0, 1, 2, 3, 4, 5, 6, 7]\n\
                      tick 5 2 [8, 9, 10, 11]\n\
                      line 7 Ring(true)\n\
                      line 7 Ring(false)\n\
                      line 7 Current(true)\n\
                      line 7 Current(false)\n\
                      line 7 Digit(35)\n\
                      line 7 Digit(68)\n\
                      failread 1\n\
                      failwrite 2\n\
                      failcapture 7\n\
                      failemit 7\n\
                      failhook 7\n\
                      idle 0\n\
                      tick 0 4096 silence\n";

fn reads(
    rt: &impl Abort,
    alloc: Global,
    text: &[u8],
    devices: &[DeviceSpec],
    steps: &str,
) -> Result<(), Fail> {
    assert!(rt; text.len() <= 1048576);
    let script = read_script(alloc, text)?;
    same_devices(rt, script.config.as_slice(), devices);
    let found = lines_of(alloc, script.steps.as_slice())?;
    same_text(rt, "the steps", found.as_str(), steps);
    Ok(())
}

#[test]
fn every_kind_of_line_is_read(rt: HostRuntime) -> Result<(), Fail> {
    let devices = [
        spec(SampleType::Mu255, 8000, 4294967295, 1, false),
        spec(SampleType::Alaw, 11025, 1, 1, false),
        spec(SampleType::Lin16, 16000, 2, 1, false),
        spec(SampleType::Lin32, 22050, 3, 1, false),
        spec(SampleType::Mu255, 32000, 4, 1, false),
        spec(SampleType::Alaw, 44100, 5, 2, false),
        spec(SampleType::Lin16, 48000, 6, 1, false),
        spec(SampleType::Lin32, 8000, 7, 2, true),
    ];
    reads(&rt, rt.alloc(), SCRIPT.as_bytes(), &devices, STATED)
}
