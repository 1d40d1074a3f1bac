// The rings of a device's sound across the wrap of the 32-bit time, each over a horizon of four seconds at 8000 frames a second.
ghost use Rattle.std.specs.Prelude.{◌≡◌, ◌<◌, ◌≤◌, length};

use crate::tests::asserts::{assert_number, assert_samples};
use af_buffers::{PlayBuffer, RecordBuffer};
use af_ring::TimeRing;
use af_time::{DevTime, OutOfMemory};
use std::alloc::Global;
use std::process::Abort;
use std::test::Fail;

#[test]
fn runs_go_on_across_the_wrap(rt: HostRuntime) -> Result<(), Fail> {
    let mut ring = TimeRing::new(rt.alloc(), 3)?;
    let mut out = [9; 4];
    ring.set(DevTime(4294967295), 9);
    assert_number(&rt, "the last cell", i128::from(ring.get(DevTime(7))), 9);
    ring.put_run(DevTime(4294967294), &[1, 30000, 3]);
    ring.mix_run(DevTime(4294967295), &[10000, -5]);
    ring.read_run(DevTime(4294967294), &mut out);
    assert_samples(&rt, "mixed", &out, &[1, 32767, -2, 0]);
    ring.clear_run(DevTime(4294967295), 2);
    ring.read_run(DevTime(4294967294), &mut out);
    assert_samples(&rt, "silenced", &out, &[1, 0, 0, 0]);
    Ok(())
}

// A play: its start, its samples, and whether it preempts.
type Play = (u32, &'static [i16], bool);

// What these plays make of the next samples of one channel from a time on. After the ring has gone round, it is silent.
fn assert_heard(
    rt: &impl Abort,
    alloc: Global,
    begin: u32,
    plays: &[Play],
    wanted: &[i16],
) -> Result<(), OutOfMemory> {
    let mut buffer = PlayBuffer::new(alloc, DevTime(begin), 32000, 1)?;
    for play in plays {
        accept(&mut buffer, 1, play);
    }
    for sample in wanted {
        let mut out = [9];
        buffer.hand_out(&mut out);
        assert_number(rt, "heard", i128::from(out[0]), i128::from(*sample));
    }
    for _ in 0..8u32 {
        let mut out = [9; 4096];
        buffer.hand_out(&mut out);
        assert_samples(rt, "silence", &out, &[0; 4096]);
    }
    Ok(())
}

// The same of the next frames of two channels.
fn assert_heard_in_two(
    rt: &impl Abort,
    alloc: Global,
    begin: u32,
    plays: &[Play],
    wanted: &[[i16; 2]],
) -> Result<(), OutOfMemory> {
    let mut buffer = PlayBuffer::new(alloc, DevTime(begin), 32000, 2)?;
    for play in plays {
        accept(&mut buffer, 2, play);
    }
    for frame in wanted {
        let mut out = [9; 2];
        buffer.hand_out(&mut out);
        assert_samples(rt, "heard", &out, frame);
    }
    for _ in 0..16u32 {
        let mut out = [9; 4096];
        buffer.hand_out(&mut out);
        assert_samples(rt, "silence", &out, &[0; 4096]);
    }
    Ok(())
}

// Accepts a play of whole frames that end within the horizon, and no other.
fn accept(buffer: &mut PlayBuffer, channels: usize, play: &Play)
    requires some { 0 < channels }
    requires same { buffer.old.channels ≡ channels }
    ensures { buffer.new.channels ≡ channels }
{
    let start = DevTime(play.0);
    let most = buffer.frames_within(start) as usize;
    let samples = play.1;
    let frames = samples.len() / channels;
    let whole = samples.len() % channels == 0;
    if frames > 0 && whole && samples.len() <= 16368 && frames <= most {
        buffer.play(start, samples, play.2);
    }
}

#[test]
fn plays_are_heard_once(rt: HostRuntime) -> Result<(), Fail> {
    let alloc = rt.alloc();
    let wraps: [Play; 1] = [(4294967295, &[1, 2], false)];
    assert_heard(&rt, alloc, 4294967295, &wraps, &[1, 2, 0])?;
    // the late samples of a play are dropped
    assert_heard(&rt, alloc, 0, &wraps, &[2, 0])?;
    assert_heard(&rt, alloc, 1, &wraps, &[0])?;
    // three plays are summed one by one, each sum saturated
    let loud: [Play; 3] = [
        (5, &[30000], false),
        (5, &[10000], false),
        (5, &[-20000], false),
    ];
    assert_heard(&rt, alloc, 5, &loud, &[12767, 0])?;
    // a play that preempts replaces what was there, and a later one is mixed in
    let preempts: [Play; 3] = [(5, &[5, 6], false), (5, &[7], true), (5, &[1, 1], false)];
    assert_heard(&rt, alloc, 5, &preempts, &[8, 7])?;
    Ok(())
}

#[test]
fn plays_of_two_channels_are_heard_in_each(rt: HostRuntime) -> Result<(), Fail> {
    let alloc = rt.alloc();
    // over the wrap of the time; late samples are dropped by whole frames
    let wraps: [Play; 1] = [(4294967295, &[1, 2, 3, 4, 5, 6], false)];
    assert_heard_in_two(
        &rt,
        alloc,
        4294967295,
        &wraps,
        &[[1, 2], [3, 4], [5, 6], [0, 0]],
    )?;
    assert_heard_in_two(&rt, alloc, 0, &wraps, &[[3, 4], [5, 6], [0, 0]])?;
    assert_heard_in_two(&rt, alloc, 2, &wraps, &[[0, 0]])?;
    // of 65536 cells the frame at 32767 has the last two, and the next the first two
    let around: [Play; 1] = [(32767, &[5, 6, 7, 8], false)];
    assert_heard_in_two(
        &rt,
        alloc,
        32766,
        &around,
        &[[0, 0], [5, 6], [7, 8], [0, 0]],
    )?;
    // across the wrap of a cell's number, which is half-way round the time
    let halfway: [Play; 1] = [(2147483647, &[1, 2, 3, 4], false)];
    assert_heard_in_two(&rt, alloc, 2147483647, &halfway, &[[1, 2], [3, 4], [0, 0]])?;
    // a frame whose other sample is 0 changes one channel
    let sides: [Play; 3] = [
        (6, &[1, 2, 3, 4], false),
        (6, &[10, 0], false),
        (7, &[0, 20], false),
    ];
    assert_heard_in_two(&rt, alloc, 5, &sides, &[[0, 0], [11, 2], [3, 24], [0, 0]])?;
    // a play that preempts replaces both channels, also by a 0, and a later one is mixed in
    let preempts: [Play; 3] = [
        (5, &[5, 6, 7, 8], false),
        (5, &[9, 0], true),
        (5, &[1, 1, 1, 1], false),
    ];
    assert_heard_in_two(&rt, alloc, 5, &preempts, &[[10, 1], [8, 9], [0, 0]])?;
    Ok(())
}

// What is read from a time on, after these samples were captured from another on.
fn assert_recorded(
    rt: &impl Abort,
    alloc: Global,
    begin: u32,
    captured: &[i16],
    start: u32,
    wanted: [i16; 3],
) -> Result<(), OutOfMemory>
    requires { length captured.now ≤ 4096 }
{
    let mut buffer = RecordBuffer::new(alloc, DevTime(begin), 32000, 1)?;
    let mut out = [9; 3];
    buffer.capture(captured);
    buffer.read(DevTime(start), &mut out);
    assert_samples(rt, "recorded", &out, &wanted);
    Ok(())
}

#[test]
fn what_was_captured_is_read(rt: HostRuntime) -> Result<(), Fail> {
    let alloc = rt.alloc();
    // silence before what was captured, and after it
    assert_recorded(&rt, alloc, 0, &[5], 4294967295, [0, 5, 0])?;
    assert_recorded(&rt, alloc, 4294967295, &[1, 2], 4294967295, [1, 2, 0])?;
    Ok(())
}

#[test]
fn frames_of_two_channels_are_read_whole(rt: HostRuntime) -> Result<(), Fail> {
    let mut buffer = RecordBuffer::new(rt.alloc(), DevTime(0), 32000, 2)?;
    buffer.capture(&[1, 2, 3, 4]);
    // over the start of the device, which is a wrap of its time, and on past its time
    let mut out = [9; 8];
    buffer.read(DevTime(4294967295), &mut out);
    assert_samples(&rt, "recorded", &out, &[0, 0, 1, 2, 3, 4, 0, 0]);
    Ok(())
}

#[test]
fn frames_lie_over_the_last_cell(rt: HostRuntime) -> Result<(), Fail> {
    // of 65536 cells the first frame has the last two
    let mut buffer = RecordBuffer::new(rt.alloc(), DevTime(32767), 32000, 2)?;
    buffer.capture(&[5, 6, 7, 8]);
    let mut out = [9; 4];
    buffer.read(DevTime(32767), &mut out);
    assert_samples(&rt, "recorded", &out, &[5, 6, 7, 8]);
    assert_number(
        &rt,
        "a right cell",
        i128::from(buffer.ring().get(DevTime(65535))),
        6,
    );
    Ok(())
}

#[test]
fn a_buffer_tells_how_far_its_times_are(rt: HostRuntime) -> Result<(), Fail> {
    let next = PlayBuffer::new(rt.alloc(), DevTime(10), 32000, 1)?;
    assert_number(&rt, "now", i128::from(next.now().0), 10);
    assert_number(&rt, "channels", i128::from(next.channels()), 1);
    assert_number(
        &rt,
        "a silent cell",
        i128::from(next.ring().get(DevTime(10))),
        0,
    );
    assert_number(
        &rt,
        "within",
        i128::from(next.frames_within(DevTime(12))),
        31998,
    );
    assert_number(
        &rt,
        "within, late",
        i128::from(next.frames_within(DevTime(9))),
        32001,
    );
    assert_number(
        &rt,
        "beyond",
        i128::from(next.frames_beyond(DevTime(32009), 2)),
        1,
    );
    assert_number(
        &rt,
        "beyond, late",
        i128::from(next.frames_beyond(DevTime(9), 2)),
        0,
    );
    let last = RecordBuffer::new(rt.alloc(), DevTime(10), 32000, 1)?;
    assert_number(
        &rt,
        "a silent cell",
        i128::from(last.ring().get(DevTime(10))),
        0,
    );
    assert_number(&rt, "before", i128::from(last.frames_before(DevTime(7))), 3);
    assert_number(
        &rt,
        "to come",
        i128::from(last.frames_beyond(DevTime(9), 3)),
        2,
    );
    Ok(())
}
