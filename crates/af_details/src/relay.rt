// Details of a relay.
use crate::counted::Counted;
use crate::links::tell_no_device;
use crate::lost::{tell_greater, tell_late};
use crate::talk::Talk;
use af_cli::PassJob;
use af_toolkit::ToolEnd;

/// The greatest delay that may be asked for, in milliseconds.
const LONGEST_DELAY: u64 = 3000;

/// Tells which of the devices of a relay does not exist, or how the two differ.
pub fn tell_pair(rt: &impl Eprint, job: &PassJob, end: ToolEnd, from: &Talk, to: &Talk) {
    match end {
        ToolEnd::NoDevice { devices: _ } => tell_missing(rt, job, from, to),
        ToolEnd::RateMismatch { from: a, to: b } => {
            let rates = [u64::from(a), u64::from(b)];
            tell_both(rt, job, [from, to], rates, "frame", " a second");
            let _ = eprintln!(rt; "af: a relay does not resample: both devices must have one rate");
        }
        ToolEnd::ChannelMismatch { from: a, to: b } => {
            let channels = [u64::from(a), u64::from(b)];
            tell_both(rt, job, [from, to], channels, "channel", "");
            let _ = eprintln!(rt;
                "af: a relay does not mix channels: both devices must have as many"
            );
        }
        _ => {}
    }
}

// Tells how many of something each of the two devices has.
fn tell_both(
    rt: &impl Eprint,
    job: &PassJob,
    talks: [&Talk; 2],
    counts: [u64; 2],
    word: &str,
    per: &str,
) {
    let devices = [job.from_device, job.to_device];
    for end in 0..2 {
        let device = devices[end];
        let address = talks[end].shown_address();
        let count = Counted(counts[end], word);
        let _ = eprintln!(rt; "af: device {device} of {address} has {count}{per}");
    }
}

// Tells which of the devices does not exist, the first one first.
fn tell_missing(rt: &impl Eprint, job: &PassJob, from: &Talk, to: &Talk) {
    if usize::from(job.from_device) < from.devices.len() {
        tell_no_device(rt, to, job.to_device);
    } else {
        tell_no_device(rt, from, job.from_device);
    }
}

/// Tells how a relay that goes on stands: its blocks, the frames by which it followed the clock, and the delay of the last block.
pub fn tell_minute(rt: &impl Eprint, talk: &Talk) {
    let passage = talk.passage;
    let blocks = Counted(passage.blocks, "block");
    let doubled = Counted(passage.doubled, "frame");
    let left_out = Counted(passage.left_out, "frame");
    let resynced = Counted(passage.resynced, "time");
    let ahead = passage.ahead;
    let _ = eprintln!(rt;
        "af: passed {blocks}, played {doubled} twice, left {left_out} out, resynchronised {resynced}; {ahead} frames ahead"
    );
}

/// Tells how many blocks were passed, how often the relay resynchronised, and what was lost.
pub fn tell_passed(rt: &impl Eprint, job: &PassJob, from: &Talk, to: &Talk) {
    let passed = Counted(to.passage.blocks, "block");
    let last = to.passage.last;
    match to.passage.resynced {
        0 => {
            let _ = eprintln!(rt; "af: passed {passed}, never resynchronised");
        }
        resynced => {
            let resynced = Counted(resynced, "time");
            let _ = eprintln!(rt;
                "af: passed {passed}, resynchronised {resynced}, the last time at block {last}"
            );
        }
    }
    if job.follow {
        let doubled = Counted(to.passage.doubled, "frame");
        let left_out = Counted(to.passage.left_out, "frame");
        let _ = eprintln!(rt;
            "af: played {doubled} twice to follow the clock, left {left_out} out"
        );
    }
    if to.late.frames > 0 {
        let enough = to.enough_millis(job.to_device, job.delay, LONGEST_DELAY);
        tell_late(rt, to.late);
        tell_greater(rt, "delay", job.delay, enough);
    }
    if from.gone.frames > 0 {
        let gone = from.gone;
        let _ = eprintln!(rt;
            "af: {gone} had left the server before they were asked for: silence was passed in their place"
        );
    }
}
