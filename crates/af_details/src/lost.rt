// Frames that were lost.
ghost use Rattle.std.specs.Prelude.{◌≡◌, ◌≤◌, ◌*◌, ◌^◌};

use crate::counted::Counted;
use af_time::DevTime;
use af_toolkit::periods_before;
use std::fmt;
use std::fmt::{Formatter, Write};

/// How many frames were lost, and in how many blocks. Both counts stand still at 2^64 - 1.
#[derive(Clone, Copy, Debug, PartialEq, Eq)]
pub struct Lost {
    pub frames: u64,
    pub blocks: u64,
    /// How many sample periods too late the latest of these blocks began.
    pub latest: u32,
}

impl Lost {
    /// None so far.
    pub fn new() -> Lost
        ensures frames { result.frames ≡ 0 }
        ensures blocks { result.blocks ≡ 0 }
    {
        Lost {
            frames: 0,
            blocks: 0,
            latest: 0,
        }
    }

    /// A block of so many frames from a start on, of which those before another time are lost.
    pub fn note(&mut self, start: DevTime, frames: u32, time: DevTime)
        ensures none { frames ≡ 0 → self.new ≡ self.old }
    {
        let before = periods_before(start, time);
        let lost = frames.min(before);
        if lost > 0 {
            self.frames = self.frames.saturating_add(u64::from(lost));
            self.blocks = self.blocks.saturating_add(1);
            self.latest = self.latest.max(before);
        }
    }
}

impl fmt::Display for Lost {
    fn fmt<W: Write>(&self, f: &mut Formatter<W>) -> fmt::Result {
        let frames = Counted(self.frames, "frame");
        let blocks = Counted(self.blocks, "block");
        write!(f, "{frames} in {blocks}")
    }
}

/// Tells that frames were lost since they came too late.
pub fn tell_late(rt: &impl Eprint, late: Lost) {
    let _ = eprintln!(rt; "af: {late} came too late to be heard");
}

/// Tells that a greater value of an option helps against that, and which one would have been enough.
pub fn tell_greater(rt: &impl Eprint, option: &str, millis: u32, enough: Option<u64>) {
    let was = Counted(u64::from(millis), "millisecond");
    match enough {
        Some(enough) => {
            let _ = eprintln!(rt;
                "af: a greater --{option} helps; it was {was}, and {enough} would have been enough"
            );
        }
        None => {
            let _ = eprintln!(rt; "af: a greater --{option} helps; it was {was}");
        }
    }
}

/// How many milliseconds so many frames last at this rate, rounded up.
pub fn millis_lasting(frames: u32, rate: u32) -> u64
    ensures { result ≤ 2 ^ 32 * 1000 }
{
    (u64::from(frames) * 1000).div_ceil(u64::from(rate.max(1)))
}
