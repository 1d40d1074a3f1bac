// Blocks that are played one after another, and where their times jump.
use af_time::DevTime;

/// How many blocks were played, how often the time of one did not follow on the one before it, and the number of the block at
/// which that happened last, the first block being 1. How many blocks had a frame more than the first, and a frame less; how far
/// ahead of the time that was told before it the last one was played. All counts stand still at 2^64 - 1.
#[derive(Clone, Copy, Debug, PartialEq, Eq)]
pub struct Passage {
    pub blocks: u64,
    pub resynced: u64,
    pub last: u64,
    pub doubled: u64,
    pub left_out: u64,
    pub ahead: i32,
    sent: u64,
    due: Option<DevTime>,
    block: Option<u32>,
    now: DevTime,
    minutes: u64,
}

impl Passage {
    /// No block was played.
    pub fn new() -> Passage {
        Passage {
            blocks: 0,
            resynced: 0,
            last: 0,
            doubled: 0,
            left_out: 0,
            ahead: 0,
            sent: 0,
            due: None,
            block: None,
            now: DevTime(0),
            minutes: 0,
        }
    }

    /// A block of so many frames is sent, to be played at a time.
    pub fn note_sent(&mut self, time: DevTime, frames: u32) {
        self.sent = self.sent.saturating_add(1);
        if let Some(due) = self.due
            && due != time
        {
            self.resynced = self.resynced.saturating_add(1);
            self.last = self.sent;
        }
        self.due = Some(time.after(frames));
        self.ahead = time.diff(self.now);
        match self.block {
            None => self.block = Some(frames),
            Some(block) if frames > block => self.doubled = self.doubled.saturating_add(1),
            Some(block) if frames < block => self.left_out = self.left_out.saturating_add(1),
            Some(_) => {}
        }
    }

    /// The server told its time.
    pub fn note_time(&mut self, now: DevTime) {
        self.now = now;
    }

    /// Whether the blocks that were taken fill more minutes than when this was asked last, by the frames of the first.
    pub fn completes_minute(&mut self, rate: u32) -> bool {
        let (Some(block), true) = (self.block, rate > 0) else {
            return false;
        };
        let frames = self.blocks.saturating_mul(u64::from(block));
        let minutes = frames / (u64::from(rate) * 60);
        if minutes > self.minutes {
            self.minutes = minutes;
            true
        } else {
            false
        }
    }

    /// The block that was sent last was taken.
    pub fn note_taken(&mut self) {
        self.blocks = self.blocks.saturating_add(1);
    }
}
