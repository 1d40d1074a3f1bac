// Block after block is recorded on one server, and played on another.
ghost use Rattle.std.specs.Prelude.{◌≡◌, ◌<◌, ◌≤◌, ◌+◌, ◌-◌, ◌^◌, true, length, take, IfErr, IfOk};
ghost use Rattle.std.specs.declared.option.Option.TheVariants.{None};
ghost use Rattle.af_toolkit.specs.Ends.{is_of_link};
ghost use Rattle.af_relay.specs.Pass.{after_block, block_count, frames_played, gap_of, in_step, last_frame_of, moment_of, no_progress, passes, passes_block, played_samples};
ghost use Rattle.af_relay.specs.RelayParts.{GoesBetween, IsPace, KeepsConnections};

use af_cli::PassJob;
use af_io::Link;
use af_lib::Conn;
use af_time::DevTime;
use af_toolkit::{CONTEXT, ToolEnd, time_after_frames};

/// The pace of a relay: the frames of a block, and the bytes of a frame and of a block. In frames, how far ahead of the other
/// server's time it plays, and by how much it may drift from that. Whether it follows that server's clock.
#[derive(Clone, Copy)]
pub struct RelayPace {
    pub frames: u32,
    pub frame: usize,
    pub size: usize,
    pub delay: u64,
    pub slack: u64,
    pub follow: bool,
}

/// What a relay keeps to: its job, and its pace at the rate of its devices.
#[derive(Clone, Copy)]
pub struct RelayPlan {
    pub job: PassJob,
    pub pace: RelayPace,
}

/// How often the last frame of a block is played.
#[derive(Clone, Copy, Debug, PartialEq, Eq)]
pub enum LastFrame {
    /// As it was recorded.
    Once,
    /// The block is a frame longer.
    Twice,
    /// The block is a frame shorter.
    LeftOut,
}

/// When a block is played, whether the relay fell in step again for it, and how often its last frame is played.
#[derive(Clone, Copy)]
pub struct PlayMoment {
    pub time: DevTime,
    pub resynced: bool,
    pub last: LastFrame,
}

/// How far a relay has come: when the next block is recorded, when it is due to be played where one was played before, and how
/// often the relay fell in step again.
#[derive(Clone, Copy)]
pub struct RelayProgress {
    pub at: DevTime,
    pub due: Option<DevTime>,
    pub resynced: u64,
}

/// How many blocks a relay passes. One that is to go on until a link ends has more to pass than its clocks have time for.
pub fn block_count(blocks: Option<u32>) -> u64
    ensures { result ≡ block_count blocks }
{
    match blocks {
        Some(blocks) => u64::from(blocks),
        None => u64::MAX,
    }
}

// How many frames a block that is due then is due after its place, the delay ahead of now; below 0 if before it.
fn gap_of(due: DevTime, now: DevTime, delay: u64) -> i64
    requires { delay < 2 ^ 40 }
    ensures { result ≡ gap_of due now delay }
{
    i64::from(due.diff(now)) - delay as i64
}

// What becomes of the last frame of a block that has not drifted, by how many frames it is due after its place.
fn last_frame_of(pace: &RelayPace, gap: i64) -> LastFrame
    ensures { result ≡ last_frame_of pace.now gap }
{
    if pace.follow && gap < -1 {
        LastFrame::Twice
    } else if pace.follow && gap > 1 && pace.frames > 1 {
        LastFrame::LeftOut
    } else {
        LastFrame::Once
    }
}

// How many frames of a block are played.
fn frames_played(last: LastFrame, frames: u32) -> u32
    requires { frames ≤ 4000 }
    ensures { result ≡ frames_played last frames }
{
    match last {
        LastFrame::Once => frames,
        LastFrame::Twice => frames + 1,
        LastFrame::LeftOut => frames.saturating_sub(1),
    }
}

// Lays a block out as it is played, in room for one frame more: how many bytes that are.
fn lay_out(room: &mut [u8], pace: &RelayPace, last: LastFrame) -> usize
    requires room { length room.old ≡ pace.now.size + pace.now.frame }
    requires some { pace.now.frame ≤ pace.now.size }
    ensures bytes { take result room.new ≡ played_samples last pace.now.frame (take pace.now.size room.old) }
    ensures within { result ≤ length room.new }
    ensures size { length room.new ≡ length room.old }
{
    match last {
        LastFrame::Once => pace.size,
        LastFrame::Twice => {
            let (block, again) = room.split_at_mut(pace.size);
            again.copy_from_slice(&block[pace.size - pace.frame..]);
            pace.size + pace.frame
        }
        LastFrame::LeftOut => pace.size - pace.frame,
    }
}

// A block that is played exactly the delay ahead of the other server's time.
fn in_step(now: DevTime, delay: u64, resynced: bool) -> PlayMoment
    ensures { result ≡ in_step now delay resynced }
{
    PlayMoment {
        time: time_after_frames(now, delay),
        resynced,
        last: LastFrame::Once,
    }
}

// When a block is played, at the other server's time, and how.
fn moment_of(pace: &RelayPace, due: Option<DevTime>, now: DevTime) -> PlayMoment
    requires { pace.now.delay < 2 ^ 40 }
    ensures { result ≡ moment_of pace.now due now }
{
    let Some(due) = due else {
        return in_step(now, pace.delay, false);
    };
    let gap = gap_of(due, now, pace.delay);
    if gap.unsigned_abs() > pace.slack {
        in_step(now, pace.delay, true)
    } else {
        PlayMoment {
            time: due,
            resynced: false,
            last: last_frame_of(pace, gap),
        }
    }
}

// How far a relay has come after one more block of n frames.
fn after_block(passed: RelayProgress, place: PlayMoment, frames: u32) -> RelayProgress
    requires frames { frames ≤ 4000 }
    requires few { passed.resynced + 1 < 2 ^ 64 }
    ensures value { result ≡ after_block passed place frames }
    ensures few { result.resynced ≤ passed.resynced + 1 }
{
    RelayProgress {
        at: passed.at.after(frames),
        due: Some(place.time.after(frames_played(place.last, frames))),
        resynced: passed.resynced + u64::from(place.resynced),
    }
}

// Records a block on the one server, and plays it on the other.
fn pass_block<L: Link + Drop, M: Link + Drop>(
    plan: &RelayPlan,
    passed: RelayProgress,
    from: &mut Conn<L>,
    to: &mut Conn<M>,
    room: &mut [u8],
) -> Result<RelayProgress, ToolEnd>
    requires usable { (from.old.cause ≡ None) × (to.old.cause ≡ None) }
    requires pace { IsPace plan.now.pace }
    requires room { length room.old ≡ plan.now.pace.size + plan.now.pace.frame }
    requires few { passed.resynced + 1 < 2 ^ 64 }
    ensures goes { GoesBetween L.left L.sent M.left M.sent from.old from.new to.old to.new
        (passes_block plan.now.job plan.now.pace passed) result }
    ensures holds { KeepsConnections L.left L.faults M.left M.faults from.old from.new to.old to.new result }
    ensures end { IfErr result (λ how. is_of_link how ≡ true) }
    ensures few { IfOk result (λ p. p.resynced ≤ passed.resynced + 1) }
    ensures size { length room.new ≡ length room.old }
{
    from.record_run(CONTEXT, passed.at, true, &mut room[..plan.pace.size])?;
    let now = to.get_time(plan.job.to_device)?;
    let place = moment_of(&plan.pace, passed.due, now);
    let played = lay_out(room, &plan.pace, place.last);
    to.play_run(CONTEXT, place.time, &room[..played])?;
    Ok(after_block(passed, place, plan.pace.frames))
}

/// Passes all blocks of a job, the first of them recorded from a time on.
pub fn pass_blocks<L: Link + Drop, M: Link + Drop>(
    plan: &RelayPlan,
    start: DevTime,
    from: &mut Conn<L>,
    to: &mut Conn<M>,
    room: &mut [u8],
) -> Result<RelayProgress, ToolEnd>
    requires usable { (from.old.cause ≡ None) × (to.old.cause ≡ None) }
    requires pace { IsPace plan.now.pace }
    requires room { length room.old ≡ plan.now.pace.size + plan.now.pace.frame }
    ensures goes { GoesBetween L.left L.sent M.left M.sent from.old from.new to.old to.new
        (passes (block_count plan.now.job.blocks) plan.now.job plan.now.pace (no_progress start)) result }
    ensures holds { KeepsConnections L.left L.faults M.left M.faults from.old from.new to.old to.new result }
    ensures end { IfErr result (λ how. is_of_link how ≡ true) }
{
    let mut passed = RelayProgress {
        at: start,
        due: None,
        resynced: 0,
    };
    let mut left = block_count(plan.job.blocks);
    while left > 0 {
        passed = pass_block(plan, passed, from, to, room)?;
        left -= 1;
    }
    Ok(passed)
}
