// aplay: what a source gives is played, and what was played is written to the sink.
ghost use Rattle.std.specs.Prelude.{ℕ, List, ◌≡◌, ◌≤◌, ◌⊎◌, ◌-◌, true, length, IfErr, IfOk, IsErrOf, Ok};
ghost use Rattle.std.specs.declared.option.Option.TheVariants.{None, Some};
ghost use Rattle.af_time.specs.DeviceTime.{frames_lasting};
ghost use Rattle.af_io.specs.Observed.{CountsFault};
ghost use Rattle.af_sample.specs.Channels.{IsChannelCount};
ghost use Rattle.af_lib.specs.Calls.{as_done, device_channels};
ghost use Rattle.af_toolkit.specs.Talk.{creates};
ghost use Rattle.af_toolkit.specs.Trace.{answer_on};
ghost use Rattle.af_toolkit.specs.Ends.{client_of, is_of_link, KeepsConnection};
ghost use Rattle.af_toolkit.specs.ToolParts.{asks, GoesOver};
ghost use Rattle.af_tools.specs.Play.{job_pace, play_context, played_frames, plays_on, start_at, IsBlock};
ghost use Rattle.af_tools.specs.Reading.{GivesContext, GoesReading, TakesSound, UsesSource, is_of_blocks, is_of_tool, LacksDevice, RunsAplay};
ghost use Rattle.af_tools.specs.Sounds.{most_bytes, IsServedAs};
ghost use Rattle.af_tools.specs.Steps.{PlaysInStep, RunsInStep};
ghost use Rattle.af_cli.specs.Sizes.{greatest_block};

use crate::leave::{last_frame, leave};
use crate::pace::{Pace, ahead_frames, paced_block};
use crate::play::{Playback, play_blocks, read_early, read_first};
use crate::report::report;
use crate::sound::{SourceSound, sound_of};
use af_cli::{PlayJob, block_frames};
use af_io::{Link, Sink, Source};
use af_lib::Conn;
use af_request::DeviceInfo;
use af_sample::{Gain, SampleType};
use af_time::DevTime;
use af_toolkit::{ToolContext, ToolEnd, device_time, device_with, make_context, time_after_frames};

/// How many frames were played, and from when on.
#[derive(Clone, Copy)]
pub struct Played {
    pub frames: u64,
    pub start: DevTime,
    /// Whether some came too late to be heard.
    pub late: bool,
}

// The time from which a job plays, if the device's time is now.
fn start_of(job: &PlayJob, now: DevTime, rate: u32) -> DevTime
    ensures { result.0 ≡ start_at job.now.time now.0 (frames_lasting rate job.now.lead) }
{
    match job.time {
        Some(time) => DevTime(time),
        None => time_after_frames(now, u64::from(rate) * u64::from(job.lead) / 1000),
    }
}

// When the blocks of a job are sent, on a device of this rate, if the device's time is now.
fn pace_of(job: &PlayJob, rate: u32, sound: SourceSound, now: DevTime) -> Pace
    ensures { result ≡ job_pace job.now rate sound.ty sound.channels now }
{
    Pace {
        start: start_of(job, now, rate),
        ahead: ahead_frames(job, rate),
        frame: sound.ty.frame_bytes(sound.channels),
    }
}

// The context of a job for samples of a type.
fn context_of(job: &PlayJob, ty: SampleType) -> ToolContext
    ensures asked { (channels : ℕ) → creates channels result ≡ play_context job.now ty channels }
    ensures device { result.device ≡ job.now.device }
{
    ToolContext {
        device: job.device,
        ty,
        play: job.gain,
        record_by: Gain::default(),
        preempt: job.preempt,
    }
}

// Makes the context of a job for a sound.
fn make_play_context<L: Link + Drop>(
    job: &PlayJob,
    sound: SourceSound,
    conn: &mut Conn<L>,
) -> Result<(), ToolEnd>
    requires usable { conn.old.cause ≡ None }
    requires channels { device_channels conn.old.devices job.now.device ≡ sound.channels }
    ensures goes { GoesOver L.left L.sent conn.old conn.new
        (asks (play_context job.now sound.ty sound.channels) as_done) result }
    ensures made { IfOk result (λ _. (input : List ℕ) → L.left conn.old.link ≡ Some input →
        answer_on (play_context job.now sound.ty sound.channels) as_done (client_of conn.old input) ≡ Ok tt) }
    ensures holds { KeepsConnection L.left L.faults conn.old conn.new result }
    ensures end { IfErr result (λ how. is_of_link how ≡ true) }
{
    make_context(conn, context_of(job, sound.ty))
}

// The frames of a block of a job, on a device of this rate.
fn block_of(job: &PlayJob, rate: u32, sound: SourceSound) -> u32
    requires begun { 1 ≤ job.now.block }
    requires count { IsChannelCount sound.channels }
    ensures value { result ≡ played_frames job.now rate sound.ty sound.channels }
    ensures block { IsBlock sound.ty sound.channels result }
{
    let frame = sound.ty.frame_bytes(sound.channels);
    block_frames(paced_block(ahead_frames(job, rate), job.block), frame)
}

// A job, and what its source gives to be played on its device.
#[derive(Clone, Copy)]
struct Plan {
    job: PlayJob,
    device: DeviceInfo,
    sound: SourceSound,
}

// Plays the sound of a source on a device.
fn play_on<L: Link + Drop, S: Source>(
    plan: Plan,
    conn: &mut Conn<L>,
    source: &mut S,
    room: &mut [u8],
) -> Result<Played, ToolEnd>
    requires usable { conn.old.cause ≡ None }
    requires block { 1 ≤ plan.job.block }
    requires sound { IsServedAs plan.sound.coding plan.sound.ty × (plan.sound.head ≤ most_bytes) }
    requires channels { device_channels conn.old.devices plan.job.device ≡ plan.sound.channels }
    requires count { IsChannelCount plan.sound.channels }
    requires room { greatest_block ≤ length room.old }
    ensures goes { GoesReading L.left L.sent S.left conn.old conn.new source.old source.new
        (λ bytes. plays_on plan.job plan.sound plan.device bytes) result }
    ensures takes { TakesSound plan.sound.length (most_bytes - plan.sound.head) result (S.left source.old) (S.left source.new) }
    ensures unread { (source.new ≡ source.old) ⊎ ((input : List ℕ) → L.left conn.old.link ≡ Some input →
        answer_on (play_context plan.job plan.sound.ty plan.sound.channels) as_done (client_of conn.old input) ≡ Ok tt) }
    ensures step { (input : List ℕ) → L.left conn.old.link ≡ Some input → PlaysInStep plan.job plan.sound plan.device
        (client_of conn.old input) (IsErrOf result ToolEnd.ReadFault) (S.left source.old) (S.left source.new)
        (L.sent conn.old.link) (L.sent conn.new.link) }
    ensures holds { KeepsConnection L.left L.faults conn.old conn.new result }
    ensures end { IfErr result (λ how. is_of_blocks how ≡ true) }
    ensures fault { CountsFault (IsErrOf result ToolEnd.ReadFault) (S.faults source.old) (S.faults source.new) }
{
    let Plan { job, device, sound } = plan;
    make_play_context(&job, sound, conn)?;
    let block = block_of(&job, device.rate, sound);
    // The time is asked for once there is something to play, so a source that is slow to begin costs no lead.
    let early = read_early(source, sound, block, room)?;
    let now = device_time(conn, job.device)?;
    let pace = pace_of(&job, device.rate, sound, now);
    let first = read_first(source, sound, block, early, room)?;
    let playback = Playback {
        sound,
        block,
        pace,
        told: now,
    };
    let course = play_blocks(conn, source, playback, first, room)?;
    let last = last_frame(job.drain, pace.start, course.frames);
    leave(conn, last, pace.frame)?;
    Ok(Played {
        frames: course.frames,
        start: pace.start,
        late: course.late,
    })
}

/// Plays what a source gives on a device, in blocks, and then writes how many frames were played and from when on. A sound file
/// is to have the rate and the channels of the device. Where the job is strict, the end says if frames were late. The connection
/// is one that was just made; room for 16000 bytes is handed in.
pub fn aplay<L: Link + Drop, S: Source, K: Sink>(
    job: &PlayJob,
    conn: &mut Conn<L>,
    source: &mut S,
    sink: &mut K,
    room: &mut [u8],
) -> ToolEnd
    requires usable { conn.old.cause ≡ None }
    requires block { (1 ≤ job.now.block) × (job.now.block ≤ 4000) }
    requires room { greatest_block ≤ length room.old }

    // what was sent, written and heard, and when it is done
    ensures ran { RunsAplay L.left L.sent S.left K.held job.now result conn.old conn.new source.old source.new sink.old sink.new }

    // in what order it read and sent
    ensures step { RunsInStep L.left L.sent S.left job.now result conn.old conn.new source.old source.new }

    // each end has its cause
    ensures end { is_of_tool true job.now.strict result ≡ true }
    ensures no_device { LacksDevice job.now.device conn.old.devices result }
    ensures source { UsesSource S.left S.faults true job.now.form result source.old source.new }
    ensures unread { job.now.form ≡ None → (source.new ≡ source.old) ⊎ ((input : List ℕ) →
        L.left conn.old.link ≡ Some input → GivesContext job.now conn.old.devices (client_of conn.old input)) }
    ensures link { CountsFault (result ≡ ToolEnd.LinkFault) (L.faults conn.old.link) (L.faults conn.new.link) }
    ensures sink { CountsFault (result ≡ ToolEnd.SinkFault) (K.faults sink.old) (K.faults sink.new) }
{
    let device = match device_with(conn, job.device) {
        Ok(device) => device,
        Err(missing) => return missing,
    };
    let sound = match sound_of(job, device, source) {
        Ok(sound) => sound,
        Err(end) => return end,
    };
    let plan = Plan {
        job: *job,
        device,
        sound,
    };
    match play_on(plan, conn, source, room) {
        Ok(played) => report(sink, played, job.strict),
        Err(end) => end,
    }
}
