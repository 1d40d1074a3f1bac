// apass: blocks are recorded on one server and played on another, and how that went is written to the sink.
ghost use Rattle.std.specs.Prelude.{◌≡◌, ◌<◌, ◌≤◌, ◌^◌, true, length, take, IfErr, IfOk};
ghost use Rattle.std.specs.declared.option.Option.TheVariants.{None};
ghost use Rattle.af_io.specs.Observed.{CountsFault};
ghost use Rattle.af_sample.specs.Channels.{IsChannelCount};
ghost use Rattle.af_request.specs.Replies.{IsDeviceInfo};
ghost use Rattle.af_lib.specs.Calls.{device_channels};
ghost use Rattle.af_toolkit.specs.Parts.{end_among};
ghost use Rattle.af_toolkit.specs.Trace.{tool_end};
ghost use Rattle.af_toolkit.specs.Ends.{is_of_link, is_of_report, Reports};
ghost use Rattle.af_relay.specs.RelayParts.{CountsEither, GoesBetween, IsPace, KeepsConnections};
ghost use Rattle.af_relay.specs.Pair.{is_of_pass, pair_of, EndsByPair};
ghost use Rattle.af_relay.specs.Relayed.{RunsBetween};
ghost use Rattle.af_cli.specs.Ranges.{IsPaced};
ghost use Rattle.af_relay.specs.Pass.{begins_both, block_count, ends_contexts, pace_of, passes_between, passed_text};
ghost use Rattle.af_sample.specs.SampleTypes.{frame_bytes};
ghost use Rattle.af_cli.specs.Sizes.{greatest_play};

use crate::pass::{RelayPace, RelayPlan, block_count, pass_blocks};
use af_cli::{PassJob, block_frames};
use af_io::{Link, Sink};
use af_lib::Conn;
use af_request::DeviceInfo;
use af_sample::{Gain, SampleType};
use af_time::DevTime;
use af_toolkit::{CONTEXT, ToolEnd, device_with, put, put_number, write_text};

// The pace of a job, by the type of the samples, the channels and the rate.
fn pace_of(job: &PassJob, ty: SampleType, channels: u8, rate: u32) -> RelayPace
    requires range { IsPaced job.now }
    requires count { IsChannelCount channels }
    ensures value { result ≡ pace_of job.now (frame_bytes ty channels) rate }
    ensures pace { IsPace result }
{
    let frame = ty.frame_bytes(channels);
    let frames = block_frames(job.block, frame);
    RelayPace {
        frames,
        frame,
        size: frames as usize * frame,
        delay: u64::from(rate) * u64::from(job.delay) / 1000,
        slack: u64::from(rate) * u64::from(job.slack) / 1000,
        follow: job.follow,
    }
}

// Creates both contexts, and asks for the time of the device that is recorded.
fn begin_both<L: Link + Drop, M: Link + Drop>(
    job: &PassJob,
    ty: SampleType,
    from: &mut Conn<L>,
    to: &mut Conn<M>,
) -> Result<DevTime, ToolEnd>
    requires usable { (from.old.cause ≡ None) × (to.old.cause ≡ None) }
    ensures goes { GoesBetween L.left L.sent M.left M.sent from.old from.new to.old to.new
        (begins_both job.now ty (device_channels from.old.devices job.now.from_device)
        (device_channels to.old.devices job.now.to_device)) result }
    ensures holds { KeepsConnections L.left L.faults M.left M.faults from.old from.new to.old to.new result }
    ensures end { IfErr result (λ how. is_of_link how ≡ true) }
{
    let none = Gain::default();
    from.create_ac(CONTEXT, job.from_device, ty, none, job.gain, false)?;
    to.create_ac(CONTEXT, job.to_device, ty, none, none, false)?;
    Ok(from.get_time(job.from_device)?)
}

// Frees both contexts.
fn finish_both<L: Link + Drop, M: Link + Drop>(
    from: &mut Conn<L>,
    to: &mut Conn<M>,
) -> Result<(), ToolEnd>
    requires usable { (from.old.cause ≡ None) × (to.old.cause ≡ None) }
    ensures goes { GoesBetween L.left L.sent M.left M.sent from.old from.new to.old to.new ends_contexts result }
    ensures holds { KeepsConnections L.left L.faults M.left M.faults from.old from.new to.old to.new result }
    ensures end { IfErr result (λ how. is_of_link how ≡ true) }
{
    from.free_ac(CONTEXT)?;
    to.free_ac(CONTEXT)?;
    Ok(())
}

// Passes all blocks of a job between two devices of one rate and as many channels. The answer is how often the relay fell in step
// again.
fn pass_between<L: Link + Drop, M: Link + Drop>(
    job: &PassJob,
    device: DeviceInfo,
    from: &mut Conn<L>,
    to: &mut Conn<M>,
    room: &mut [u8],
) -> Result<u64, ToolEnd>
    requires usable { (from.old.cause ≡ None) × (to.old.cause ≡ None) }
    requires range { IsPaced job.now }
    requires alike { (device_channels from.old.devices job.now.from_device ≡ device.channels)
        × (device_channels to.old.devices job.now.to_device ≡ device.channels) }
    requires count { IsChannelCount device.channels }
    requires room { greatest_play ≤ length room.old }
    ensures goes { GoesBetween L.left L.sent M.left M.sent from.old from.new to.old to.new
        (passes_between job.now device) result }
    ensures holds { KeepsConnections L.left L.faults M.left M.faults from.old from.new to.old to.new result }
    ensures end { IfErr result (λ how. is_of_link how ≡ true) }
{
    let ty = job.ty.unwrap_or(device.ty);
    let pace = pace_of(job, ty, device.channels, device.rate);
    let start = begin_both(job, ty, from, to)?;
    let room = &mut room[..pace.size + pace.frame];
    let plan = RelayPlan { job: *job, pace };
    let passed = pass_blocks(&plan, start, from, to, room)?;
    finish_both(from, to)?;
    Ok(passed.resynced)
}

// Writes the line into a buffer, and answers its length.
fn write_line(out: &mut [u8], blocks: u64, resynced: u64) -> usize
    requires { 128 ≤ length out.old }
    ensures within { result ≤ length out.new }
    ensures some { 0 < result }
    ensures bytes { take result out.new ≡ passed_text blocks resynced }
{
    let at = put(out, 0, b"passed ");
    let at = put_number(out, at, blocks);
    let at = put(out, at, b" resynced ");
    let at = put_number(out, at, resynced);
    put(out, at, b"\n")
}

// Writes how many blocks were passed, and how often the relay fell in step again.
fn report<K: Sink>(sink: &mut K, blocks: u64, resynced: u64) -> ToolEnd
    ensures followed { Reports K.held (passed_text blocks resynced) result sink.old sink.new }
    ensures end { is_of_report result ≡ true }
    ensures fault { CountsFault (result ≡ ToolEnd.SinkFault) (K.faults sink.old) (K.faults sink.new) }
{
    let mut line = [0; 128];
    let length = write_line(&mut line, blocks, resynced);
    write_text(sink, &line[..length])
}

// The device that is recorded, if both exist and have one rate and as many channels.
fn pair_of<L: Link + Drop, M: Link + Drop>(
    job: &PassJob,
    from: &Conn<L>,
    to: &Conn<M>,
) -> Result<DeviceInfo, ToolEnd>
    ensures value { result ≡ end_among tool_end (pair_of from.now.devices job.now.from_device to.now.devices job.now.to_device) }
    ensures stated { IfOk result (λ device. IsDeviceInfo device) }
{
    let recorded = device_with(from, job.from_device)?;
    let played = device_with(to, job.to_device)?;
    if recorded.rate != played.rate {
        return Err(ToolEnd::RateMismatch {
            from: recorded.rate,
            to: played.rate,
        });
    }
    if recorded.channels != played.channels {
        return Err(ToolEnd::ChannelMismatch {
            from: recorded.channels,
            to: played.channels,
        });
    }
    Ok(recorded)
}

/// Passes blocks from a device of one server to a device of another that has the same rate and as many channels: each block is
/// recorded, and played ahead of the other server's time by the delay. If the two clocks drift apart by more than the slack, the
/// relay resynchronises. One that follows the clock plays the last frame of a block twice or not at all before that. At the end
/// it writes how many blocks were passed, and how often it resynchronised. The connections are ones that were just made, and the
/// room has the bytes of the greatest play.
pub fn apass<L: Link + Drop, M: Link + Drop, K: Sink>(
    job: &PassJob,
    from: &mut Conn<L>,
    to: &mut Conn<M>,
    sink: &mut K,
    room: &mut [u8],
) -> ToolEnd
    requires usable { (from.old.cause ≡ None) × (to.old.cause ≡ None) }
    requires range { IsPaced job.now }
    requires room { greatest_play ≤ length room.old }

    // what was sent, played and written, and when it is done
    ensures ran { RunsBetween L.left L.sent M.left M.sent K.held job.now result
        from.old from.new to.old to.new sink.old sink.new }

    // each end has its cause
    ensures end { is_of_pass result ≡ true }
    ensures apart { EndsByPair
        (pair_of from.old.devices job.now.from_device to.old.devices job.now.to_device) result }
    ensures link { CountsEither (result ≡ ToolEnd.LinkFault)
        (L.faults from.old.link) (L.faults from.new.link) (M.faults to.old.link) (M.faults to.new.link) }
    ensures sink { CountsFault (result ≡ ToolEnd.SinkFault) (K.faults sink.old) (K.faults sink.new) }
{
    let device = match pair_of(job, from, to) {
        Ok(device) => device,
        Err(end) => return end,
    };
    match pass_between(job, device, from, to, room) {
        Ok(resynced) => report(sink, block_count(job.blocks), resynced),
        Err(end) => end,
    }
}
