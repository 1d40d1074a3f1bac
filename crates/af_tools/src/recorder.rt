// arecord: blocks are recorded and written to the sink.
ghost use Rattle.std.specs.Prelude.{◌≡◌, ◌≤◌, ◌⊎◌, ℕ, List, [], true, false, length, unwrap_or, Err, IfErr, IsOk};
ghost use Rattle.std.specs.declared.option.Option.TheVariants.{None, Some};
ghost use Rattle.af_io.specs.Observed.{CountsFault};
ghost use Rattle.af_request.specs.Replies.{IsDeviceInfo};
ghost use Rattle.af_lib.specs.Calls.{device_channels};
ghost use Rattle.af_toolkit.specs.Talk.{creates};
ghost use Rattle.af_toolkit.specs.Ends.{client_of, is_of_link_or_sink, KeepsConnection};
ghost use Rattle.af_toolkit.specs.ToolParts.{GoesWriting};
ghost use Rattle.af_tools.specs.Record.{arecord_trace, record_context, records_on, writes_recording, LeavesRecording};
ghost use Rattle.af_tools.specs.RecordSteps.{RecordsInStep, RunsWriting, WritesInStep, job_lengths, writes_blocks};
ghost use Rattle.af_tools.specs.Reading.{is_of_tool, LacksDevice, RunsTool};
ghost use Rattle.af_cli.specs.Sizes.{greatest_block};

use crate::file::{recorded_sound, write_front, write_pad};
use crate::record::{Recording, record_blocks};
use af_cli::RecordJob;
use af_io::{Link, Sink};
use af_lib::Conn;
use af_request::DeviceInfo;
use af_sample::Gain;
use af_time::DevTime;
use af_toolkit::{ToolContext, ToolEnd, begin, device_with, end_by, finish};

// The time from which a job records, if the device's time is now.
fn start_of(job: &RecordJob, now: DevTime) -> DevTime
    ensures { result.0 ≡ unwrap_or job.now.time now.0 }
{
    match job.time {
        Some(time) => DevTime(time),
        None => now,
    }
}

// The context of a job on a device.
fn context_of(job: &RecordJob, device: DeviceInfo) -> ToolContext
    ensures asked { creates device.channels result ≡ record_context job.now device }
    ensures device { result.device ≡ job.now.device }
{
    ToolContext {
        device: job.device,
        ty: recorded_sound(job, device).ty,
        play: Gain::default(),
        record_by: job.gain,
        preempt: false,
    }
}

// Records a device from a start on, and writes samples or a sound file.
fn write_recording<L: Link + Drop, K: Sink>(
    job: &RecordJob,
    device: DeviceInfo,
    start: DevTime,
    conn: &mut Conn<L>,
    sink: &mut K,
    room: &mut [u8],
) -> Result<Recording, ToolEnd>
    requires usable { conn.old.cause ≡ None }
    requires shape { IsDeviceInfo device }
    requires block { (1 ≤ job.now.block) × (job.now.block ≤ 4000) }
    requires stop { (1 ≤ job.now.stop_blocks) × (job.now.stop_blocks ≤ 1000000) }
    requires room { greatest_block ≤ length room.old }
    ensures goes { GoesWriting L.left L.sent K.held conn.old conn.new sink.old sink.new
        (writes_recording job.now device start.0) result }
    ensures step { (input : List ℕ) → L.left conn.old.link ≡ Some input →
        ((IsOk result → ⊥) × (L.sent conn.new.link ≡ L.sent conn.old.link))
        ⊎ ((steps : WritesInStep (job_lengths job.now device) (writes_blocks job.now device start.0) (client_of conn.old input)
        (result ≡ Err ToolEnd.SinkFault) (L.sent conn.old.link) (L.sent conn.new.link) (K.held sink.old) (K.held sink.new))
        × (IsOk result → steps.asked ≡ [])) }
    ensures holds { KeepsConnection L.left L.faults conn.old conn.new result }
    ensures end { IfErr result (λ how. is_of_link_or_sink how ≡ true) }
    ensures fault { CountsFault (result ≡ Err ToolEnd.SinkFault) (K.faults sink.old) (K.faults sink.new) }
{
    let sound = recorded_sound(job, device);
    write_front(sink, job, device)?;
    let recording = record_blocks(job, sound, start, conn, sink, room)?;
    let size = u64::from(recording.frames) * sound.frame_bytes() as u64;
    write_pad(sink, job.form, size)?;
    Ok(recording)
}

// Records on a device.
fn record_on<L: Link + Drop, K: Sink>(
    job: &RecordJob,
    device: DeviceInfo,
    conn: &mut Conn<L>,
    sink: &mut K,
    room: &mut [u8],
) -> Result<Recording, ToolEnd>
    requires usable { conn.old.cause ≡ None }
    requires channels { device_channels conn.old.devices job.now.device ≡ device.channels }
    requires shape { IsDeviceInfo device }
    requires block { (1 ≤ job.now.block) × (job.now.block ≤ 4000) }
    requires stop { (1 ≤ job.now.stop_blocks) × (job.now.stop_blocks ≤ 1000000) }
    requires room { greatest_block ≤ length room.old }
    ensures goes { GoesWriting L.left L.sent K.held conn.old conn.new sink.old sink.new
        (records_on job.now device) result }
    ensures step { (input : List ℕ) → L.left conn.old.link ≡ Some input → RecordsInStep job.now device (client_of conn.old input)
        (result ≡ Err ToolEnd.SinkFault) (L.sent conn.old.link) (L.sent conn.new.link) (K.held sink.old) (K.held sink.new) }
    ensures holds { KeepsConnection L.left L.faults conn.old conn.new result }
    ensures end { IfErr result (λ how. is_of_link_or_sink how ≡ true) }
    ensures fault { CountsFault (result ≡ Err ToolEnd.SinkFault) (K.faults sink.old) (K.faults sink.new) }
{
    let context = context_of(job, device);
    let now = begin(conn, context)?;
    let start = start_of(job, now);
    let recording = write_recording(job, device, start, conn, sink, room)?;
    finish(conn)?;
    Ok(recording)
}

/// Records n frames of a device in blocks, or n seconds of it, and writes each block to the sink, as samples or in a sound file.
/// Enough quiet blocks in a row end it early. Where the job is strict, the end says if frames had left the server. The connection
/// is one that was just made; room for 16000 bytes is handed in.
pub fn arecord<L: Link + Drop, K: Sink>(
    job: &RecordJob,
    conn: &mut Conn<L>,
    sink: &mut K,
    room: &mut [u8],
) -> ToolEnd
    requires usable { conn.old.cause ≡ None }
    requires block { (1 ≤ job.now.block) × (job.now.block ≤ 4000) }
    requires stop { (1 ≤ job.now.stop_blocks) × (job.now.stop_blocks ≤ 1000000) }
    requires room { greatest_block ≤ length room.old }

    // what was sent and written, and when it is done
    ensures ran { RunsTool L.left L.sent K.held (λ w. arecord_trace job.now conn.old.devices w)
        job.now.device job.now.strict result conn.old conn.new sink.old sink.new }
    ensures recorded { LeavesRecording L.left L.sent K.held job.now result conn.old conn.new sink.old sink.new }

    // in what order it asked and wrote
    ensures step { RunsWriting L.left L.sent K.held job.now result conn.old conn.new sink.old sink.new }

    // each end has its cause
    ensures end { is_of_tool false job.now.strict result ≡ true }
    ensures no_device { LacksDevice job.now.device conn.old.devices result }
    ensures link { CountsFault (result ≡ ToolEnd.LinkFault) (L.faults conn.old.link) (L.faults conn.new.link) }
    ensures sink { CountsFault (result ≡ ToolEnd.SinkFault) (K.faults sink.old) (K.faults sink.new) }
{
    let device = match device_with(conn, job.device) {
        Ok(device) => device,
        Err(end) => return end,
    };
    match record_on(&job.at_rate(device.rate), device, conn, sink, room) {
        Ok(recording) => end_by(job.strict, recording.lost),
        Err(end) => end,
    }
}
