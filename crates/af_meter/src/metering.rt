// meter: it is written how loud the sound of a device is, interval after interval.
ghost use Rattle.std.specs.Prelude.{◌≡◌, ◌<◌, ◌≤◌, ◌↔◌, ℕ, length, slice_get, true, Err, IfErr};
ghost use Rattle.std.specs.declared.option.Option.TheVariants.{None};
ghost use Rattle.af_io.specs.Observed.{CountsFault};
ghost use Rattle.af_cli.specs.Sizes.{greatest_block};
ghost use Rattle.af_request.specs.Replies.{IsDeviceInfo};
ghost use Rattle.af_lib.specs.Calls.{device_channels};
ghost use Rattle.af_toolkit.specs.Ends.{is_of_link_or_sink, KeepsConnection};
ghost use Rattle.af_toolkit.specs.Talk.{creates};
ghost use Rattle.af_toolkit.specs.ToolParts.{GoesWriting};
ghost use Rattle.af_meter.specs.Plans.{IsMeterJob};
ghost use Rattle.af_meter.specs.Told.{is_of_meter, RunsMeter};
ghost use Rattle.af_meter.specs.Trace.{count_of, meter_context, meters_on};

use crate::job::MeterJob;
use crate::plan::plan_of;
use crate::tell::tell;
use af_io::{Link, Sink};
use af_lib::Conn;
use af_request::DeviceInfo;
use af_sample::{Gain, SampleType};
use af_toolkit::{ToolContext, ToolEnd, begin, device_with, finish};

// The context of a job: the server is to give 16-bit samples.
fn context_of(job: &MeterJob) -> ToolContext
    ensures asked { (channels : ℕ) → creates channels result ≡ meter_context job.now channels }
    ensures device { result.device ≡ job.now.device }
{
    ToolContext {
        device: job.device,
        ty: SampleType::Lin16,
        play: Gain::default(),
        record_by: Gain::default(),
        preempt: false,
    }
}

// Measures a device, and writes lines.
fn meter_on<L: Link + Drop, K: Sink>(
    job: &MeterJob,
    device: DeviceInfo,
    conn: &mut Conn<L>,
    sink: &mut K,
    room: &mut [u8],
) -> Result<(), ToolEnd>
    requires usable { conn.old.cause ≡ None }
    requires channels { device_channels conn.old.devices job.now.device ≡ device.channels }
    requires shape { IsDeviceInfo device }
    requires job { IsMeterJob job.now }
    requires some { 0 < count_of job.now }
    requires room { greatest_block ≤ length room.old }
    ensures goes { GoesWriting L.left L.sent K.held conn.old conn.new sink.old sink.new (meters_on job.now device) result }
    ensures holds { KeepsConnection L.left L.faults conn.old conn.new result }
    ensures end { IfErr result (λ how. is_of_link_or_sink how ≡ true) }
    ensures fault { CountsFault (result ≡ Err ToolEnd.SinkFault) (K.faults sink.old) (K.faults sink.new) }
{
    let start = begin(conn, context_of(job))?;
    tell(plan_of(job, device), start, job.count(), conn, sink, room)?;
    finish(conn)
}

/// Measures intervals of a device, one after another, and writes a line for each, or for each change between sound and quiet,
/// until so many are written. The connection is one that was just made; room for 16000 bytes is handed in.
pub fn meter<L: Link + Drop, K: Sink>(
    job: &MeterJob,
    conn: &mut Conn<L>,
    sink: &mut K,
    room: &mut [u8],
) -> ToolEnd
    requires usable { conn.old.cause ≡ None }
    requires job { IsMeterJob job.now }
    requires some { 0 < count_of job.now }
    requires room { greatest_block ≤ length room.old }

    // what was sent and written, of which frames, and when it is done
    ensures ran { RunsMeter L.left L.sent K.held job.now result conn.old conn.new sink.old sink.new }

    // each end has its cause: NoDevice, with the number of devices, exactly if the device is missing
    ensures end { is_of_meter result ≡ true }
    ensures no_device { (n : ℕ) → (result ≡ ToolEnd.NoDevice n)
        ↔ ((n ≡ length conn.old.devices) × (slice_get conn.old.devices job.now.device ≡ None)) }
    ensures link { CountsFault (result ≡ ToolEnd.LinkFault) (L.faults conn.old.link) (L.faults conn.new.link) }
    ensures sink { CountsFault (result ≡ ToolEnd.SinkFault) (K.faults sink.old) (K.faults sink.new) }
{
    let device = match device_with(conn, job.device) {
        Ok(device) => device,
        Err(end) => return end,
    };
    match meter_on(job, device, conn, sink, room) {
        Ok(()) => ToolEnd::Done,
        Err(end) => end,
    }
}
