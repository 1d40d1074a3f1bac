// log: a device is recorded in pieces, and each is handed to a command.
ghost use Rattle.std.specs.Prelude.{◌≡◌, ◌≤◌, ◌↔◌, ℕ, length, slice_get, true, Err, IfErr, IsOk, List};
ghost use Rattle.std.specs.declared.option.Option.TheVariants.{None, Some};
ghost use Rattle.af_io.specs.Observed.{CountsFault};
ghost use Rattle.af_cli.specs.Sizes.{greatest_block};
ghost use Rattle.af_request.specs.Replies.{IsDeviceInfo};
ghost use Rattle.af_request.specs.declared.reply.DeviceInfo.{DeviceInfo};
ghost use Rattle.af_lib.specs.Calls.{device_channels};
ghost use Rattle.af_toolkit.specs.Ends.{client_of, is_of_link_or_sink, KeepsConnection};
ghost use Rattle.af_toolkit.specs.Talk.{creates};
ghost use Rattle.af_toolkit.specs.ToolParts.{GoesOver, link_sight};
ghost use Rattle.af_logger.specs.Commands.{IfSeen, NoneRuns};
ghost use Rattle.af_logger.specs.Logged.{is_of_log, RunsLogger, RunsSent};
ghost use Rattle.af_logger.specs.Keeping.{IsDeskOf, IsLogger, IsWhole, LeavesLogger};
ghost use Rattle.af_logger.specs.Plans.{count_of, plan_of, IsLogJob, IsPlan};
ghost use Rattle.af_logger.specs.Story.{HasLogged, Records};
ghost use Rattle.af_logger.specs.Trace.{log_context, logs_all, logs_on, start_of};

use crate::commands::Commands;
use crate::hand::Task;
use crate::job::LogJob;
use crate::logger::Logger;
use crate::plan::{Plan, plan_of};
use crate::pump::log_pieces;
use af_io::{Link, Sink};
use af_lib::Conn;
use af_request::DeviceInfo;
use af_sample::Gain;
use af_time::DevTime;
use af_toolkit::{ToolContext, ToolEnd, begin, device_with, finish};
use std::alloc::Global;

// The context of a job.
fn context_of(job: &LogJob, plan: &Plan) -> ToolContext
    ensures asked { (device : DeviceInfo) → plan.now ≡ plan_of job.now device →
        creates device.channels result ≡ log_context job.now device }
    ensures device { result.device ≡ job.now.device }
{
    ToolContext {
        device: job.device,
        ty: plan.ty,
        play: Gain::default(),
        record_by: Gain::default(),
        preempt: false,
    }
}

// The time of the first frame, if the device's time is now.
fn start_of(job: &LogJob, now: DevTime) -> DevTime
    ensures { result.0 ≡ start_of job.now now.0 }
{
    match job.time {
        Some(time) => DevTime(time),
        None => now,
    }
}

// Records all pieces of a job, and frees the context.
fn log_all<L: Link + Drop, C: Commands, K: Sink>(
    task: &Task<'_>,
    logger: &mut Logger,
    conn: &mut Conn<L>,
    commands: &mut C,
    sink: &mut K,
    room: &mut [u8],
) -> Result<(), ToolEnd>
    requires usable { conn.old.cause ≡ None }
    requires logger { IsLogger logger.old }
    requires desk { IfSeen (λ desk. IsDeskOf logger.old desk) (C.desk commands.old) }
    requires whole { IsWhole logger.old.plan logger.old.last }
    requires room { greatest_block ≤ length room.old }
    ensures goes { GoesOver L.left L.sent conn.old conn.new
        (logs_all (count_of task.now.job.now) logger.old.plan logger.old.at.0) result }
    ensures holds { KeepsConnection L.left L.faults conn.old conn.new result }
    ensures end { IfErr result (λ how. is_of_link_or_sink how ≡ true) }
    ensures leaves { LeavesLogger C.desk K.faults logger.old logger.new commands.new sink.old sink.new result }
    ensures records { Records (logger.old.begun ≡ 0) ⊥ task.now.job.now logger.old logger.new
        (link_sight L.left L.sent conn.old) (link_sight L.left L.sent conn.new) (C.desk commands.old) (C.desk commands.new)
        (K.held sink.old) (K.held sink.new) }
    ensures whole { IsOk result → IsWhole logger.new.plan logger.new.last }
    ensures begun { IsOk result → logger.old.begun ≡ 0 → logger.new.begun ≡ count_of task.now.job.now }
{
    log_pieces(task, logger, conn, commands, sink, room)?;
    finish(conn)
}

// Records a device in pieces, and hands each to a command. All commands have ended when it answers.
fn log_on<L: Link + Drop, C: Commands, K: Sink>(
    task: &Task<'_>,
    device: DeviceInfo,
    conn: &mut Conn<L>,
    commands: &mut C,
    sink: &mut K,
    room: &mut [u8],
) -> Result<(), ToolEnd>
    requires usable { conn.old.cause ≡ None }
    requires job { IsLogJob task.now.job.now }
    requires shape { IsDeviceInfo device }
    requires channels { device_channels conn.old.devices task.now.job.now.device ≡ device.channels }
    requires room { greatest_block ≤ length room.old }
    requires idle { NoneRuns (C.desk commands.old) }
    ensures goes { GoesOver L.left L.sent conn.old conn.new (logs_on task.now.job.now device) result }
    ensures holds { KeepsConnection L.left L.faults conn.old conn.new result }
    ensures end { IfErr result (λ how. is_of_link_or_sink how ≡ true) }
    ensures fault { CountsFault (result ≡ Err ToolEnd.SinkFault) (K.faults sink.old) (K.faults sink.new) }
    ensures logged { (input : List ℕ) → L.left conn.old.link ≡ Some input →
        HasLogged task.now.job.now device (client_of conn.old input) result (C.desk commands.old) (C.desk commands.new)
        (K.held sink.old) (K.held sink.new) }
{
    let plan = plan_of(task.job, device);
    let now = begin(conn, context_of(task.job, &plan))?;
    let mut logger = Logger::new(plan, start_of(task.job, now));
    let came = log_all(task, &mut logger, conn, commands, sink, room);
    logger.end(commands, sink);
    if logger.failed {
        return Err(ToolEnd::SinkFault);
    }
    came
}

/// Records a device in pieces of so many seconds, one after another, and hands each to a new command as a sound file, until there
/// were so many pieces or the link ends. A line is written for each piece once its command has ended. The connection is one that
/// was just made, and no command runs; room for 16000 bytes is handed in.
pub fn log<L: Link + Drop, C: Commands, K: Sink>(
    alloc: Global,
    job: &LogJob,
    conn: &mut Conn<L>,
    commands: &mut C,
    sink: &mut K,
    room: &mut [u8],
) -> ToolEnd
    requires usable { conn.old.cause ≡ None }
    requires job { IsLogJob job.now }
    requires room { greatest_block ≤ length room.old }
    requires idle { NoneRuns (C.desk commands.old) }

    // on its link it does as its trace
    ensures sent { RunsSent L.left L.sent job.now result conn.old conn.new }

    // what was sent, which pieces came, what each command was started with and took, which lines were written, and when it is
    // done
    ensures ran { RunsLogger L.left L.sent C.desk K.held job.now result conn.old conn.new
        commands.old commands.new sink.old sink.new }

    // each end has its cause: NoDevice, with the number of devices, exactly if the device is missing
    ensures end { is_of_log result ≡ true }
    ensures no_device { (n : ℕ) → (result ≡ ToolEnd.NoDevice n)
        ↔ ((n ≡ length conn.old.devices) × (slice_get conn.old.devices job.now.device ≡ None)) }
    ensures link { CountsFault (result ≡ ToolEnd.LinkFault) (L.faults conn.old.link) (L.faults conn.new.link) }
    ensures sink { CountsFault (result ≡ ToolEnd.SinkFault) (K.faults sink.old) (K.faults sink.new) }
{
    let device = match device_with(conn, job.device) {
        Ok(device) => device,
        Err(end) => return end,
    };
    let task = Task { alloc, job };
    match log_on(&task, device, conn, commands, sink, room) {
        Ok(()) => ToolEnd::Done,
        Err(end) => end,
    }
}
