// The machine that hears its caller, over a connection.
ghost use Rattle.std.specs.Prelude.{◌≡◌, ◌≤◌, ◌↔◌, ℕ, length, option_map, false, List};
ghost use Rattle.std.specs.declared.option.Option.TheVariants.{None, Some};
ghost use Rattle.af_io.specs.Observed.{CountsFault};
ghost use Rattle.af_toolkit.specs.Ends.{client_of};
ghost use Rattle.af_answer.specs.AnswerParts.{MachineEnd};
ghost use Rattle.af_attendant.specs.AttendantTrace.{line_at, machine_end, missing};
ghost use Rattle.af_attendant.specs.AttendantParts.{seen_as};
ghost use Rattle.af_attendant.specs.Attended.{AttendantRan, IsAttendantJob};

use crate::attend::attend;
use crate::commands::HeldCommands;
use crate::job::AttendantJob;
use crate::report::report;
use af_answer::AnswerEnd;
use af_io::{Link, Put, Sink};
use af_lib::Conn;
use std::alloc::Global;

// The end of the machine where the job's device is missing, or has no line.
fn missing<L: Link + Drop>(job: &AttendantJob, conn: &Conn<L>) -> Option<AnswerEnd>
    ensures { result ≡ option_map machine_end (missing job.now (line_at job.now conn.now.devices) (length conn.now.devices)) }
{
    let device = job.answer.device;
    let devices = conn.devices();
    match devices.get(usize::from(device)) {
        Some(info) if info.line => None,
        Some(_) => Some(AnswerEnd::NoLine { device }),
        None => Some(AnswerEnd::NoDevice {
            devices: devices.len() as u8,
        }),
    }
}

/// Attends the line of a device until so many calls were taken, as an answering machine does, and hears it meanwhile: a command
/// that runs is ended at a digit of the job, or where the current stops, if the job has that; and no command starts in a call
/// after the current stopped. Each call has a line, and the numbers of calls come last. A command runs only while the hook is off
/// (`HeldCommands`). The connection is one that was just made.
pub fn attend_line<L: Link + Drop, S: HeldCommands<L>, K: Sink>(
    alloc: Global,
    job: &AttendantJob,
    conn: &mut Conn<L>,
    commands: &mut S,
    sink: &mut K,
) -> AnswerEnd
    requires usable { conn.old.cause ≡ None }
    requires idle { S.runs commands.old ≡ false }
    requires range { IsAttendantJob job.now }

    // what was sent, heard and written, and how the commands were run, all in one order; what the hook is at the end
    ensures ran { (input : List ℕ) → L.left conn.old.link ≡ Some input →
        AttendantRan job.now conn.old.devices (client_of conn.old input) result
        (seen_as (L.sent conn.old.link) (S.acts commands.old) (K.held sink.old))
        (seen_as (L.sent conn.new.link) (S.acts commands.new) (K.held sink.new)) }

    // each end has its cause
    ensures end { MachineEnd result }
    ensures no_device { (n : ℕ) → (result ≡ AnswerEnd.NoDevice n)
        ↔ ((n ≡ length conn.old.devices) × (length conn.old.devices ≤ job.now.answer.device)) }
    ensures no_line { (n : ℕ) → (result ≡ AnswerEnd.NoLine n)
        ↔ ((n ≡ job.now.answer.device) × (line_at job.now conn.old.devices ≡ Some false)) }
    ensures link { CountsFault (result ≡ AnswerEnd.LinkFault) (L.faults conn.old.link) (L.faults conn.new.link) }
    ensures sink { CountsFault (result ≡ AnswerEnd.SinkFault) (K.faults sink.old) (K.faults sink.new) }
{
    match missing(job, conn) {
        None => {}
        Some(end) => return end,
    }
    match attend(alloc, job, conn, commands, sink) {
        Ok(tally) => match report(sink, tally) {
            Put::Done => AnswerEnd::Done,
            Put::Failed => AnswerEnd::SinkFault,
        },
        Err(end) => end,
    }
}
