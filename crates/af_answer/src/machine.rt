// The answering machine, over a connection.
ghost use Rattle.std.specs.Prelude.{◌≡◌, ◌≢◌, ◌≤◌, ◌↔◌, ℕ, length, option_map, false, true, List};
ghost use Rattle.std.specs.declared.option.Option.TheVariants.{None, Some};
ghost use Rattle.af_io.specs.Observed.{CountsFault};
ghost use Rattle.af_toolkit.specs.Ends.{client_of};
ghost use Rattle.af_answer.specs.AnswerTrace.{line_at, machine_end, missing};
ghost use Rattle.af_answer.specs.AnswerParts.{seen_as, MachineEnd};
ghost use Rattle.af_answer.specs.Answered.{AnswerRan, IsAnswerJob};

use crate::attend::attend;
use crate::commands::Commands;
use crate::end::AnswerEnd;
use crate::job::AnswerJob;
use crate::report::report;
use af_io::{Link, Put, Sink};
use af_lib::Conn;
use std::alloc::Global;

// The end of the machine where the job's device is missing, or has no line.
fn missing<L: Link + Drop>(job: &AnswerJob, conn: &Conn<L>) -> Option<AnswerEnd>
    ensures { result ≡ option_map machine_end (missing job.now (line_at job.now conn.now.devices) (length conn.now.devices)) }
{
    let devices = conn.devices();
    match devices.get(usize::from(job.device)) {
        Some(device) if device.line => None,
        Some(_) => Some(AnswerEnd::NoLine { device: job.device }),
        None => Some(AnswerEnd::NoDevice {
            devices: devices.len() as u8,
        }),
    }
}

/// Attends the line of a device until so many calls were taken, and then writes how many of them were answered, how many
/// messages were recorded, and in how many a child has failed. A call is taken at the ring with the stated number: the hook is
/// taken off, the greeting is run, after one that ended well the message, and the hook is put on. A command runs only while the
/// hook is off (`Commands`). The connection is one that was just made.
///
/// The hook is on at the end. It may be off only if the server refused OnHook, if the link failed, or if the link ended, or a bad
/// reply or too many events came, in answer to OffHook or OnHook.
pub fn answer<L: Link + Drop, S: Commands<L>, K: Sink>(
    alloc: Global,
    job: &AnswerJob,
    conn: &mut Conn<L>,
    spawner: &mut S,
    sink: &mut K,
) -> AnswerEnd
    requires usable { conn.old.cause ≡ None }
    requires range { IsAnswerJob job.now }

    // what was sent, which children ran and what was written, all in one order; what the hook is at the end, and when it is done
    ensures ran { (input : List ℕ) → L.left conn.old.link ≡ Some input →
        AnswerRan job.now conn.old.devices (client_of conn.old input) result
        (seen_as (L.sent conn.old.link) (S.acts spawner.old) (K.held sink.old))
        (seen_as (L.sent conn.new.link) (S.acts spawner.new) (K.held sink.new)) }

    // each end has its cause: NoDevice, with the number of devices, exactly if that of the job is not below it; NoLine exactly if
    // the device exists and has no line
    ensures end { MachineEnd result }
    ensures no_device { (n : ℕ) → (result ≡ AnswerEnd.NoDevice n)
        ↔ ((n ≡ length conn.old.devices) × (length conn.old.devices ≤ job.now.device)) }
    ensures no_line { (n : ℕ) → (result ≡ AnswerEnd.NoLine n)
        ↔ ((n ≡ job.now.device) × (line_at job.now conn.old.devices ≡ Some false)) }
    ensures link { CountsFault (result ≡ AnswerEnd.LinkFault) (L.faults conn.old.link) (L.faults conn.new.link) }
    ensures sink { CountsFault (result ≡ AnswerEnd.SinkFault) (K.faults sink.old) (K.faults sink.new) }
    ensures children { S.faults spawner.old ≤ S.faults spawner.new }
{
    match missing(job, conn) {
        None => {}
        Some(end) => return end,
    }
    match attend(alloc, job, conn, spawner) {
        Ok(tally) => match report(sink, tally) {
            Put::Done => AnswerEnd::Done,
            Put::Failed => AnswerEnd::SinkFault,
        },
        Err(end) => end,
    }
}
