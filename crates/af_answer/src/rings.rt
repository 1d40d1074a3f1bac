// Waiting for a call.
ghost use Rattle.std.specs.Prelude.{◌≡◌, ◌<◌, ◌≤◌, ◌+◌, ◌^◌, true, List, Option, None, IfErr};
ghost use Rattle.af_process.specs.Acts.{Told};
ghost use Rattle.af_toolkit.specs.Ends.{KeepsConnectionBy};
ghost use Rattle.af_answer.specs.Acts.{rings_after};
ghost use Rattle.af_answer.specs.AnswerTrace.{awaits_call, most_for_a_call};
ghost use Rattle.af_answer.specs.AnswerParts.{is_of_calls, GoesBy};

use crate::end::AnswerEnd;
use crate::job::AnswerJob;
use af_io::Link;
use af_lib::Conn;
use af_wire::{Event, EventKind};

// The most events that are read while waiting for one call.
const MOST_FOR_A_CALL: u32 = 1000000;

// How often it has rung in a row after an event. A hook that is taken off ends the row.
fn rings_after(job: &AnswerJob, rings: u32, event: Event) -> u32
    requires { rings + 1 < 2 ^ 32 }
    ensures rings { result ≡ rings_after job.now rings event }
    ensures few { result ≤ rings + 1 }
{
    if event.device != job.device || event.value != 1 {
        return rings;
    }
    match event.kind {
        EventKind::Ring => rings + 1,
        EventKind::Hook => 0,
        EventKind::Current | EventKind::Digit => rings,
    }
}

/// Waits until a call is to be taken.
pub fn await_call<L: Link + Drop>(job: &AnswerJob, conn: &mut Conn<L>) -> Result<(), AnswerEnd>
    requires usable { conn.old.cause ≡ None }
    requires rings { (1 ≤ job.now.rings) × (job.now.rings ≤ 20) }
    ensures goes { (acts : Option (List Told)) →
        GoesBy L.left L.sent conn.old conn.new acts acts (awaits_call most_for_a_call job.now 0) result }
    ensures holds { KeepsConnectionBy AnswerEnd.LinkFault L.left L.faults conn.old conn.new result }
    ensures end { IfErr result (λ how. is_of_calls how ≡ true) }
{
    let mut rings = 0;
    let mut allowed = MOST_FOR_A_CALL;
    while allowed > 0 {
        let event = conn.wait_event()?;
        rings = rings_after(job, rings, event);
        if rings == job.rings {
            return Ok(());
        }
        allowed -= 1;
    }
    Err(AnswerEnd::EventFlood)
}
