// Waiting for a call.
ghost use Rattle.std.specs.Prelude.{◌≡◌, true, List, Option, None, IfErr};
ghost use Rattle.af_command.specs.Acts.{Told};
ghost use Rattle.af_toolkit.specs.Ends.{KeepsConnectionBy};
ghost use Rattle.af_answer.specs.AnswerParts.{is_of_calls};
ghost use Rattle.af_attendant.specs.AttendantTrace.{awaits_call, most_for_a_call};
ghost use Rattle.af_attendant.specs.AttendantParts.{GoesBy};

use crate::job::AttendantJob;
use crate::line::{Line, is_taken};
use af_answer::AnswerEnd;
use af_io::Link;
use af_lib::Conn;
use af_time::DevTime;

// The most events that are read while waiting for one call.
const MOST_FOR_A_CALL: u32 = 1000000;

/// Waits until a call is to be taken, and answers the time of the ring.
pub fn await_call<L: Link + Drop>(
    job: &AttendantJob,
    conn: &mut Conn<L>,
    line: &mut Line,
) -> Result<DevTime, AnswerEnd>
    requires { conn.old.cause ≡ None }
    ensures goes { (acts : Option (List Told)) →
        GoesBy L.left L.sent conn.old conn.new acts acts line.old line.new (awaits_call most_for_a_call job.now) result }
    ensures holds { KeepsConnectionBy AnswerEnd.LinkFault L.left L.faults conn.old conn.new result }
    ensures end { IfErr result (λ how. is_of_calls how ≡ true) }
{
    let mut allowed = MOST_FOR_A_CALL;
    while allowed > 0 {
        let event = conn.wait_event()?;
        line.hear(job, event);
        if is_taken(job, line, event) {
            return Ok(event.time);
        }
        allowed -= 1;
    }
    Err(AnswerEnd::EventFlood)
}
