// Attends a line until all calls were answered.
ghost use Rattle.std.specs.Prelude.{◌≡◌, ◌≤◌, true, IfErr};
ghost use Rattle.std.specs.declared.option.Option.TheVariants.{None};
ghost use Rattle.af_toolkit.specs.Ends.{KeepsConnectionBy};
ghost use Rattle.af_answer.specs.AnswerTrace.{attends_all};
ghost use Rattle.af_answer.specs.AnswerParts.{is_of_calls, GoesBy};

use crate::call::take_call;
use crate::commands::Commands;
use crate::end::AnswerEnd;
use crate::job::AnswerJob;
use crate::rings::await_call;
use crate::tally::Tally;
use af_io::Link;
use af_lib::Conn;
use std::alloc::Global;

// Rings and hooks of a line, in a mask of events.
const RINGS_AND_HOOKS: u32 = 3;

/// Asks for the rings and hooks of a line, and takes all calls. If memory runs out for a child, the machine ends after that call.
pub fn attend<L: Link + Drop, S: Commands<L>>(
    alloc: Global,
    job: &AnswerJob,
    conn: &mut Conn<L>,
    spawner: &mut S,
) -> Result<Tally, AnswerEnd>
    requires usable { conn.old.cause ≡ None }
    requires rings { (1 ≤ job.now.rings) × (job.now.rings ≤ 20) }
    ensures goes { GoesBy L.left L.sent conn.old conn.new (S.acts spawner.old) (S.acts spawner.new) (attends_all job.now) result }
    ensures holds { KeepsConnectionBy AnswerEnd.LinkFault L.left L.faults conn.old conn.new result }
    ensures end { IfErr result (λ how. is_of_calls how ≡ true) }
    ensures count { S.faults spawner.old ≤ S.faults spawner.new }
{
    conn.select_events(job.device, RINGS_AND_HOOKS)?;
    let mut tally = Tally::new();
    let mut left = job.calls;
    while left > 0 {
        await_call(job, conn)?;
        let end = take_call(alloc, job, conn, spawner)?;
        if end.is_starved() {
            return Err(AnswerEnd::OutOfMemory);
        }
        tally.count(end);
        left -= 1;
    }
    Ok(tally)
}
