// One call, from the hook off to the hook on.
ghost use Rattle.std.specs.Prelude.{◌≡◌, ◌≤◌, true, IfErr};
ghost use Rattle.std.specs.declared.option.Option.TheVariants.{None};
ghost use Rattle.af_toolkit.specs.Ends.{KeepsConnectionBy};
ghost use Rattle.af_answer.specs.AnswerTrace.{leaves_message, takes_call};
ghost use Rattle.af_answer.specs.AnswerParts.{is_of_calls, GoesBy, RunsBy};
ghost use Rattle.af_answer.specs.OffHook.{IsOffHook};

use crate::child::{ChildEnd, run_child};
use crate::commands::Commands;
use crate::end::AnswerEnd;
use crate::job::AnswerJob;
use af_io::Link;
use af_lib::Conn;
use std::alloc::Global;

// Records the message after a good greeting. A call ends as its last child does.
fn leave_message<L: Link + Drop, S: Commands<L>>(
    alloc: Global,
    job: &AnswerJob,
    greeting: ChildEnd,
    conn: &Conn<L>,
    spawner: &mut S,
) -> ChildEnd
    requires { IsOffHook L.sent conn.now }
    ensures left { RunsBy (S.acts spawner.old) (S.acts spawner.new) (leaves_message job.now greeting) result }
    ensures count { S.faults spawner.old ≤ S.faults spawner.new }
{
    match greeting {
        ChildEnd::Good => run_child(alloc, &job.message, conn, spawner),
        ChildEnd::Bad | ChildEnd::NoMemory => greeting,
    }
}

/// Takes a call: it plays the greeting, records the message, and puts the hook on, whatever came of the two.
pub fn take_call<L: Link + Drop, S: Commands<L>>(
    alloc: Global,
    job: &AnswerJob,
    conn: &mut Conn<L>,
    spawner: &mut S,
) -> Result<ChildEnd, AnswerEnd>
    requires { conn.old.cause ≡ None }
    ensures goes { GoesBy L.left L.sent conn.old conn.new (S.acts spawner.old) (S.acts spawner.new) (takes_call job.now) result }
    ensures holds { KeepsConnectionBy AnswerEnd.LinkFault L.left L.faults conn.old conn.new result }
    ensures end { IfErr result (λ how. is_of_calls how ≡ true) }
    ensures count { S.faults spawner.old ≤ S.faults spawner.new }
{
    conn.hook(job.device, true)?;
    let greeting = run_child(alloc, &job.greeting, conn, spawner);
    let end = leave_message(alloc, job, greeting, conn, spawner);
    let hung_up = conn.hook(job.device, false);
    hung_up?;
    Ok(end)
}
