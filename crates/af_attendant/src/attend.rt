// Attends a line until all calls were answered.
ghost use Rattle.std.specs.Prelude.{◌≡◌, ◌≤◌, true, false, IfErr, IsOk, Err};
ghost use Rattle.std.specs.declared.option.Option.TheVariants.{None};
ghost use Rattle.af_io.specs.Observed.{CountsFault};
ghost use Rattle.af_toolkit.specs.Ends.{KeepsConnectionBy};
ghost use Rattle.af_attendant.specs.Line.{fresh_line};
ghost use Rattle.af_attendant.specs.AttendantTrace.{attends_all};
ghost use Rattle.af_attendant.specs.AttendantParts.{is_of_taking, AttendsBy};

use crate::call::take_call;
use crate::commands::HeldCommands;
use crate::job::AttendantJob;
use crate::line::Line;
use crate::rings::await_call;
use crate::tally::Tally;
use af_answer::AnswerEnd;
use af_io::{Link, Sink};
use af_lib::Conn;
use std::alloc::Global;

// All events of a line, in a mask of events.
const ALL_EVENTS: u32 = 15;

/// Asks for the events of a line, and takes all calls. If memory runs out for a command, the machine ends after that call.
pub fn attend<L: Link + Drop, S: HeldCommands<L>, K: Sink>(
    alloc: Global,
    job: &AttendantJob,
    conn: &mut Conn<L>,
    commands: &mut S,
    sink: &mut K,
) -> Result<Tally, AnswerEnd>
    requires usable { conn.old.cause ≡ None }
    requires idle { S.runs commands.old ≡ false }
    requires calls { job.now.answer.calls ≤ 1000 }
    ensures goes { AttendsBy L.left L.sent conn.old conn.new (S.acts commands.old) (S.acts commands.new)
        (K.held sink.old) (K.held sink.new) (attends_all job.now) result }
    ensures holds { KeepsConnectionBy AnswerEnd.LinkFault L.left L.faults conn.old conn.new result }
    ensures end { IfErr result (λ how. is_of_taking how ≡ true) }
    ensures fault { CountsFault (result ≡ Err AnswerEnd.SinkFault) (K.faults sink.old) (K.faults sink.new) }
{
    conn.select_events(job.answer.device, ALL_EVENTS)?;
    let mut line = Line::new();
    let mut tally = Tally::new();
    let mut left = job.answer.calls;
    while left > 0 {
        let time = await_call(job, conn, &mut line)?;
        let call = tally.answered + 1;
        let runs = take_call(alloc, job, call, time, conn, commands, &mut line, sink)?;
        if runs.is_starved() {
            return Err(AnswerEnd::OutOfMemory);
        }
        tally.count(runs);
        left -= 1;
    }
    Ok(tally)
}
