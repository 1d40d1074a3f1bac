// One call, from the hook off to its line.
ghost use Rattle.std.specs.Prelude.{◌≡◌, true, false, IfErr, IsOk, Err};
ghost use Rattle.std.specs.declared.option.Option.TheVariants.{None};
ghost use Rattle.af_io.specs.Observed.{CountsFault};
ghost use Rattle.af_toolkit.specs.Ends.{KeepsConnectionBy};
ghost use Rattle.af_answer.specs.AnswerParts.{is_of_calls};
ghost use Rattle.af_attendant.specs.AttendantTrace.{holds_call, leaves_message, runs_commands, takes_call, writes_call};
ghost use Rattle.af_attendant.specs.AttendantParts.{is_of_taking, GoesBy, GoesWriting, WritesBy};
ghost use Rattle.af_attendant.specs.HeldOff.{HoldsOff, IsHeldOff};

use crate::commands::HeldCommands;
use crate::drain::hear_all;
use crate::job::AttendantJob;
use crate::line::Line;
use crate::ran::{CallRuns, Ran};
use crate::report::report_call;
use crate::watch::run_command;
use af_answer::AnswerEnd;
use af_io::{Link, Put, Sink};
use af_lib::Conn;
use af_time::DevTime;
use std::alloc::Global;

// Records the message after a good greeting.
fn leave_message<L: Link + Drop, S: HeldCommands<L>>(
    alloc: Global,
    job: &AttendantJob,
    call: u32,
    greeting: Ran,
    conn: &mut Conn<L>,
    commands: &mut S,
    line: &mut Line,
) -> Result<CallRuns, AnswerEnd>
    requires idle { S.runs commands.old ≡ false }
    requires off_hook { IsHeldOff L.sent job.now.answer.device conn.old }
    ensures goes { GoesBy L.left L.sent conn.old conn.new (S.acts commands.old) (S.acts commands.new) line.old line.new
        (leaves_message job.now call greeting) result }
    ensures holds { HoldsOff L.left L.sent L.faults job.now.answer.device conn.old conn.new result }
    ensures end { IfErr result (λ how. is_of_calls how ≡ true) }
    ensures idle { IsOk result → S.runs commands.new ≡ false }
{
    let mut message = Ran::not_run();
    if greeting.is_good() {
        message = run_command(alloc, job, call, &job.answer.message, conn, commands, line)?;
    }
    Ok(CallRuns { greeting, message })
}

// Runs the commands of a call.
fn run_commands<L: Link + Drop, S: HeldCommands<L>>(
    alloc: Global,
    job: &AttendantJob,
    call: u32,
    conn: &mut Conn<L>,
    commands: &mut S,
    line: &mut Line,
) -> Result<CallRuns, AnswerEnd>
    requires idle { S.runs commands.old ≡ false }
    requires off_hook { IsHeldOff L.sent job.now.answer.device conn.old }
    ensures goes { GoesBy L.left L.sent conn.old conn.new (S.acts commands.old) (S.acts commands.new) line.old line.new
        (runs_commands job.now call) result }
    ensures holds { HoldsOff L.left L.sent L.faults job.now.answer.device conn.old conn.new result }
    ensures end { IfErr result (λ how. is_of_calls how ≡ true) }
    ensures idle { IsOk result → S.runs commands.new ≡ false }
{
    let greeting = run_command(alloc, job, call, &job.answer.greeting, conn, commands, line)?;
    leave_message(alloc, job, call, greeting, conn, commands, line)
}

// Writes the line of a call.
fn write_call<K: Sink>(
    call: u32,
    time: DevTime,
    runs: CallRuns,
    line: &Line,
    sink: &mut K,
) -> Result<(), AnswerEnd>
    ensures wrote { WritesBy (K.held sink.old) (K.held sink.new) line.now (writes_call call time.0 runs) result }
    ensures end { IfErr result (λ how. how ≡ AnswerEnd.SinkFault) }
    ensures fault { CountsFault (result ≡ Err AnswerEnd.SinkFault) (K.faults sink.old) (K.faults sink.new) }
{
    match report_call(sink, call, time, line.call_digits(), runs) {
        Put::Done => Ok(()),
        Put::Failed => Err(AnswerEnd::SinkFault),
    }
}

// The hook off, the commands of a call, and the hook on.
fn hold_call<L: Link + Drop, S: HeldCommands<L>>(
    alloc: Global,
    job: &AttendantJob,
    call: u32,
    conn: &mut Conn<L>,
    commands: &mut S,
    line: &mut Line,
) -> Result<CallRuns, AnswerEnd>
    requires usable { conn.old.cause ≡ None }
    requires idle { S.runs commands.old ≡ false }
    ensures goes { GoesBy L.left L.sent conn.old conn.new (S.acts commands.old) (S.acts commands.new) line.old line.new
        (holds_call job.now call) result }
    ensures holds { KeepsConnectionBy AnswerEnd.LinkFault L.left L.faults conn.old conn.new result }
    ensures end { IfErr result (λ how. is_of_calls how ≡ true) }
    ensures idle { IsOk result → S.runs commands.new ≡ false }
{
    conn.hook(job.answer.device, true)?;
    hear_all(job, false, conn, commands, line);
    let runs = run_commands(alloc, job, call, conn, commands, line)?;
    conn.hook(job.answer.device, false)?;
    Ok(runs)
}

/// Takes a call: the hook is taken off, the commands are run, the hook is put on, and the line of the call is written.
pub fn take_call<L: Link + Drop, S: HeldCommands<L>, K: Sink>(
    alloc: Global,
    job: &AttendantJob,
    call: u32,
    time: DevTime,
    conn: &mut Conn<L>,
    commands: &mut S,
    line: &mut Line,
    sink: &mut K,
) -> Result<CallRuns, AnswerEnd>
    requires usable { conn.old.cause ≡ None }
    requires idle { S.runs commands.old ≡ false }
    ensures goes { GoesWriting L.left L.sent conn.old conn.new (S.acts commands.old) (S.acts commands.new) line.old line.new
        (K.held sink.old) (K.held sink.new) (takes_call job.now call time) result }
    ensures holds { KeepsConnectionBy AnswerEnd.LinkFault L.left L.faults conn.old conn.new result }
    ensures end { IfErr result (λ how. is_of_taking how ≡ true) }
    ensures idle { IsOk result → S.runs commands.new ≡ false }
    ensures fault { CountsFault (result ≡ Err AnswerEnd.SinkFault) (K.faults sink.old) (K.faults sink.new) }
{
    line.begin();
    let runs = hold_call(alloc, job, call, conn, commands, line)?;
    write_call(call, time, runs, line, sink)?;
    line.end();
    Ok(runs)
}
