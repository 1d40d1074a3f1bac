// A command is run, and the line is heard meanwhile.
ghost use Rattle.std.specs.Prelude.{◌≡◌, true, false, IfErr, IsOk, Ok};
ghost use Rattle.af_answer.specs.AnswerParts.{is_of_calls};
ghost use Rattle.af_attendant.specs.AttendantTrace.{most_looks, runs_command, waits_for, watches};
ghost use Rattle.af_attendant.specs.AttendantParts.{GoesBy};
ghost use Rattle.af_attendant.specs.HeldOff.{HoldsOff, IsHeldOff};

use crate::commands::HeldCommands;
use crate::drain::hear_all;
use crate::environment::command_words;
use crate::job::AttendantJob;
use crate::line::Line;
use crate::ran::{EndCause, Ran};
use af_answer::AnswerEnd;
use af_command::Begun;
use af_io::Link;
use af_lib::Conn;
use arrayvec::ArrayString;
use std::alloc::Global;

// Waits for the end of a command, which may have been asked for.
fn finish<L: Link + Drop, S: HeldCommands<L>>(
    job: &AttendantJob,
    asked: Option<EndCause>,
    conn: &Conn<L>,
    commands: &mut S,
    line: &Line,
) -> Ran
    requires runs { S.runs commands.old ≡ true }
    requires off_hook { IsHeldOff L.sent job.now.answer.device conn.now }
    ensures goes { GoesBy L.left L.sent conn.now conn.now (S.acts commands.old) (S.acts commands.new) line.now line.now
        (waits_for asked) (Ok result) }
    ensures runs { S.runs commands.new ≡ false }
{
    let status = commands.finish_command(job.answer.device, conn);
    Ran::of(asked, status)
}

/// Hears the line while a command runs, ends it where that is asked for, and waits for its end.
pub fn watch<L: Link + Drop, S: HeldCommands<L>>(
    job: &AttendantJob,
    conn: &mut Conn<L>,
    commands: &mut S,
    line: &mut Line,
) -> Result<Ran, AnswerEnd>
    requires runs { S.runs commands.old ≡ true }
    requires off_hook { IsHeldOff L.sent job.now.answer.device conn.old }
    ensures goes { GoesBy L.left L.sent conn.old conn.new (S.acts commands.old) (S.acts commands.new) line.old line.new
        (watches most_looks job.now) result }
    ensures holds { HoldsOff L.left L.sent L.faults job.now.answer.device conn.old conn.new result }
    ensures end { IfErr result (λ how. is_of_calls how ≡ true) }
    ensures idle { IsOk result → S.runs commands.new ≡ false }
{
    let mut looks = u64::MAX;
    while looks > 0 {
        let runs = commands.look_at_command(job.answer.device, conn);
        conn.get_time(job.answer.device)?;
        let asked = hear_all(job, runs, conn, commands, line);
        if !runs || asked.is_some() {
            return Ok(finish(job, asked, conn, commands, line));
        }
        looks -= 1;
    }
    Ok(finish(job, None, conn, commands, line))
}

/// Runs a text as a command, unless the caller has hung up.
pub fn run_command<L: Link + Drop, S: HeldCommands<L>>(
    alloc: Global,
    job: &AttendantJob,
    call: u32,
    text: &ArrayString<200>,
    conn: &mut Conn<L>,
    commands: &mut S,
    line: &mut Line,
) -> Result<Ran, AnswerEnd>
    requires idle { S.runs commands.old ≡ false }
    requires off_hook { IsHeldOff L.sent job.now.answer.device conn.old }
    ensures goes { GoesBy L.left L.sent conn.old conn.new (S.acts commands.old) (S.acts commands.new) line.old line.new
        (runs_command job.now call text.now.bytes) result }
    ensures holds { HoldsOff L.left L.sent L.faults job.now.answer.device conn.old conn.new result }
    ensures end { IfErr result (λ how. is_of_calls how ≡ true) }
    ensures idle { IsOk result → S.runs commands.new ≡ false }
{
    if line.is_gone() {
        return Ok(Ran::not_run());
    }
    let words = command_words(job, call, line.digits(), text);
    match commands.start_command(alloc, job.answer.device, conn, &words) {
        Begun::Running => watch(job, conn, commands, line),
        Begun::Failed => Ok(Ran::not_started()),
        Begun::OutOfMemory => Ok(Ran::starved()),
    }
}
