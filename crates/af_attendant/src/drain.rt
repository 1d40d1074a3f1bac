// The events that came with a reply are heard.
ghost use Rattle.std.specs.Prelude.{◌≡◌, true, Ok, None};
ghost use Rattle.af_attendant.specs.AttendantTrace.{cause_by, ends_now, hears_all};
ghost use Rattle.af_attendant.specs.AttendantParts.{GoesBy, KeepsLink};
ghost use Rattle.af_attendant.specs.HeldOff.{IsHeldOff};

use crate::commands::HeldCommands;
use crate::job::AttendantJob;
use crate::line::{Line, asks_end};
use crate::ran::EndCause;
use af_io::Link;
use af_lib::Conn;
use af_wire::{Event, EventKind};

// Why an event has a command ended.
fn cause_by(kind: EventKind) -> EndCause
    ensures { result ≡ cause_by kind }
{
    match kind {
        EventKind::Digit => EndCause::Digit,
        EventKind::Ring | EventKind::Current | EventKind::Hook => EndCause::HangUp,
    }
}

// Whether an event ends a command that may run, and may have been ended before.
fn ends_now(job: &AttendantJob, runs: bool, asked: Option<EndCause>, event: Event) -> bool
    ensures { result ≡ ends_now job.now runs asked event }
{
    runs && asked.is_none() && asks_end(job, event)
}

/// Hears all events that came. If a command runs, it is ended at the first that asks for that, and then the answer says why.
pub fn hear_all<L: Link + Drop, S: HeldCommands<L>>(
    job: &AttendantJob,
    runs: bool,
    conn: &mut Conn<L>,
    commands: &mut S,
    line: &mut Line,
) -> Option<EndCause>
    requires usable { conn.old.cause ≡ None }
    requires runs { runs ≡ true → (S.runs commands.old ≡ true) × IsHeldOff L.sent job.now.answer.device conn.old }
    ensures goes { GoesBy L.left L.sent conn.old conn.new (S.acts commands.old) (S.acts commands.new) line.old line.new
        (hears_all job.now runs) (Ok result) }
    ensures holds { KeepsLink conn.old conn.new }
    ensures runs { S.runs commands.new ≡ S.runs commands.old }
{
    let mut asked = None;
    while let Some(event) = conn.next_event() {
        line.hear(job, event);
        if ends_now(job, runs, asked, event) {
            commands.end_command(job.answer.device, conn);
            asked = Some(cause_by(event.kind));
        }
    }
    asked
}
