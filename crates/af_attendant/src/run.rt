// The machine that hears its caller, by its arguments.
ghost use Rattle.std.specs.Prelude.{◌≡◌, ◌≢◌, ◌≤◌, ◌⊎◌, ◌∷◌, [], true, false, ℕ, List};
ghost use Rattle.std.specs.declared.option.Option.TheVariants.{None, Some};
ghost use Rattle.af_io.specs.Observed.{Appended, CountsFault, FaultCounted};
ghost use Rattle.af_cli.specs.Ranges.{IsAddress};
ghost use Rattle.af_answer.specs.Answered.{IsAnswerJob};
ghost use Rattle.af_attendant.specs.AttendantWords.{attendant_call, is_attendant_spelled, words_of_call, AttendantWords};
ghost use Rattle.af_answer.specs.AnswerRun.{dial_sight, IsIdle};
ghost use Rattle.af_attendant.specs.AttendantRun.{RanOver, RunsAsked};
ghost use Rattle.af_answer.specs.AnswerParts.{MachineEnd};
ghost use Rattle.af_attendant.specs.AttendantParts.{seen_as};

use crate::attendant::attend_line;
use crate::commands::HeldCommands;
use crate::job::AttendantJob;
use crate::options::{AttendantCall, call_of};
use af_answer::AnswerEnd;
use af_cli::OptionsFault;
use af_io::{Args, Dial, Dialed, Link, Sink};
use af_lib::Conn;
use af_wire::Order;
use std::alloc::Global;

// Sets a link up in big-endian order, and attends a line over it. The link comes back.
fn attendant_over<L: Link + Drop, S: HeldCommands<L>, K: Sink>(
    alloc: Global,
    job: &AttendantJob,
    far: L,
    commands: &mut S,
    sink: &mut K,
) -> (AnswerEnd, L)
    requires range { IsAnswerJob job.now.answer }
    requires idle { S.runs commands.old ≡ false }
    ensures ran { (input : List ℕ) → L.left far ≡ Some input → RanOver job.now input result.0
        (seen_as (L.sent far) (S.acts commands.old) (K.held sink.old))
        (seen_as (L.sent result.1) (S.acts commands.new) (K.held sink.new)) }
    ensures end { MachineEnd result.0 }
    ensures link { result.0 ≡ AnswerEnd.LinkFault → FaultCounted (L.faults far) (L.faults result.1) }
    ensures sink { CountsFault (result.0 ≡ AnswerEnd.SinkFault) (K.faults sink.old) (K.faults sink.new) }
{
    match Conn::connect(alloc, far, Order::Big) {
        Ok(mut conn) => {
            let end = attend_line(alloc, job, &mut conn, commands, sink);
            (end, conn.into_link())
        }
        Err((fault, far)) => (AnswerEnd::from(fault), far),
    }
}

// Dials a server, and attends a line of it. The link is given back.
fn attendant_on<K: Sink, D: Dial, S: HeldCommands<D::Far>>(
    alloc: Global,
    call: &AttendantCall<'_>,
    sink: &mut K,
    dial: &mut D,
    commands: &mut S,
) -> AnswerEnd
    requires range { IsAnswerJob call.now.job.answer }
    requires server { IsAddress call.now.server.now }
    requires idle { S.runs commands.old ≡ false }
    ensures ran { RunsAsked (words_of_call call.now) result
        (seen_as (dial_sight D.links D.back dial.old) (S.acts commands.old) (K.held sink.old))
        (seen_as (dial_sight D.links D.back dial.new) (S.acts commands.new) (K.held sink.new)) }
    ensures asked { Appended (D.asked dial.old) (call.now.server.now ∷ []) (D.asked dial.new) }
    ensures end { result ≢ AnswerEnd.Usage }
    ensures dialled { CountsFault (result ≡ AnswerEnd.DialFault) (D.faults dial.old) (D.faults dial.new) }
    ensures link { CountsFault (result ≡ AnswerEnd.LinkFault) (D.hurt dial.old) (D.hurt dial.new) }
    ensures sink { CountsFault (result ≡ AnswerEnd.SinkFault) (K.faults sink.old) (K.faults sink.new) }
{
    match dial.dial(call.server) {
        Dialed::Far(far) => {
            let (end, far) = attendant_over(alloc, &call.job, far, commands, sink);
            dial.hang_up(far);
            end
        }
        Dialed::Failed => AnswerEnd::DialFault,
        Dialed::OutOfMemory => AnswerEnd::OutOfMemory,
    }
}

/// The machine that hears its caller, by its arguments; the first is its name. The server is dialled, the line of the device is
/// attended, and the link is given back before any answer. All memory is taken before the first request, except that for
/// commands. A command runs only while the hook is off (`HeldCommands`).
pub fn attendant_run<K: Sink, D: Dial, S: HeldCommands<D::Far>>(
    alloc: Global,
    words: &Args,
    sink: &mut K,
    dial: &mut D,
    commands: &mut S,
) -> AnswerEnd
    requires { S.runs commands.old ≡ false }

    // valid arguments never get Usage; all others get it, except those that the command accepts as well
    ensures usage { is_attendant_spelled words.now ≡ true → result ≢ AnswerEnd.Usage }
    ensures other { attendant_call words.now ≡ None → (result ≡ AnswerEnd.Usage) ⊎ (result ≡ AnswerEnd.OutOfMemory) }
    ensures untouched { result ≡ AnswerEnd.Usage → (sink.new ≡ sink.old) × (dial.new ≡ dial.old) × (commands.new ≡ commands.old) }
    ensures no_job { attendant_call words.now ≡ None →
        (sink.new ≡ sink.old) × (dial.new ≡ dial.old) × (commands.new ≡ commands.old) }

    // which server was dialled, unless memory ran out before; what was sent, how the commands were run and what was written, all
    // in one order; what the hook is at the end, and when it is done
    ensures asked { (a : AttendantWords) → attendant_call words.now ≡ Some a → result ≢ AnswerEnd.Usage →
        IsIdle result (D.asked dial.old) (D.asked dial.new) ⊎ Appended (D.asked dial.old) (a.server ∷ []) (D.asked dial.new) }
    ensures ran { (a : AttendantWords) → attendant_call words.now ≡ Some a → result ≢ AnswerEnd.Usage → RunsAsked a result
        (seen_as (dial_sight D.links D.back dial.old) (S.acts commands.old) (K.held sink.old))
        (seen_as (dial_sight D.links D.back dial.new) (S.acts commands.new) (K.held sink.new)) }

    // each end has its cause
    ensures dialled { CountsFault (result ≡ AnswerEnd.DialFault) (D.faults dial.old) (D.faults dial.new) }
    ensures link { CountsFault (result ≡ AnswerEnd.LinkFault) (D.hurt dial.old) (D.hurt dial.new) }
    ensures sink { CountsFault (result ≡ AnswerEnd.SinkFault) (K.faults sink.old) (K.faults sink.new) }
{
    match call_of(alloc, words) {
        Ok(call) => attendant_on(alloc, &call, sink, dial, commands),
        Err(OptionsFault::Usage) => AnswerEnd::Usage,
        Err(OptionsFault::OutOfMemory) => AnswerEnd::OutOfMemory,
    }
}
