// The tool log, by its arguments.
ghost use Rattle.std.specs.Prelude.{◌≡◌, ◌≢◌, ◌≤◌, ◌⊎◌, ◌∷◌, [], true, length, ℕ, List, IfSome};
ghost use Rattle.std.specs.declared.option.Option.TheVariants.{None, Some};
ghost use Rattle.af_io.specs.Observed.{Appended, CountsFault, FaultCounted};
ghost use Rattle.af_cli.specs.Ranges.{IsAddress};
ghost use Rattle.af_cli.specs.Sizes.{greatest_block};
ghost use Rattle.af_logger.specs.Commands.{NoneRuns};
ghost use Rattle.af_logger.specs.Plans.{IsLogJob};
ghost use Rattle.af_logger.specs.LogWords.{log_call, is_log_spelled, words_of_call, LogWords};
ghost use Rattle.af_logger.specs.LogRun.{seen_as, IsIdle, RanOver, RunsAsked};

use crate::commands::Commands;
use crate::job::LogJob;
use crate::logging::log;
use crate::options::{LogCall, call_of};
use af_cli::{GREATEST_BLOCK, OptionsFault};
use af_io::{Args, Dial, Dialed, Link, Sink};
use af_lib::Conn;
use af_toolkit::ToolEnd;
use af_wire::Order;
use std::alloc::Global;

// Room for the samples of a Record.
fn record_room(alloc: Global) -> Option<Vec<u8>>
    ensures { IfSome result (λ room. length room.items ≡ greatest_block) }
{
    vec![in alloc; 0u8; GREATEST_BLOCK].ok()
}

// Sets a link up in a byte order, and records a device over it. The link comes back.
fn log_over<L: Link + Drop, C: Commands, K: Sink>(
    order: Order,
    job: &LogJob,
    far: L,
    commands: &mut C,
    sink: &mut K,
    room: &mut Vec<u8>,
) -> (ToolEnd, L)
    requires job { IsLogJob job.now }
    requires room { greatest_block ≤ length room.old.items }
    requires idle { NoneRuns (C.desk commands.old) }
    ensures ran { (input : List ℕ) → L.left far ≡ Some input → RanOver order job.now input result.0
        (L.sent far) (L.sent result.1) (seen_as (C.desk commands.old) (K.held sink.old))
        (seen_as (C.desk commands.new) (K.held sink.new)) }
    ensures end { (result.0 ≢ ToolEnd.Usage) × (result.0 ≢ ToolEnd.DialFault) }
    ensures link { result.0 ≡ ToolEnd.LinkFault → FaultCounted (L.faults far) (L.faults result.1) }
    ensures sink { CountsFault (result.0 ≡ ToolEnd.SinkFault) (K.faults sink.old) (K.faults sink.new) }
{
    let alloc = *room.allocator();
    match Conn::connect(alloc, far, order) {
        Ok(mut conn) => {
            let end = log(alloc, job, &mut conn, commands, sink, room);
            (end, conn.into_link())
        }
        Err((fault, far)) => (ToolEnd::from(fault), far),
    }
}

// Dials a server, and records a device of it. The link is given back.
fn log_at<C: Commands, K: Sink, D: Dial>(
    call: &LogCall<'_>,
    commands: &mut C,
    sink: &mut K,
    dial: &mut D,
    room: &mut Vec<u8>,
) -> ToolEnd
    requires job { IsLogJob call.now.job }
    requires server { IsAddress call.now.server.now }
    requires room { greatest_block ≤ length room.old.items }
    requires idle { NoneRuns (C.desk commands.old) }
    ensures ran { RunsAsked D.links D.back (words_of_call call.now) result dial.old dial.new
        (seen_as (C.desk commands.old) (K.held sink.old)) (seen_as (C.desk commands.new) (K.held sink.new)) }
    ensures asked { Appended (D.asked dial.old) (call.now.server.now ∷ []) (D.asked dial.new) }
    ensures end { result ≢ ToolEnd.Usage }
    ensures dialled { CountsFault (result ≡ ToolEnd.DialFault) (D.faults dial.old) (D.faults dial.new) }
    ensures link { CountsFault (result ≡ ToolEnd.LinkFault) (D.hurt dial.old) (D.hurt dial.new) }
    ensures sink { CountsFault (result ≡ ToolEnd.SinkFault) (K.faults sink.old) (K.faults sink.new) }
{
    match dial.dial(call.server) {
        Dialed::Far(far) => {
            let (end, far) = log_over(call.order, &call.job, far, commands, sink, room);
            dial.hang_up(far);
            end
        }
        Dialed::Failed => ToolEnd::DialFault,
        Dialed::OutOfMemory => ToolEnd::OutOfMemory,
    }
}

/// The tool log by its arguments; the first is its name. The server is dialled, a device is recorded in pieces, each piece is
/// handed to a command, and the link is given back before any answer. All memory is taken before the first request, except that
/// for commands.
pub fn log_run<C: Commands, K: Sink, D: Dial>(
    alloc: Global,
    words: &Args,
    commands: &mut C,
    sink: &mut K,
    dial: &mut D,
) -> ToolEnd
    requires idle { NoneRuns (C.desk commands.old) }

    // valid arguments never get Usage; all others get it, except those that the command accepts as well
    ensures usage { is_log_spelled words.now ≡ true → result ≢ ToolEnd.Usage }
    ensures other { log_call words.now ≡ None → (result ≡ ToolEnd.Usage) ⊎ (result ≡ ToolEnd.OutOfMemory) }
    ensures untouched { result ≡ ToolEnd.Usage → (commands.new ≡ commands.old) × (sink.new ≡ sink.old) × (dial.new ≡ dial.old) }
    ensures no_job { log_call words.now ≡ None → (commands.new ≡ commands.old) × (sink.new ≡ sink.old) × (dial.new ≡ dial.old) }

    // which server was dialled, unless memory ran out before; what was sent, which pieces were handed to which commands, which
    // lines were written, and when it is done
    ensures asked { (a : LogWords) → log_call words.now ≡ Some a → result ≢ ToolEnd.Usage →
        IsIdle result (D.asked dial.old) (D.asked dial.new) ⊎ Appended (D.asked dial.old) (a.server ∷ []) (D.asked dial.new) }
    ensures ran { (a : LogWords) → log_call words.now ≡ Some a → result ≢ ToolEnd.Usage →
        RunsAsked D.links D.back a result dial.old dial.new
        (seen_as (C.desk commands.old) (K.held sink.old)) (seen_as (C.desk commands.new) (K.held sink.new)) }

    // each end has its cause
    ensures dialled { CountsFault (result ≡ ToolEnd.DialFault) (D.faults dial.old) (D.faults dial.new) }
    ensures link { CountsFault (result ≡ ToolEnd.LinkFault) (D.hurt dial.old) (D.hurt dial.new) }
    ensures sink { CountsFault (result ≡ ToolEnd.SinkFault) (K.faults sink.old) (K.faults sink.new) }
{
    let call = match call_of(alloc, words) {
        Ok(call) => call,
        Err(OptionsFault::Usage) => return ToolEnd::Usage,
        Err(OptionsFault::OutOfMemory) => return ToolEnd::OutOfMemory,
    };
    match record_room(alloc) {
        Some(mut room) => log_at(&call, commands, sink, dial, &mut room),
        None => ToolEnd::OutOfMemory,
    }
}
