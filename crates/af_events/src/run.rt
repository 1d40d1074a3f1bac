// The tool events, by its arguments.
ghost use Rattle.std.specs.Prelude.{◌≡◌, ◌≢◌, ◌<◌, ◌≤◌, ◌⊎◌, ◌∷◌, [], true, ℕ, List};
ghost use Rattle.std.specs.declared.option.Option.TheVariants.{None, Some};
ghost use Rattle.af_io.specs.Observed.{Appended, CountsFault, FaultCounted};
ghost use Rattle.af_cli.specs.Ranges.{IsAddress};
ghost use Rattle.af_events.specs.Trace.{count_of};
ghost use Rattle.af_events.specs.EventsWords.{events_call, is_events_spelled, words_of_call, EventsWords};
ghost use Rattle.af_events.specs.EventsRun.{IsIdle, RanOver, RunsAsked};

use crate::end::EventsEnd;
use crate::job::EventsJob;
use crate::options::{EventsCall, call_of};
use crate::teller::events;
use af_cli::OptionsFault;
use af_io::{Args, Dial, Dialed, Link, Sink};
use af_lib::Conn;
use af_toolkit::ToolEnd;
use af_wire::Order;
use std::alloc::Global;

// Sets a link up in a byte order, and tells events over it. The link comes back.
fn events_over<L: Link + Drop, K: Sink>(
    alloc: Global,
    order: Order,
    job: &EventsJob,
    far: L,
    sink: &mut K,
) -> (EventsEnd, L)
    requires { 0 < count_of job.now }
    ensures ran { (input : List ℕ) → L.left far ≡ Some input → RanOver order job.now input result.0
        (L.sent far) (L.sent result.1) (K.held sink.old) (K.held sink.new) }
    ensures end { (result.0 ≢ EventsEnd.Tool ToolEnd.Usage) × (result.0 ≢ EventsEnd.Tool ToolEnd.DialFault) }
    ensures link { result.0 ≡ EventsEnd.Tool ToolEnd.LinkFault → FaultCounted (L.faults far) (L.faults result.1) }
    ensures sink { CountsFault (result.0 ≡ EventsEnd.Tool ToolEnd.SinkFault) (K.faults sink.old) (K.faults sink.new) }
{
    match Conn::connect(alloc, far, order) {
        Ok(mut conn) => {
            let end = events(job, &mut conn, sink);
            (end, conn.into_link())
        }
        Err((fault, far)) => (EventsEnd::Tool(ToolEnd::from(fault)), far),
    }
}

// Dials a server, and tells events of its lines. The link is given back.
fn events_on<K: Sink, D: Dial>(
    alloc: Global,
    call: &EventsCall<'_>,
    sink: &mut K,
    dial: &mut D,
) -> EventsEnd
    requires some { 0 < count_of call.now.job }
    requires server { IsAddress call.now.server.now }
    ensures ran { RunsAsked D.links D.back K.held (words_of_call call.now) result dial.old dial.new sink.old sink.new }
    ensures asked { Appended (D.asked dial.old) (call.now.server.now ∷ []) (D.asked dial.new) }
    ensures end { result ≢ EventsEnd.Tool ToolEnd.Usage }
    ensures dialled { CountsFault (result ≡ EventsEnd.Tool ToolEnd.DialFault) (D.faults dial.old) (D.faults dial.new) }
    ensures link { CountsFault (result ≡ EventsEnd.Tool ToolEnd.LinkFault) (D.hurt dial.old) (D.hurt dial.new) }
    ensures sink { CountsFault (result ≡ EventsEnd.Tool ToolEnd.SinkFault) (K.faults sink.old) (K.faults sink.new) }
{
    match dial.dial(call.server) {
        Dialed::Far(far) => {
            let (end, far) = events_over(alloc, call.order, &call.job, far, sink);
            dial.hang_up(far);
            end
        }
        Dialed::Failed => EventsEnd::Tool(ToolEnd::DialFault),
        Dialed::OutOfMemory => EventsEnd::Tool(ToolEnd::OutOfMemory),
    }
}

/// The tool events by its arguments; the first is its name. The server is dialled, events of its lines are told, and the link is
/// given back before any answer. All memory is taken before the first request.
pub fn events_run<K: Sink, D: Dial>(
    alloc: Global,
    words: &Args,
    sink: &mut K,
    dial: &mut D,
) -> EventsEnd
    // valid arguments never get Usage; all others get it, except those that the command accepts as well
    ensures usage { is_events_spelled words.now ≡ true → result ≢ EventsEnd.Tool ToolEnd.Usage }
    ensures other { events_call words.now ≡ None →
        (result ≡ EventsEnd.Tool ToolEnd.Usage) ⊎ (result ≡ EventsEnd.Tool ToolEnd.OutOfMemory) }
    ensures untouched { result ≡ EventsEnd.Tool ToolEnd.Usage → (sink.new ≡ sink.old) × (dial.new ≡ dial.old) }
    ensures no_job { events_call words.now ≡ None → (sink.new ≡ sink.old) × (dial.new ≡ dial.old) }

    // which server was dialled, unless memory ran out before; what was sent and written, which events came, and when it is done
    ensures asked { (a : EventsWords) → events_call words.now ≡ Some a → result ≢ EventsEnd.Tool ToolEnd.Usage →
        IsIdle result (D.asked dial.old) (D.asked dial.new) ⊎ Appended (D.asked dial.old) (a.server ∷ []) (D.asked dial.new) }
    ensures ran { (a : EventsWords) → events_call words.now ≡ Some a → result ≢ EventsEnd.Tool ToolEnd.Usage →
        RunsAsked D.links D.back K.held a result dial.old dial.new sink.old sink.new }

    // each end has its cause
    ensures dialled { CountsFault (result ≡ EventsEnd.Tool ToolEnd.DialFault) (D.faults dial.old) (D.faults dial.new) }
    ensures link { CountsFault (result ≡ EventsEnd.Tool ToolEnd.LinkFault) (D.hurt dial.old) (D.hurt dial.new) }
    ensures sink { CountsFault (result ≡ EventsEnd.Tool ToolEnd.SinkFault) (K.faults sink.old) (K.faults sink.new) }
{
    match call_of(alloc, words) {
        Ok(call) => events_on(alloc, &call, sink, dial),
        Err(OptionsFault::Usage) => EventsEnd::Tool(ToolEnd::Usage),
        Err(OptionsFault::OutOfMemory) => EventsEnd::Tool(ToolEnd::OutOfMemory),
    }
}
