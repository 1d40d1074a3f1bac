// The tool meter, by its arguments.
ghost use Rattle.std.specs.Prelude.{◌≡◌, ◌≢◌, ◌<◌, ◌≤◌, ◌⊎◌, ◌∷◌, [], true, length, ℕ, List, IfSome};
ghost use Rattle.std.specs.declared.option.Option.TheVariants.{None, Some};
ghost use Rattle.af_io.specs.Observed.{Appended, CountsFault, FaultCounted};
ghost use Rattle.af_cli.specs.Ranges.{IsAddress};
ghost use Rattle.af_cli.specs.Sizes.{greatest_block};
ghost use Rattle.af_meter.specs.Plans.{IsMeterJob};
ghost use Rattle.af_meter.specs.Trace.{count_of};
ghost use Rattle.af_meter.specs.MeterWords.{meter_call, is_meter_spelled, words_of_call, MeterWords};
ghost use Rattle.af_meter.specs.MeterRun.{IsIdle, RanOver, RunsAsked};

use crate::job::MeterJob;
use crate::metering::meter;
use crate::options::{MeterCall, call_of};
use af_cli::{GREATEST_BLOCK, OptionsFault};
use af_io::{Args, Dial, Dialed, Link, Sink};
use af_lib::Conn;
use af_toolkit::ToolEnd;
use af_wire::Order;
use std::alloc::Global;

// Room for the samples of a Record.
fn record_room(alloc: Global) -> Option<Vec<u8>>
    ensures { IfSome result (λ room. length room.items ≡ greatest_block) }
{
    vec![in alloc; 0u8; GREATEST_BLOCK].ok()
}

// Sets a link up in a byte order, and measures a device over it. The link comes back.
fn meter_over<L: Link + Drop, K: Sink>(
    alloc: Global,
    order: Order,
    job: &MeterJob,
    far: L,
    sink: &mut K,
    room: &mut [u8],
) -> (ToolEnd, L)
    requires job { IsMeterJob job.now }
    requires some { 0 < count_of job.now }
    requires room { greatest_block ≤ length room.old }
    ensures ran { (input : List ℕ) → L.left far ≡ Some input → RanOver order job.now input result.0
        (L.sent far) (L.sent result.1) (K.held sink.old) (K.held sink.new) }
    ensures end { (result.0 ≢ ToolEnd.Usage) × (result.0 ≢ ToolEnd.DialFault) }
    ensures link { result.0 ≡ ToolEnd.LinkFault → FaultCounted (L.faults far) (L.faults result.1) }
    ensures sink { CountsFault (result.0 ≡ ToolEnd.SinkFault) (K.faults sink.old) (K.faults sink.new) }
{
    match Conn::connect(alloc, far, order) {
        Ok(mut conn) => {
            let end = meter(job, &mut conn, sink, room);
            (end, conn.into_link())
        }
        Err((fault, far)) => (ToolEnd::from(fault), far),
    }
}

// Dials a server, and measures a device of it. The link is given back.
fn meter_at<K: Sink, D: Dial>(
    alloc: Global,
    call: &MeterCall<'_>,
    sink: &mut K,
    dial: &mut D,
    room: &mut [u8],
) -> ToolEnd
    requires job { IsMeterJob call.now.job }
    requires some { 0 < count_of call.now.job }
    requires server { IsAddress call.now.server.now }
    requires room { greatest_block ≤ length room.old }
    ensures ran { RunsAsked D.links D.back K.held (words_of_call call.now) result dial.old dial.new sink.old sink.new }
    ensures asked { Appended (D.asked dial.old) (call.now.server.now ∷ []) (D.asked dial.new) }
    ensures end { result ≢ ToolEnd.Usage }
    ensures dialled { CountsFault (result ≡ ToolEnd.DialFault) (D.faults dial.old) (D.faults dial.new) }
    ensures link { CountsFault (result ≡ ToolEnd.LinkFault) (D.hurt dial.old) (D.hurt dial.new) }
    ensures sink { CountsFault (result ≡ ToolEnd.SinkFault) (K.faults sink.old) (K.faults sink.new) }
{
    match dial.dial(call.server) {
        Dialed::Far(far) => {
            let (end, far) = meter_over(alloc, call.order, &call.job, far, sink, room);
            dial.hang_up(far);
            end
        }
        Dialed::Failed => ToolEnd::DialFault,
        Dialed::OutOfMemory => ToolEnd::OutOfMemory,
    }
}

/// The tool meter by its arguments; the first is its name. The server is dialled, its device is measured, and the link is given
/// back before any answer. All memory is taken before the first request.
pub fn meter_run<K: Sink, D: Dial>(
    alloc: Global,
    words: &Args,
    sink: &mut K,
    dial: &mut D,
) -> ToolEnd
    // valid arguments never get Usage; all others get it, except those that the command accepts as well
    ensures usage { is_meter_spelled words.now ≡ true → result ≢ ToolEnd.Usage }
    ensures other { meter_call words.now ≡ None →
        (result ≡ ToolEnd.Usage) ⊎ (result ≡ ToolEnd.OutOfMemory) }
    ensures untouched { result ≡ ToolEnd.Usage → (sink.new ≡ sink.old) × (dial.new ≡ dial.old) }
    ensures no_job { meter_call words.now ≡ None → (sink.new ≡ sink.old) × (dial.new ≡ dial.old) }

    // which server was dialled, unless memory ran out before; what was sent and written, of which frames, and when it is done
    ensures asked { (a : MeterWords) → meter_call words.now ≡ Some a → result ≢ ToolEnd.Usage →
        IsIdle result (D.asked dial.old) (D.asked dial.new) ⊎ Appended (D.asked dial.old) (a.server ∷ []) (D.asked dial.new) }
    ensures ran { (a : MeterWords) → meter_call words.now ≡ Some a → result ≢ ToolEnd.Usage →
        RunsAsked D.links D.back K.held a result dial.old dial.new sink.old sink.new }

    // each end has its cause
    ensures dialled { CountsFault (result ≡ ToolEnd.DialFault) (D.faults dial.old) (D.faults dial.new) }
    ensures link { CountsFault (result ≡ ToolEnd.LinkFault) (D.hurt dial.old) (D.hurt dial.new) }
    ensures sink { CountsFault (result ≡ ToolEnd.SinkFault) (K.faults sink.old) (K.faults sink.new) }
{
    let call = match call_of(alloc, words) {
        Ok(call) => call,
        Err(OptionsFault::Usage) => return ToolEnd::Usage,
        Err(OptionsFault::OutOfMemory) => return ToolEnd::OutOfMemory,
    };
    match record_room(alloc) {
        Some(mut room) => meter_at(alloc, &call, sink, dial, &mut room),
        None => ToolEnd::OutOfMemory,
    }
}
