// A relay: both servers are dialled, and blocks are passed between them.
ghost use Rattle.std.specs.Prelude.{◌≡◌, ◌≤◌, ◌⊎◌, ◌∷◌, [], ℕ, List, true, length};
ghost use Rattle.std.specs.declared.option.Option.TheVariants.{None, Some};
ghost use Rattle.af_io.specs.Observed.{CountsFault, Appended, FaultCounted};
ghost use Rattle.af_io.specs.Dial.{ToldLink};
ghost use Rattle.af_cli.specs.Ranges.{IsAddress, IsPaced};
ghost use Rattle.af_cli.specs.Words.{relay};
ghost use Rattle.af_toolkit.specs.Ends.{client_of};
ghost use Rattle.af_relay.specs.Pair.{is_of_pass};
ghost use Rattle.af_relay.specs.Pass.{both, doing, relay_of};
ghost use Rattle.af_relay.specs.RelayParts.{RelayDid, SendsBoth};
ghost use Rattle.af_tools.specs.Run.{is_of_dial, is_of_far, no_client, relays_to, AskedFor, JobRan, ReturnsBoth};
ghost use Rattle.af_cli.specs.Sizes.{greatest_play};

use crate::memory::Memory;
use af_cli::{PassJob, RelayCall};
use af_io::{Dial, Dialed, Link, Sink};
use af_lib::Conn;
use af_relay::apass;
use af_toolkit::ToolEnd;
use af_wire::Order;

// Sets the link to the other server up in a byte order, and passes blocks to it. The link comes back.
fn pass_over<L: Link + Drop, M: Link + Drop, K: Sink>(
    order: Order,
    job: &PassJob,
    conn: &mut Conn<L>,
    far: M,
    sink: &mut K,
    memory: &mut Memory,
) -> (ToolEnd, M)
    requires usable { conn.old.cause ≡ None }
    requires pace { IsPaced job.now }
    requires room { greatest_play ≤ length memory.old.room.items }
    ensures followed { (v : List ℕ) (link : ToldLink) → L.left conn.old.link ≡ Some v → M.left far ≡ Some link.gives →
        RelayDid (relay_of (relays_to order job.now (link ∷ []) conn.old.devices (both (client_of conn.old v) (no_client order))))
        result.0 (K.held sink.old) (K.held sink.new)
        (λ did. SendsBoth did (both (L.sent conn.old.link) (M.sent far)) (both (L.sent conn.new.link) (M.sent result.1))
        × (result.0 ≡ ToolEnd.OutOfMemory → did ≡ doing.nothing)) }
    ensures memory { result.0 ≡ ToolEnd.OutOfMemory → (L.sent conn.new.link ≡ L.sent conn.old.link)
        × (M.sent result.1 ≡ M.sent far) × (sink.new ≡ sink.old) }
    ensures end { is_of_far is_of_pass result.0 ≡ true }
    ensures link { result.0 ≡ ToolEnd.LinkFault →
        FaultCounted (L.faults conn.old.link) (L.faults conn.new.link) ⊎ FaultCounted (M.faults far) (M.faults result.1) }
    ensures from_count { L.faults conn.old.link ≤ L.faults conn.new.link }
    ensures sink { CountsFault (result.0 ≡ ToolEnd.SinkFault) (K.faults sink.old) (K.faults sink.new) }
{
    match Conn::connect(memory.alloc, far, order) {
        Ok(mut to) => {
            let end = apass(job, conn, &mut to, sink, &mut memory.room);
            (end, to.into_link())
        }
        Err((fault, far)) => (ToolEnd::from(fault), far),
    }
}

// Dials the other server, and passes blocks to it. Both links are given back.
fn run_to<K: Sink, D: Dial>(
    call: &RelayCall<'_>,
    mut conn: Conn<D::Far>,
    sink: &mut K,
    dial: &mut D,
    memory: &mut Memory,
) -> ToolEnd
    requires usable { conn.cause ≡ None }
    requires to { IsAddress call.now.to.now }
    requires pace { IsPaced call.now.job }
    requires room { greatest_play ≤ length memory.old.room.items }
    ensures ran { (v : List ℕ) (links : List ToldLink) → D.Far.Link.left conn.link ≡ Some v → D.links dial.old ≡ Some links →
        RelayDid (relay_of (relays_to call.now.order call.now.job links conn.devices
        (both (client_of conn v) (no_client call.now.order)))) result (K.held sink.old) (K.held sink.new)
        (λ did. ReturnsBoth (D.Far.Link.sent conn.link) links (D.links dial.new) did (D.back dial.old) (D.back dial.new)
        × (result ≡ ToolEnd.OutOfMemory → did ≡ doing.nothing)) }
    ensures asked { Appended (D.asked dial.old) (call.now.to.now ∷ []) (D.asked dial.new) }
    ensures memory { result ≡ ToolEnd.OutOfMemory → sink.new ≡ sink.old }
    ensures end { is_of_dial is_of_pass result ≡ true }
    ensures dialled { CountsFault (result ≡ ToolEnd.DialFault) (D.faults dial.old) (D.faults dial.new) }
    ensures undialled { result ≡ ToolEnd.DialFault → sink.new ≡ sink.old }
    ensures link { CountsFault (result ≡ ToolEnd.LinkFault) (D.hurt dial.old) (D.hurt dial.new) }
    ensures sink { CountsFault (result ≡ ToolEnd.SinkFault) (K.faults sink.old) (K.faults sink.new) }
{
    match dial.dial(call.to) {
        Dialed::Far(far) => {
            let (end, far) = pass_over(call.order, &call.job, &mut conn, far, sink, memory);
            dial.hang_up(conn.into_link());
            dial.hang_up(far);
            end
        }
        Dialed::Failed => {
            dial.hang_up(conn.into_link());
            ToolEnd::DialFault
        }
        Dialed::OutOfMemory => {
            dial.hang_up(conn.into_link());
            ToolEnd::OutOfMemory
        }
    }
}

/// Dials both servers of a relay, and passes blocks from the one to the other. The links are given back.
pub fn run_relay<K: Sink, D: Dial>(
    call: &RelayCall<'_>,
    sink: &mut K,
    dial: &mut D,
    memory: &mut Memory,
) -> ToolEnd
    requires servers { IsAddress call.now.from.now × IsAddress call.now.to.now }
    requires pace { IsPaced call.now.job }
    requires room { greatest_play ≤ length memory.old.room.items }
    ensures ran { (links : List ToldLink) (bytes : List ℕ) → D.links dial.old ≡ Some links →
        JobRan (relay call.now.from.now call.now.to.now call.now.order call.now.job) bytes result links (D.links dial.new)
        (K.held sink.old) (K.held sink.new) (D.back dial.old) (D.back dial.new) }
    ensures asked { AskedFor (call.now.from.now ∷ call.now.to.now ∷ []) result (D.asked dial.old) (D.asked dial.new) }
    ensures memory { result ≡ ToolEnd.OutOfMemory → sink.new ≡ sink.old }
    ensures end { is_of_dial is_of_pass result ≡ true }
    ensures dialled { CountsFault (result ≡ ToolEnd.DialFault) (D.faults dial.old) (D.faults dial.new) }
    ensures undialled { result ≡ ToolEnd.DialFault → sink.new ≡ sink.old }
    ensures link { CountsFault (result ≡ ToolEnd.LinkFault) (D.hurt dial.old) (D.hurt dial.new) }
    ensures sink { CountsFault (result ≡ ToolEnd.SinkFault) (K.faults sink.old) (K.faults sink.new) }
{
    match dial.dial(call.from) {
        Dialed::Far(far) => match Conn::connect(memory.alloc, far, call.order) {
            Ok(conn) => run_to(call, conn, sink, dial, memory),
            Err((fault, far)) => {
                dial.hang_up(far);
                ToolEnd::from(fault)
            }
        },
        Dialed::Failed => ToolEnd::DialFault,
        Dialed::OutOfMemory => ToolEnd::OutOfMemory,
    }
}
