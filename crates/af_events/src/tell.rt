// Events are waited for, and told.
ghost use Rattle.std.specs.Prelude.{◌≡◌, ◌<◌, true, Err, IfErr};
ghost use Rattle.std.specs.declared.option.Option.TheVariants.{None};
ghost use Rattle.af_io.specs.Observed.{CountsFault};
ghost use Rattle.af_toolkit.specs.Ends.{is_of_link_or_sink, KeepsConnection};
ghost use Rattle.af_toolkit.specs.ToolParts.{GoesWriting};
ghost use Rattle.af_events.specs.Lines.{line_for};
ghost use Rattle.af_events.specs.Trace.{most_waits, tells, tells_one, GoesOnSink};

use crate::job::EventsJob;
use crate::line::write_event_line;
use af_io::{Link, Sink};
use af_lib::Conn;
use af_toolkit::{ToolEnd, write_piece};
use af_wire::Event;

/// Writes the line of an event if it is asked for, and answers how many are still to be told.
pub fn tell_one<K: Sink>(
    job: &EventsJob,
    left: u64,
    event: Event,
    sink: &mut K,
) -> Result<u64, ToolEnd>
    requires { 0 < left }
    ensures goes { GoesOnSink K.held sink.old sink.new (tells_one job.now left event) result }
    ensures fault { CountsFault (result ≡ Err ToolEnd.SinkFault) (K.faults sink.old) (K.faults sink.new) }
    ensures end { IfErr result (λ how. how ≡ ToolEnd.SinkFault) }
{
    if !job.asks_for(event) {
        return Ok(left);
    }
    let mut line = [0; 160];
    let length = write_event_line(&mut line, event);
    write_piece(sink, &line[..length])?;
    Ok(left - 1)
}

/// Waits for events and writes their lines, until so many are told.
pub fn tell<L: Link + Drop, K: Sink>(
    job: &EventsJob,
    count: u64,
    conn: &mut Conn<L>,
    sink: &mut K,
) -> Result<(), ToolEnd>
    requires usable { conn.old.cause ≡ None }
    requires some { 0 < count }
    ensures goes { GoesWriting L.left L.sent K.held conn.old conn.new sink.old sink.new (tells most_waits job.now count) result }
    ensures holds { KeepsConnection L.left L.faults conn.old conn.new result }
    ensures end { IfErr result (λ how. is_of_link_or_sink how ≡ true) }
    ensures fault { CountsFault (result ≡ Err ToolEnd.SinkFault) (K.faults sink.old) (K.faults sink.new) }
{
    let mut left = count;
    let mut allowed = u64::MAX;
    while allowed > 0 {
        let event = conn.wait_event()?;
        left = tell_one(job, left, event, sink)?;
        if left == 0 {
            return Ok(());
        }
        allowed -= 1;
    }
    Err(ToolEnd::EventFlood)
}
