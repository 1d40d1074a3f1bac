// Events are told for a time: those that came, and then those that come until each of a row of frames has gone by.
ghost use Rattle.std.specs.Prelude.{◌≡◌, ◌<◌, ◌≤◌, length, true, Err, IfErr};
ghost use Rattle.std.specs.declared.option.Option.TheVariants.{None};
ghost use Rattle.af_io.specs.Observed.{CountsFault};
ghost use Rattle.af_lib.specs.Calls.{device_channels};
ghost use Rattle.af_toolkit.specs.Ends.{is_of_link, is_of_link_or_sink, KeepsConnection};
ghost use Rattle.af_toolkit.specs.ToolParts.{GoesOver, GoesWriting};
ghost use Rattle.af_events.specs.Trace.{count_of, hears_frame, tells_during, tells_for, tells_kept, tells_ring};

use crate::job::EventsJob;
use crate::select::check_kept;
use crate::span::Span;
use crate::tell::tell_one;
use af_io::{Link, Sink};
use af_lib::Conn;
use af_time::DevTime;
use af_toolkit::{CONTEXT, ToolEnd, begin, finish};

// Waits until the frame of a time has gone by, and answers the time that the reply tells. The frame comes into the room.
fn hear_frame<L: Link + Drop>(
    conn: &mut Conn<L>,
    at: DevTime,
    channels: u8,
    room: &mut [u8],
) -> Result<DevTime, ToolEnd>
    requires usable { conn.old.cause ≡ None }
    requires room { 256 ≤ length room.old }
    ensures goes { GoesOver L.left L.sent conn.old conn.new (hears_frame channels at.0) result }
    ensures holds { KeepsConnection L.left L.faults conn.old conn.new result }
    ensures end { IfErr result (λ how. is_of_link how ≡ true) }
{
    let frame = usize::from(channels);
    let reply = conn.record_run(CONTEXT, at, true, &mut room[..frame])?;
    Ok(reply.0)
}

// Waits until the frame of a time has gone by. A frame of mu-law has a byte for each channel.
fn wait_frame<L: Link + Drop>(
    conn: &mut Conn<L>,
    at: DevTime,
    channels: u8,
) -> Result<DevTime, ToolEnd>
    requires usable { conn.old.cause ≡ None }
    ensures goes { GoesOver L.left L.sent conn.old conn.new (hears_frame channels at.0) result }
    ensures holds { KeepsConnection L.left L.faults conn.old conn.new result }
    ensures end { IfErr result (λ how. is_of_link how ≡ true) }
{
    let mut room = [0; 256];
    hear_frame(conn, at, channels, &mut room)
}

// Tells the events that the connection keeps, the oldest first, until so many are told. It answers how many are still to be told.
fn tell_kept<L: Link + Drop, K: Sink>(
    job: &EventsJob,
    count: u64,
    conn: &mut Conn<L>,
    sink: &mut K,
) -> Result<u64, ToolEnd>
    requires usable { conn.old.cause ≡ None }
    requires some { 0 < count }
    ensures goes { GoesWriting L.left L.sent K.held conn.old conn.new sink.old sink.new (tells_kept job.now count) result }
    ensures holds { KeepsConnection L.left L.faults conn.old conn.new result }
    ensures end { IfErr result (λ how. is_of_link_or_sink how ≡ true) }
    ensures fault { CountsFault (result ≡ Err ToolEnd.SinkFault) (K.faults sink.old) (K.faults sink.new) }
{
    let mut left = count;
    while let Some(event) = conn.next_event() {
        left = tell_one(job, left, event, sink)?;
        if left == 0 {
            return Ok(0);
        }
    }
    Ok(left)
}

// The same, if none was lost.
fn tell_ring<L: Link + Drop, K: Sink>(
    job: &EventsJob,
    count: u64,
    conn: &mut Conn<L>,
    sink: &mut K,
) -> Result<u64, ToolEnd>
    requires usable { conn.old.cause ≡ None }
    requires some { 0 < count }
    ensures goes { GoesWriting L.left L.sent K.held conn.old conn.new sink.old sink.new (tells_ring job.now count) result }
    ensures holds { KeepsConnection L.left L.faults conn.old conn.new result }
    ensures end { IfErr result (λ how. is_of_link_or_sink how ≡ true) }
    ensures fault { CountsFault (result ≡ Err ToolEnd.SinkFault) (K.faults sink.old) (K.faults sink.new) }
{
    check_kept(conn)?;
    tell_kept(job, count, conn, sink)
}

// Tells events from a time of the device on, until so many are told or the time is over.
fn tell_during<L: Link + Drop, K: Sink>(
    span: Span,
    start: DevTime,
    job: &EventsJob,
    conn: &mut Conn<L>,
    sink: &mut K,
) -> Result<(), ToolEnd>
    requires usable { conn.old.cause ≡ None }
    requires some { 0 < count_of job.now }
    ensures goes { GoesWriting L.left L.sent K.held conn.old conn.new sink.old sink.new
        (tells_during span start.0 job.now) result }
    ensures holds { KeepsConnection L.left L.faults conn.old conn.new result }
    ensures end { IfErr result (λ how. is_of_link_or_sink how ≡ true) }
    ensures fault { CountsFault (result ≡ Err ToolEnd.SinkFault) (K.faults sink.old) (K.faults sink.new) }
{
    let frames = span.frames();
    let mut waited = 0;
    let mut told = start;
    let mut left = job.count();
    while waited < frames {
        left = tell_ring(job, left, conn, sink)?;
        if span.is_at_end(start, told, left) {
            return Ok(());
        }
        waited += 1;
        told = wait_frame(conn, span.frame_time(start, waited), span.channels)?;
    }
    tell_ring(job, left, conn, sink)?;
    Ok(())
}

/// Tells events for a time: the context is made that tells it, and is freed at the end.
pub fn tell_for<L: Link + Drop, K: Sink>(
    span: Span,
    job: &EventsJob,
    conn: &mut Conn<L>,
    sink: &mut K,
) -> Result<(), ToolEnd>
    requires usable { conn.old.cause ≡ None }
    requires channels { device_channels conn.old.devices span.device ≡ span.channels }
    requires some { 0 < count_of job.now }
    ensures goes { GoesWriting L.left L.sent K.held conn.old conn.new sink.old sink.new (tells_for span job.now) result }
    ensures holds { KeepsConnection L.left L.faults conn.old conn.new result }
    ensures end { IfErr result (λ how. is_of_link_or_sink how ≡ true) }
    ensures fault { CountsFault (result ≡ Err ToolEnd.SinkFault) (K.faults sink.old) (K.faults sink.new) }
{
    let start = begin(conn, span.context())?;
    tell_during(span, start, job, conn, sink)?;
    finish(conn)
}
