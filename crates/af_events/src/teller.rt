// events: a line is written for each event of a telephone line.
ghost use Rattle.std.specs.Prelude.{◌≡◌, ◌<◌, ◌↔◌, ℕ, true, length, slice_get, Err, IfErr};
ghost use Rattle.std.specs.declared.option.Option.TheVariants.{None, Some};
ghost use Rattle.af_io.specs.Observed.{CountsFault};
ghost use Rattle.af_toolkit.specs.Ends.{is_of_link_or_sink, KeepsConnection};
ghost use Rattle.af_toolkit.specs.ToolParts.{GoesWriting};
ghost use Rattle.af_events.specs.Trace.{count_of, has_line, missing, missing_one, tells_all, tells_by};
ghost use Rattle.af_events.specs.Told.{is_of_events, RunsEvents};

use crate::during::tell_for;
use crate::end::EventsEnd;
use crate::job::EventsJob;
use crate::select::{check_kept, select_all};
use crate::span::span_of;
use crate::tell::tell;
use af_cli::DeviceChoice;
use af_io::{Link, Sink};
use af_lib::Conn;
use af_request::DeviceInfo;
use af_toolkit::ToolEnd;

// Whether a device has a line.
fn has_line(devices: &[DeviceInfo]) -> bool
    ensures { result ≡ has_line devices.now }
{
    for device in devices {
        if device.line {
            return true;
        }
    }
    false
}

// The end of the tool where a device is missing, or has no line.
fn missing_one(number: u8, devices: &[DeviceInfo]) -> Option<EventsEnd>
    requires { length devices.now < 256 }
    ensures { result ≡ missing_one number (slice_get devices.now number) (length devices.now) }
{
    match devices.get(usize::from(number)) {
        Some(device) if device.line => None,
        Some(_) => Some(EventsEnd::NoLine { device: number }),
        None => Some(EventsEnd::Tool(ToolEnd::NoDevice {
            devices: devices.len() as u8,
        })),
    }
}

// The end of the tool where what is wanted is missing.
fn missing<L: Link + Drop>(choice: DeviceChoice, conn: &Conn<L>) -> Option<EventsEnd>
    ensures { result ≡ missing choice conn.now.devices }
{
    let devices = conn.devices();
    match choice {
        DeviceChoice::One(number) => missing_one(number, devices),
        DeviceChoice::All if has_line(devices) => None,
        DeviceChoice::All => Some(EventsEnd::NoLine { device: 0 }),
    }
}

// Tells events for a time if one is stated, and else until the count is reached.
fn tell_by<L: Link + Drop, K: Sink>(
    job: &EventsJob,
    conn: &mut Conn<L>,
    sink: &mut K,
) -> Result<(), ToolEnd>
    requires usable { conn.old.cause ≡ None }
    requires some { 0 < count_of job.now }
    ensures goes { GoesWriting L.left L.sent K.held conn.old conn.new sink.old sink.new
        (tells_by job.now.lasting job.now conn.old.devices) result }
    ensures holds { KeepsConnection L.left L.faults conn.old conn.new result }
    ensures end { IfErr result (λ how. is_of_link_or_sink how ≡ true) }
    ensures fault { CountsFault (result ≡ Err ToolEnd.SinkFault) (K.faults sink.old) (K.faults sink.new) }
{
    match job.lasting {
        Some(milliseconds) => {
            let span = span_of(milliseconds, job.devices, conn.devices());
            tell_for(span, job, conn, sink)
        }
        None => tell(job, job.count(), conn, sink),
    }
}

// Asks for events of the devices that are wanted, and tells them.
fn tell_all<L: Link + Drop, K: Sink>(
    job: &EventsJob,
    conn: &mut Conn<L>,
    sink: &mut K,
) -> Result<(), ToolEnd>
    requires usable { conn.old.cause ≡ None }
    requires some { 0 < count_of job.now }
    ensures goes { GoesWriting L.left L.sent K.held conn.old conn.new sink.old sink.new
        (tells_all job.now conn.old.devices) result }
    ensures holds { KeepsConnection L.left L.faults conn.old conn.new result }
    ensures end { IfErr result (λ how. is_of_link_or_sink how ≡ true) }
    ensures fault { CountsFault (result ≡ Err ToolEnd.SinkFault) (K.faults sink.old) (K.faults sink.new) }
{
    select_all(job.devices, job.kinds, conn)?;
    check_kept(conn)?;
    tell_by(job, conn, sink)
}

/// Asks for events of the telephone line of a device, or of each that has a line, and writes a line for each event, until so many
/// are told or so much time has gone by. The connection is one that was just made.
pub fn events<L: Link + Drop, K: Sink>(
    job: &EventsJob,
    conn: &mut Conn<L>,
    sink: &mut K,
) -> EventsEnd
    requires usable { conn.old.cause ≡ None }
    requires some { 0 < count_of job.now }

    // what was sent and written, which events came, and when it is done
    ensures ran { RunsEvents L.left L.sent K.held job.now result conn.old conn.new sink.old sink.new }

    // each end has its cause: NoDevice, with the number of devices, and NoLine exactly if what is wanted is missing so
    ensures end { is_of_events result ≡ true }
    ensures no_device { (n : ℕ) → (result ≡ EventsEnd.Tool (ToolEnd.NoDevice n))
        ↔ (missing job.now.devices conn.old.devices ≡ Some (EventsEnd.Tool (ToolEnd.NoDevice n))) }
    ensures no_line { (n : ℕ) → (result ≡ EventsEnd.NoLine n)
        ↔ (missing job.now.devices conn.old.devices ≡ Some (EventsEnd.NoLine n)) }
    ensures link { CountsFault (result ≡ EventsEnd.Tool ToolEnd.LinkFault) (L.faults conn.old.link) (L.faults conn.new.link) }
    ensures sink { CountsFault (result ≡ EventsEnd.Tool ToolEnd.SinkFault) (K.faults sink.old) (K.faults sink.new) }
{
    if let Some(end) = missing(job.devices, conn) {
        return end;
    }
    match tell_all(job, conn, sink) {
        Ok(()) => EventsEnd::Tool(ToolEnd::Done),
        Err(end) => EventsEnd::Tool(end),
    }
}
