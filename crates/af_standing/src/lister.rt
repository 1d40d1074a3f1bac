// list: a line for each device of the server is written to the sink.
ghost use Rattle.std.specs.Prelude.{◌≡◌, ℕ, List, true, Err, IfErr};
ghost use Rattle.std.specs.declared.option.Option.TheVariants.{None, Some};
ghost use Rattle.af_io.specs.Observed.{CountsFault};
ghost use Rattle.af_toolkit.specs.Ends.{client_of, is_of_link, is_of_link_or_sink, KeepsConnection, Writes};
ghost use Rattle.af_toolkit.specs.ToolParts.{GoesWriting};
ghost use Rattle.af_standing.specs.List.{device_line, is_of_list, tells_device, tells_from, ListsInStep, RunsInStep, RunsList};

use crate::ask::controls_report_of;
use crate::controls_report::ControlsReport;
use crate::line::write_device_line;
use af_io::{Link, Sink};
use af_lib::Conn;
use af_request::DeviceInfo;
use af_time::DevTime;
use af_toolkit::{ToolEnd, device_time, write_piece};

// Writes the line of a device.
fn report<K: Sink>(
    sink: &mut K,
    number: u8,
    device: DeviceInfo,
    controls_report: ControlsReport,
    now: DevTime,
) -> Result<(), ToolEnd>
    ensures written { Writes K.held (device_line number device controls_report now.0) result sink.old sink.new }
    ensures fault { CountsFault (result ≡ Err ToolEnd.SinkFault) (K.faults sink.old) (K.faults sink.new) }
    ensures end { IfErr result (λ how. how ≡ ToolEnd.SinkFault) }
{
    let mut line = [0; 297];
    let length = write_device_line(&mut line, number, device, controls_report, now);
    write_piece(sink, &line[..length])
}

// Asks for the state of a device and for its time, and writes its line.
fn tell_device<L: Link + Drop, K: Sink>(
    number: u8,
    device: DeviceInfo,
    conn: &mut Conn<L>,
    sink: &mut K,
) -> Result<(), ToolEnd>
    requires { conn.old.cause ≡ None }
    ensures goes { GoesWriting L.left L.sent K.held conn.old conn.new sink.old sink.new
        (tells_device number device) result }
    ensures holds { KeepsConnection L.left L.faults conn.old conn.new result }
    ensures end { IfErr result (λ how. is_of_link_or_sink how ≡ true) }
    ensures fault { CountsFault (result ≡ Err ToolEnd.SinkFault) (K.faults sink.old) (K.faults sink.new) }
    ensures kept { IfErr result (λ how. is_of_link how ≡ true → sink.new ≡ sink.old) }
{
    let controls_report = controls_report_of(number, device.line, conn)?;
    let now = device_time(conn, number)?;
    report(sink, number, device, controls_report, now)
}

// Writes a line for each device, in the order of their numbers.
fn tell_devices<L: Link + Drop, K: Sink>(conn: &mut Conn<L>, sink: &mut K) -> Result<(), ToolEnd>
    requires { conn.old.cause ≡ None }
    ensures goes { GoesWriting L.left L.sent K.held conn.old conn.new sink.old sink.new
        (tells_from 0 conn.old.devices) result }
    ensures step { (input : List ℕ) → L.left conn.old.link ≡ Some input → ListsInStep conn.old.devices (client_of conn.old input)
        (result ≡ Err ToolEnd.SinkFault) (L.sent conn.old.link) (L.sent conn.new.link) (K.held sink.old) (K.held sink.new) }
    ensures holds { KeepsConnection L.left L.faults conn.old conn.new result }
    ensures end { IfErr result (λ how. is_of_link_or_sink how ≡ true) }
    ensures fault { CountsFault (result ≡ Err ToolEnd.SinkFault) (K.faults sink.old) (K.faults sink.new) }
{
    let count = conn.devices().len();
    for number in 0..count {
        let device = conn.devices()[number];
        tell_device(number as u8, device, conn, sink)?;
    }
    Ok(())
}

/// Asks of each device of the server how its controls stand, and its line where it has one, and for its time, and writes a line
/// for it. The connection is one that was just made.
pub fn list<L: Link + Drop, K: Sink>(conn: &mut Conn<L>, sink: &mut K) -> ToolEnd
    requires { conn.old.cause ≡ None }

    // what was sent and written, and when it is done
    ensures ran { RunsList L.left L.sent K.held result conn.old conn.new sink.old sink.new }

    // in what order it asked and wrote
    ensures step { RunsInStep L.left L.sent K.held result conn.old conn.new sink.old sink.new }

    // each end has its cause
    ensures end { is_of_list result ≡ true }
    ensures link { CountsFault (result ≡ ToolEnd.LinkFault) (L.faults conn.old.link) (L.faults conn.new.link) }
    ensures sink { CountsFault (result ≡ ToolEnd.SinkFault) (K.faults sink.old) (K.faults sink.new) }
{
    match tell_devices(conn, sink) {
        Ok(()) => ToolEnd::Done,
        Err(end) => end,
    }
}
