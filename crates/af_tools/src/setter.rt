// aset: sets controls and a hook, and writes the state of the device to the sink.
ghost use Rattle.std.specs.Prelude.{◌≡◌, true, false};
ghost use Rattle.std.specs.declared.option.Option.{Option};
ghost use Rattle.std.specs.declared.option.Option.TheVariants.{None};
ghost use Rattle.af_io.specs.Observed.{CountsFault};
ghost use Rattle.af_toolkit.specs.Ends.{is_of_report, Reports};
ghost use Rattle.af_standing.specs.ControlsReport.{controls_report_text};
ghost use Rattle.af_tools.specs.Set.{aset_trace};
ghost use Rattle.af_tools.specs.Reading.{is_of_tool, LacksDevice, RunsTool};

use crate::set::set_on;
use af_cli::SetJob;
use af_io::{Link, Sink};
use af_lib::Conn;
use af_standing::{ControlsReport, write_controls_report};
use af_toolkit::{ToolEnd, device_with, write_text};

// Writes the state of a device.
fn report<K: Sink>(sink: &mut K, controls_report: ControlsReport) -> ToolEnd
    ensures followed { Reports K.held (controls_report_text controls_report) result sink.old sink.new }
    ensures end { is_of_report result ≡ true }
    ensures fault { CountsFault (result ≡ ToolEnd.SinkFault) (K.faults sink.old) (K.faults sink.new) }
{
    let mut text = [0; 136];
    let length = write_controls_report(&mut text, controls_report);
    write_text(sink, &text[..length])
}

/// Sets the controls of a device and its hook that are stated, and then writes how the controls stand, and the line where the
/// device has one. The connection is one that was just made.
pub fn aset<L: Link + Drop, K: Sink>(job: &SetJob, conn: &mut Conn<L>, sink: &mut K) -> ToolEnd
    requires { conn.old.cause ≡ None }

    // what was sent and written, and when it is done
    ensures ran { RunsTool L.left L.sent K.held (λ w. aset_trace job.now conn.old.devices w)
        job.now.device false result conn.old conn.new sink.old sink.new }

    // each end has its cause
    ensures end { is_of_tool false false result ≡ true }
    ensures no_device { LacksDevice job.now.device conn.old.devices result }
    ensures link { CountsFault (result ≡ ToolEnd.LinkFault) (L.faults conn.old.link) (L.faults conn.new.link) }
    ensures sink { CountsFault (result ≡ ToolEnd.SinkFault) (K.faults sink.old) (K.faults sink.new) }
{
    let device = match device_with(conn, job.device) {
        Ok(device) => device,
        Err(end) => return end,
    };
    match set_on(job, device, conn) {
        Ok(controls_report) => report(sink, controls_report),
        Err(end) => end,
    }
}
