// What aset asks.
ghost use Rattle.std.specs.Prelude.{◌≡◌, true, IfErr};
ghost use Rattle.std.specs.declared.option.Option.TheVariants.{None};
ghost use Rattle.af_toolkit.specs.Ends.{is_of_link, KeepsConnection};
ghost use Rattle.af_toolkit.specs.ToolParts.{GoesOver};
ghost use Rattle.af_tools.specs.Set.{asks_if, control_request, hook_request, sets_on, states_controls};

use af_cli::SetJob;
use af_io::Link;
use af_lib::Conn;
use af_request::DeviceInfo;
use af_standing::{ControlsReport, controls_report_of};
use af_toolkit::ToolEnd;

// Whether a job states a control.
fn states_controls(job: &SetJob) -> bool
    ensures { result ≡ states_controls job.now }
{
    job.input_gain.is_some()
        || job.output_gain.is_some()
        || job.input_on.is_some()
        || job.output_on.is_some()
}

// Sets the controls that a job states.
fn set_controls<L: Link + Drop>(job: &SetJob, conn: &mut Conn<L>) -> Result<(), ToolEnd>
    requires { conn.old.cause ≡ None }
    ensures goes { GoesOver L.left L.sent conn.old conn.new (asks_if (control_request job.now)) result }
    ensures holds { KeepsConnection L.left L.faults conn.old conn.new result }
    ensures end { IfErr result (λ how. is_of_link how ≡ true) }
{
    if states_controls(job) {
        conn.set_controls(
            job.device,
            job.input_gain,
            job.output_gain,
            job.input_on,
            job.output_on,
        )?;
    }
    Ok(())
}

// Takes the hook off or puts it on, if a job states that.
fn set_hook<L: Link + Drop>(job: &SetJob, conn: &mut Conn<L>) -> Result<(), ToolEnd>
    requires { conn.old.cause ≡ None }
    ensures goes { GoesOver L.left L.sent conn.old conn.new (asks_if (hook_request job.now)) result }
    ensures holds { KeepsConnection L.left L.faults conn.old conn.new result }
    ensures end { IfErr result (λ how. is_of_link how ≡ true) }
{
    if let Some(off) = job.hook_off {
        conn.hook(job.device, off)?;
    }
    Ok(())
}

/// Sets what a job states on a device, and asks how the controls stand then, and the line.
pub fn set_on<L: Link + Drop>(
    job: &SetJob,
    device: DeviceInfo,
    conn: &mut Conn<L>,
) -> Result<ControlsReport, ToolEnd>
    requires { conn.old.cause ≡ None }
    ensures goes { GoesOver L.left L.sent conn.old conn.new (sets_on job.now device) result }
    ensures holds { KeepsConnection L.left L.faults conn.old conn.new result }
    ensures end { IfErr result (λ how. is_of_link how ≡ true) }
{
    set_controls(job, conn)?;
    set_hook(job, conn)?;
    controls_report_of(job.device, device.line, conn)
}
