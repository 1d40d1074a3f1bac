// Asks for the state of a device.
ghost use Rattle.std.specs.Prelude.{◌≡◌, true, IfErr};
ghost use Rattle.std.specs.declared.option.Option.TheVariants.{None};
ghost use Rattle.af_toolkit.specs.Ends.{is_of_link, KeepsConnection};
ghost use Rattle.af_toolkit.specs.ToolParts.{GoesOver};
ghost use Rattle.af_standing.specs.ControlsReport.{asks_line, asks_controls_report};

use crate::controls_report::ControlsReport;
use af_io::Link;
use af_lib::Conn;
use af_request::Phone;
use af_toolkit::ToolEnd;

// The state of a device's line, if it has one.
fn phone_of<L: Link + Drop>(
    number: u8,
    line: bool,
    conn: &mut Conn<L>,
) -> Result<Option<Phone>, ToolEnd>
    requires { conn.old.cause ≡ None }
    ensures goes { GoesOver L.left L.sent conn.old conn.new (asks_line line number) result }
    ensures holds { KeepsConnection L.left L.faults conn.old conn.new result }
    ensures end { IfErr result (λ how. is_of_link how ≡ true) }
{
    if line {
        Ok(Some(conn.query_phone(number)?))
    } else {
        Ok(None)
    }
}

/// How the controls of a device stand, and its line, if it has one.
pub fn controls_report_of<L: Link + Drop>(
    number: u8,
    line: bool,
    conn: &mut Conn<L>,
) -> Result<ControlsReport, ToolEnd>
    requires { conn.old.cause ≡ None }
    ensures goes { GoesOver L.left L.sent conn.old conn.new (asks_controls_report line number) result }
    ensures holds { KeepsConnection L.left L.faults conn.old conn.new result }
    ensures end { IfErr result (λ how. is_of_link how ≡ true) }
{
    let controls = conn.query_controls(number)?;
    let phone = phone_of(number, line, conn)?;
    Ok(ControlsReport { controls, phone })
}
