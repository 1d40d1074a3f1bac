// A server is asked for the events that are wanted.
ghost use Rattle.std.specs.Prelude.{◌≡◌, true, IfErr};
ghost use Rattle.std.specs.declared.option.Option.TheVariants.{None};
ghost use Rattle.af_toolkit.specs.Ends.{is_of_link, KeepsConnection};
ghost use Rattle.af_toolkit.specs.ToolParts.{GoesOver};
ghost use Rattle.af_events.specs.Trace.{keeps_every, selects, selects_all, selects_from, selects_if};

use af_cli::{DeviceChoice, EventKinds};
use af_io::Link;
use af_lib::Conn;
use af_toolkit::ToolEnd;

// Asks for events of a device.
fn select<L: Link + Drop>(kinds: EventKinds, device: u8, conn: &mut Conn<L>) -> Result<(), ToolEnd>
    requires { conn.old.cause ≡ None }
    ensures goes { GoesOver L.left L.sent conn.old conn.new (selects kinds device) result }
    ensures holds { KeepsConnection L.left L.faults conn.old conn.new result }
    ensures end { IfErr result (λ how. is_of_link how ≡ true) }
{
    conn.select_events(device, kinds.mask())?;
    Ok(())
}

// Asks for events of a device if it has a line.
fn select_if<L: Link + Drop>(
    line: bool,
    kinds: EventKinds,
    device: u8,
    conn: &mut Conn<L>,
) -> Result<(), ToolEnd>
    requires { conn.old.cause ≡ None }
    ensures goes { GoesOver L.left L.sent conn.old conn.new (selects_if line kinds device) result }
    ensures holds { KeepsConnection L.left L.faults conn.old conn.new result }
    ensures end { IfErr result (λ how. is_of_link how ≡ true) }
{
    if line {
        select(kinds, device, conn)
    } else {
        Ok(())
    }
}

// Asks for events of each device that has a line.
fn select_lines<L: Link + Drop>(kinds: EventKinds, conn: &mut Conn<L>) -> Result<(), ToolEnd>
    requires { conn.old.cause ≡ None }
    ensures goes { GoesOver L.left L.sent conn.old conn.new (selects_from kinds 0 conn.old.devices) result }
    ensures holds { KeepsConnection L.left L.faults conn.old conn.new result }
    ensures end { IfErr result (λ how. is_of_link how ≡ true) }
{
    let count = conn.devices().len();
    for number in 0..count {
        let line = conn.devices()[number].line;
        select_if(line, kinds, number as u8, conn)?;
    }
    Ok(())
}

/// Asks for events of the devices that are wanted.
pub fn select_all<L: Link + Drop>(
    devices: DeviceChoice,
    kinds: EventKinds,
    conn: &mut Conn<L>,
) -> Result<(), ToolEnd>
    requires { conn.old.cause ≡ None }
    ensures goes { GoesOver L.left L.sent conn.old conn.new (selects_all devices kinds conn.old.devices) result }
    ensures holds { KeepsConnection L.left L.faults conn.old conn.new result }
    ensures end { IfErr result (λ how. is_of_link how ≡ true) }
{
    match devices {
        DeviceChoice::One(device) => select(kinds, device, conn),
        DeviceChoice::All => select_lines(kinds, conn),
    }
}

/// Ends the tool if an event was lost since the ring of the connection was full.
pub fn check_kept<L: Link + Drop>(conn: &Conn<L>) -> Result<(), ToolEnd>
    ensures goes { GoesOver L.left L.sent conn.now conn.now keeps_every result }
    ensures end { IfErr result (λ how. is_of_link how ≡ true) }
    ensures flood { IfErr result (λ how. how ≡ ToolEnd.EventFlood) }
{
    if conn.lost() == 0 {
        Ok(())
    } else {
        Err(ToolEnd::EventFlood)
    }
}
