// Requests that the tools have in common.
ghost use Rattle.std.specs.Prelude.{◌≡◌, true, IfErr};
ghost use Rattle.std.specs.declared.option.Option.TheVariants.{None};
ghost use Rattle.af_request.specs.Asked.{free_ac, get_time};
ghost use Rattle.af_lib.specs.Calls.{as_done, as_time, device_channels};
ghost use Rattle.af_toolkit.specs.Talk.{creates};
ghost use Rattle.af_toolkit.specs.Ends.{is_of_link, KeepsConnection};
ghost use Rattle.af_toolkit.specs.ToolParts.{asks, begins, GoesOver};

use crate::end::ToolEnd;
use af_io::Link;
use af_lib::Conn;
use af_sample::{Gain, SampleType};
use af_time::DevTime;

/// The number of a tool's context.
pub const CONTEXT: u32 = 1;

/// What a tool's context is to be.
#[derive(Clone, Copy)]
pub struct ToolContext {
    pub device: u8,
    pub ty: SampleType,
    pub play: Gain,
    pub record_by: Gain,
    pub preempt: bool,
}

/// Creates the context, with the channels of its device.
pub fn make_context<L: Link + Drop>(conn: &mut Conn<L>, context: ToolContext) -> Result<(), ToolEnd>
    requires { conn.old.cause ≡ None }
    ensures goes { GoesOver L.left L.sent conn.old conn.new
        (asks (creates (device_channels conn.old.devices context.device) context) as_done) result }
    ensures holds { KeepsConnection L.left L.faults conn.old conn.new result }
    ensures end { IfErr result (λ how. is_of_link how ≡ true) }
{
    conn.create_ac(
        CONTEXT,
        context.device,
        context.ty,
        context.play,
        context.record_by,
        context.preempt,
    )?;
    Ok(())
}

/// Asks for a device's time.
pub fn device_time<L: Link + Drop>(conn: &mut Conn<L>, device: u8) -> Result<DevTime, ToolEnd>
    requires { conn.old.cause ≡ None }
    ensures goes { GoesOver L.left L.sent conn.old conn.new (asks (get_time device) as_time) result }
    ensures holds { KeepsConnection L.left L.faults conn.old conn.new result }
    ensures end { IfErr result (λ how. is_of_link how ≡ true) }
{
    Ok(conn.get_time(device)?)
}

/// Creates the context, with the channels of its device, and asks for the device's time.
pub fn begin<L: Link + Drop>(conn: &mut Conn<L>, context: ToolContext) -> Result<DevTime, ToolEnd>
    requires { conn.old.cause ≡ None }
    ensures goes { GoesOver L.left L.sent conn.old conn.new
        (begins (creates (device_channels conn.old.devices context.device) context) context.device) result }
    ensures holds { KeepsConnection L.left L.faults conn.old conn.new result }
    ensures end { IfErr result (λ how. is_of_link how ≡ true) }
{
    let device = context.device;
    make_context(conn, context)?;
    device_time(conn, device)
}

/// Frees the context.
pub fn finish<L: Link + Drop>(conn: &mut Conn<L>) -> Result<(), ToolEnd>
    requires { conn.old.cause ≡ None }
    ensures goes { GoesOver L.left L.sent conn.old conn.new (asks (free_ac 1) as_done) result }
    ensures holds { KeepsConnection L.left L.faults conn.old conn.new result }
    ensures end { IfErr result (λ how. is_of_link how ≡ true) }
{
    conn.free_ac(CONTEXT)?;
    Ok(())
}
