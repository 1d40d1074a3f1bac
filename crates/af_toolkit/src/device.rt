// The device that a job names.
ghost use Rattle.std.specs.Prelude.{◌≡◌, length, slice_get, IfOk};
ghost use Rattle.af_request.specs.Replies.{IsDeviceInfo};
ghost use Rattle.af_toolkit.specs.Device.{device_or_end};

use crate::end::ToolEnd;
use af_io::Link;
use af_lib::Conn;
use af_request::DeviceInfo;

/// The device with this number.
pub fn device_with<L: Link + Drop>(conn: &Conn<L>, number: u8) -> Result<DeviceInfo, ToolEnd>
    ensures value { result ≡ device_or_end (slice_get conn.now.devices number) (length conn.now.devices) }
    ensures stated { IfOk result (λ device. IsDeviceInfo device) }
{
    let devices = conn.devices();
    match devices.get(usize::from(number)) {
        Some(device) => Ok(*device),
        None => Err(ToolEnd::NoDevice {
            devices: devices.len() as u8,
        }),
    }
}
