// The replies of the server.
use af_limits::MOST_DEVICES;
use af_sample::{Gain, SampleType};
use af_time::DevTime;
use arrayvec::ArrayVec;

/// What the reply to a setup says of a device: its type of samples, its channels, whether it has a telephone line, its
/// rate in frames a second, and how many frames ahead it can be played to.
#[derive(Clone, Copy, Debug, PartialEq, Eq)]
pub struct DeviceInfo {
    pub ty: SampleType,
    pub channels: u8,
    pub line: bool,
    pub rate: u32,
    pub horizon: u32,
}

impl Default for DeviceInfo {
    ghost use Rattle.af_request.specs.Replies.{IsDeviceInfo};

    ghost is_default = { λ device. IsDeviceInfo device };

    /// A device that the reply to a setup may state. It fills the room of a `Devices` that is not used.
    fn default() -> DeviceInfo {
        DeviceInfo {
            ty: SampleType::Lin16,
            channels: 1,
            line: false,
            rate: 8000,
            horizon: 32000,
        }
    }
}

/// The devices of a server, by rising number.
pub type Devices = ArrayVec<DeviceInfo, MOST_DEVICES>;

/// The controls of a device.
#[derive(Clone, Copy, Debug, PartialEq, Eq)]
pub struct Controls {
    pub input_on: bool,
    pub output_on: bool,
    pub input_gain: Gain,
    pub output_gain: Gain,
}

/// The telephone line of a device: the hook as it is wanted and as it is, whether it rings, whether current flows in the
/// loop, and whether a hook switch has failed.
#[derive(Clone, Copy, Debug, PartialEq, Eq)]
pub struct Phone {
    pub wanted_off: bool,
    pub given_off: bool,
    pub ringing: bool,
    pub current: bool,
    pub dead: bool,
}

/// A reply. Its times are the device's at the moment of the reply.
#[derive(Debug, PartialEq, Drop)]
pub enum Reply<'a> {
    Setup { devices: Devices },
    Plain,
    Time { time: DevTime },
    Played { time: DevTime },
    Recorded { time: DevTime, samples: &'a [u8] },
    Controls { controls: Controls },
    Phone { phone: Phone },
}
