// What a script states: its devices, and its steps.
ghost use Rattle.std.specs.Prelude.{◌≡◌};
ghost use Rattle.af_world.specs.Outside.{spec_has_line};

use crate::Bytes;
use af_limits::MOST_DEVICES;
use af_phone::LineChange;
use af_sample::SampleType;
use arrayvec::ArrayVec;

/// A device of a configuration: its sample type, its rate in frames a second, the device time at which it starts, its channels,
/// one or two, and whether it has a telephone line.
#[derive(Clone, Copy, Debug, PartialEq, Eq)]
pub struct DeviceSpec {
    pub ty: SampleType,
    pub rate: u32,
    pub start: u32,
    pub channels: u8,
    pub line: bool,
}

impl Default for DeviceSpec {
    fn default() -> Self {
        DeviceSpec {
            ty: SampleType::Lin16,
            rate: 8000,
            start: 0,
            channels: 1,
            line: false,
        }
    }
}

/// The devices of a server, 1 to 8, which are numbered from 0.
pub type Config = ArrayVec<DeviceSpec, MOST_DEVICES>;

/// Whether a device has a telephone line. A device that does not exist has none.
pub fn has_line(config: &[DeviceSpec], device: u8) -> bool
    ensures { result ≡ spec_has_line config.now device }
{
    match config.get(device as usize) {
        Some(device) => device.line,
        None => false,
    }
}

/// A step of a script.
#[derive(Drop)]
pub enum Step {
    /// A link is opened, with nothing to give.
    Open(u8),
    /// These bytes are added to what a link gives.
    Send(u8, Bytes),
    /// A link ends after the bytes that it gives.
    End(u8),
    /// From now on a link takes n bytes in all, or every byte.
    Room(u8, Option<u32>),
    /// So many sample periods of a device go by. These bytes are what it captures, or else silence.
    Tick(u8, u32, Option<Bytes>),
    /// The line of a device changes.
    Line(u8, LineChange),
    /// The next read of a link fails.
    FailRead(u8),
    /// The next write to a link fails.
    FailWrite(u8),
    /// The next capture of a device fails.
    FailCapture(u8),
    /// The next emit of a device fails.
    FailEmit(u8),
    /// The next hook call on a device fails.
    FailHook(u8),
    Idle,
}
