// How long a job for a time goes on, by the time of a device.
ghost use Rattle.std.specs.Prelude.{◌≡◌, ◌<◌, ◌^◌, length};
ghost use Rattle.af_lib.specs.Calls.{device_channels};
ghost use Rattle.af_events.specs.Spans.{clock_device, first_line, frame_time, frames_of, is_at_end, is_over, span_of};
ghost use Rattle.af_events.specs.Trace.{clock_context};
ghost use Rattle.af_toolkit.specs.Talk.{creates};

use af_cli::DeviceChoice;
use af_request::DeviceInfo;
use af_sample::{Gain, SampleType};
use af_time::DevTime;
use af_toolkit::{ToolContext, time_after_frames};

/// So many milliseconds of a device's time.
#[derive(Clone, Copy)]
pub struct Span {
    pub device: u8,
    pub channels: u8,
    /// The frames of a second.
    pub rate: u32,
    pub milliseconds: u32,
}

impl Span {
    /// How many frames are waited for at most.
    pub fn frames(self) -> u64
        ensures value { result ≡ frames_of self }
        ensures few { result < 2 ^ 32 }
    {
        (u64::from(self.milliseconds) + 19) / 20
    }

    /// The time of the frame with this number, counted from 1 on.
    pub fn frame_time(self, start: DevTime, number: u64) -> DevTime
        requires { number < 2 ^ 32 }
        ensures { result.0 ≡ frame_time self start.0 number }
    {
        time_after_frames(start, u64::from(self.rate) * number / 50)
    }

    /// Whether so many milliseconds have gone by from the start to a time.
    pub fn is_over(self, start: DevTime, told: DevTime) -> bool
        ensures { result ≡ is_over self start.0 told.0 }
    {
        let frames = told.0.wrapping_sub(start.0);
        u64::from(self.milliseconds) * u64::from(self.rate) <= u64::from(frames) * 1000
    }

    /// Whether a job for a time is done, of which so many events are left to be told.
    pub fn is_at_end(self, start: DevTime, told: DevTime, left: u64) -> bool
        ensures { result ≡ is_at_end self start.0 told.0 left }
    {
        left == 0 || self.is_over(start, told)
    }

    /// The context on the device: the server is to give mu-law, of which a frame has a byte for each channel.
    pub fn context(self) -> ToolContext
        ensures asked { creates self.channels result ≡ clock_context self }
        ensures device { result.device ≡ self.device }
    {
        ToolContext {
            device: self.device,
            ty: SampleType::Mu255,
            play: Gain::default(),
            record_by: Gain::default(),
            preempt: false,
        }
    }
}

// The number of the first device that has a line.
fn first_line(devices: &[DeviceInfo]) -> u8
    requires { length devices.now < 256 }
    ensures { result ≡ first_line 0 devices.now }
{
    let mut number = 0;
    for device in devices {
        if device.line {
            return number;
        }
        number += 1;
    }
    0
}

// The device whose time counts.
fn clock_device(choice: DeviceChoice, devices: &[DeviceInfo]) -> u8
    requires { length devices.now < 256 }
    ensures { result ≡ clock_device choice devices.now }
{
    match choice {
        DeviceChoice::One(number) => number,
        DeviceChoice::All => first_line(devices),
    }
}

/// So many milliseconds of the time of the device that is named, or of the first that has a line.
pub fn span_of(milliseconds: u32, choice: DeviceChoice, devices: &[DeviceInfo]) -> Span
    requires { length devices.now < 256 }
    ensures value { result ≡ span_of milliseconds choice devices.now }
    ensures channels { device_channels devices.now result.device ≡ result.channels }
{
    let device = clock_device(choice, devices);
    match devices.get(usize::from(device)) {
        Some(info) => Span {
            device,
            channels: info.channels,
            rate: info.rate,
            milliseconds,
        },
        None => Span {
            device,
            channels: 1,
            rate: 0,
            milliseconds,
        },
    }
}
