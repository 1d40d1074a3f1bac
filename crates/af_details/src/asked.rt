// A request to a server, in words.
use af_request::Request;
use af_sample::SampleType;
use af_time::DevTime;
use std::fmt;
use std::fmt::{Formatter, Write};

/// What a server was asked.
#[derive(Clone, Copy, Debug, PartialEq, Eq)]
pub enum Asked {
    Setup,
    Nothing,
    Time { device: u8 },
    Context { device: u8, ty: u8, channels: u8 },
    Settings,
    Free,
    Play { frames: u32, time: DevTime },
    Record { frames: u32, time: DevTime },
    Events { device: u8 },
    SetControls { device: u8 },
    Controls { device: u8 },
    Hook { device: u8, off: bool },
    Line { device: u8 },
}

impl Asked {
    /// What a request asks, of a context whose frames have so many bytes.
    pub fn by(request: &Request<'_>, frame: usize) -> Asked {
        match request {
            Request::NoOp => Asked::Nothing,
            Request::GetTime { device } => Asked::Time { device: *device },
            Request::CreateAc {
                device,
                ty,
                channels,
                ..
            } => Asked::Context {
                device: *device,
                ty: *ty,
                channels: *channels,
            },
            Request::ChangeAc { .. } => Asked::Settings,
            Request::FreeAc { .. } => Asked::Free,
            Request::PlayRun { time, samples, .. } => Asked::Play {
                frames: frames_in(samples.len(), frame),
                time: *time,
            },
            Request::RecordRun { time, nbytes, .. } => Asked::Record {
                frames: frames_in(*nbytes as usize, frame),
                time: *time,
            },
            Request::SelectEvents { device, .. } => Asked::Events { device: *device },
            Request::SetControls { device, .. } => Asked::SetControls { device: *device },
            Request::QueryControls { device } => Asked::Controls { device: *device },
            Request::HookSwitch { device, off } => Asked::Hook {
                device: *device,
                off: *off == 1,
            },
            Request::QueryPhone { device } => Asked::Line { device: *device },
        }
    }
}

// How many frames so many bytes have.
fn frames_in(bytes: usize, frame: usize) -> u32 {
    match bytes.checked_div(frame) {
        Some(frames) => u32::try_from(frames).unwrap_or(u32::MAX),
        None => 0,
    }
}

/// The name of a type of samples.
pub fn type_name<'a>(ty: SampleType) -> &'a str {
    match ty {
        SampleType::Mu255 => "mu255",
        SampleType::Alaw => "alaw",
        SampleType::Lin16 => "lin16",
        SampleType::Lin32 => "lin32",
    }
}

/// The name of a type of samples, by its code.
pub fn coded_name<'a>(code: u8) -> &'a str {
    match SampleType::of_code(code) {
        Some(ty) => type_name(ty),
        None => "an unknown type",
    }
}

/// How many channels, in words.
pub fn channels_text<'a>(channels: u8) -> &'a str {
    match channels {
        1 => "one channel",
        2 => "two channels",
        _ => "more than two channels",
    }
}

impl fmt::Display for Asked {
    fn fmt<W: Write>(&self, f: &mut Formatter<W>) -> fmt::Result {
        match self {
            Asked::Setup => write!(f, "for its devices"),
            Asked::Nothing => write!(f, "nothing"),
            Asked::Time { device } => write!(f, "for the time of device {device}"),
            Asked::Context {
                device,
                ty,
                channels,
            } => {
                let ty = coded_name(*ty);
                let channels = channels_text(*channels);
                write!(f, "for a context on device {device}, of {ty} in {channels}")
            }
            Asked::Settings => write!(f, "to change the settings of the context"),
            Asked::Free => write!(f, "to free the context"),
            Asked::Play { frames, time } => {
                let time = time.0;
                write!(f, "to play {frames} frames at {time}")
            }
            Asked::Record { frames, time } => {
                let time = time.0;
                write!(f, "to record {frames} frames at {time}")
            }
            Asked::Events { device } => {
                write!(f, "to tell what happens on the line of device {device}")
            }
            Asked::SetControls { device } => write!(f, "to set the controls of device {device}"),
            Asked::Controls { device } => write!(f, "for the controls of device {device}"),
            Asked::Hook { device, off: true } => {
                write!(f, "to take the hook of device {device} off")
            }
            Asked::Hook { device, off: false } => {
                write!(f, "to put the hook of device {device} on")
            }
            Asked::Line { device } => write!(f, "for the line of device {device}"),
        }
    }
}
