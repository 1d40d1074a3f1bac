// What a job means on its device: pieces of so many frames, and how their samples are written.
ghost use Rattle.std.specs.Prelude.{◌≡◌, ◌≤◌};
ghost use Rattle.af_request.specs.Replies.{IsDeviceInfo};
ghost use Rattle.af_logger.specs.Plans.{coding_in, frame_size, plan_of, recorded_type, IsLogJob, IsPlan};

use crate::job::LogJob;
use af_cli::block_frames;
use af_request::DeviceInfo;
use af_sample::SampleType;
use af_sound::{Coding, SoundForm};

/// What is recorded on a device.
#[derive(Clone, Copy)]
pub struct Plan {
    pub form: Option<SoundForm>,
    pub ty: SampleType,
    /// How a file codes the samples, or none where they are handed on as they are.
    pub coding: Option<Coding>,
    pub channels: u8,
    pub rate: u32,
    /// The sample periods of the past that the server keeps.
    pub horizon: u32,
    /// The frames of a block.
    pub block: u32,
    /// The frames of a piece.
    pub frames: u32,
}

impl Plan {
    /// The bytes of a frame.
    pub fn frame_bytes(&self) -> usize
        ensures { result ≡ frame_size self.now }
    {
        self.ty.frame_bytes(self.channels)
    }
}

// The coding of a sample type in a file.
fn coding_in(form: SoundForm, ty: SampleType) -> Coding
    ensures { result ≡ coding_in form ty }
{
    match (ty, form) {
        (SampleType::Mu255, _) => Coding::Mu255,
        (SampleType::Alaw, _) => Coding::Alaw,
        (_, SoundForm::Au) => Coding::Lin16Big,
        (_, SoundForm::Wave) => Coding::Lin16Little,
    }
}

// The type that is recorded. No file has samples of 32 bits.
fn recorded_type(form: Option<SoundForm>, ty: SampleType) -> SampleType
    ensures { result ≡ recorded_type form ty }
{
    match (form, ty) {
        (Some(_), SampleType::Lin32) => SampleType::Lin16,
        _ => ty,
    }
}

/// What a job records on its device.
pub fn plan_of(job: &LogJob, device: DeviceInfo) -> Plan
    requires job { IsLogJob job.now }
    requires shape { IsDeviceInfo device }
    ensures value { result ≡ plan_of job.now device }
    ensures stands { IsPlan result }
{
    let ty = recorded_type(job.form, job.ty.unwrap_or(device.ty));
    let coding = match job.form {
        Some(form) => Some(coding_in(form, ty)),
        None => None,
    };
    Plan {
        form: job.form,
        ty,
        coding,
        channels: device.channels,
        rate: device.rate,
        horizon: device.horizon,
        block: block_frames(job.block, ty.frame_bytes(device.channels)),
        frames: job.every * device.rate,
    }
}
