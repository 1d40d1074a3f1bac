// arecord writes a sound file: a header, samples as the file codes them, and a pad byte that makes it even.
ghost use Rattle.std.specs.Prelude.{◌≡◌, ◌≢◌, ◌<◌, length, Err};
ghost use Rattle.std.specs.declared.option.Option.TheVariants.{Some};
ghost use Rattle.af_io.specs.Observed.{CountsFault};
ghost use Rattle.af_sound.specs.Written.{IsWritableHead};
ghost use Rattle.af_request.specs.Replies.{IsDeviceInfo};
ghost use Rattle.af_tools.specs.Record.{as_filed, coding_in, file_head, front_of_recording, pad_after, recorded_sound, recorded_type, stated_length, IsFiledAs};
ghost use Rattle.af_toolkit.specs.Ends.{Writes};
ghost use Rattle.af_tools.specs.Sounds.{AreWhole};

use crate::record::RecordedSound;
use af_cli::RecordJob;
use af_io::Sink;
use af_request::DeviceInfo;
use af_sample::SampleType;
use af_sound::{Coding, SoundForm, SoundHead, to_file, write_sound_head};
use af_toolkit::{ToolEnd, write_piece};

// The coding of a sample type in a file.
fn coding_in(form: SoundForm, ty: SampleType) -> Coding
    ensures { result ≡ coding_in form ty }
{
    match (ty, form) {
        (SampleType::Mu255, _) => Coding::Mu255,
        (SampleType::Alaw, _) => Coding::Alaw,
        (_, SoundForm::Au) => Coding::Lin16Big,
        (_, SoundForm::Wave) => Coding::Lin16Little,
    }
}

// The type that is recorded. No file has samples of 32 bits.
fn recorded_type(form: Option<SoundForm>, ty: SampleType) -> SampleType
    ensures { result ≡ recorded_type form ty }
{
    match (form, ty) {
        (Some(_), SampleType::Lin32) => SampleType::Lin16,
        _ => ty,
    }
}

/// What a job records on a device, and how it is written.
pub fn recorded_sound(job: &RecordJob, device: DeviceInfo) -> RecordedSound
    ensures value { result ≡ recorded_sound job.now device }
    ensures filed { IsFiledAs result.coding result.ty }
{
    let ty = recorded_type(job.form, job.ty.unwrap_or(device.ty));
    let coding = match job.form {
        Some(form) => Some(coding_in(form, ty)),
        None => None,
    };
    RecordedSound {
        ty,
        coding,
        channels: device.channels,
        horizon: device.horizon,
    }
}

// The length that a header states: that of all frames, if quiet cannot end the recording and the header can state it.
fn stated_length(job: &RecordJob, frame: usize) -> Option<u32>
    requires { frame < 16 }
    ensures { result ≡ stated_length job.now frame }
{
    let length = u64::from(job.frames) * frame as u64;
    if job.stop_peak == 0 && length < u64::from(u32::MAX) {
        Some(length as u32)
    } else {
        None
    }
}

// The header of a file.
fn file_head(form: SoundForm, job: &RecordJob, device: DeviceInfo) -> SoundHead
    requires shape { IsDeviceInfo device }
    ensures value { result ≡ file_head form job.now device }
    ensures writable { IsWritableHead form result }
{
    let sound = recorded_sound(job, device);
    SoundHead {
        coding: coding_in(form, sound.ty),
        rate: device.rate,
        channels: device.channels,
        length: stated_length(job, sound.frame_bytes()),
    }
}

/// Writes the header of a file, if it is to be one.
pub fn write_front<K: Sink>(
    sink: &mut K,
    job: &RecordJob,
    device: DeviceInfo,
) -> Result<(), ToolEnd>
    requires shape { IsDeviceInfo device }
    ensures written { Writes K.held (front_of_recording job.now device) result sink.old sink.new }
    ensures fault { CountsFault (result ≡ Err ToolEnd.SinkFault) (K.faults sink.old) (K.faults sink.new) }
{
    let Some(form) = job.form else {
        return Ok(());
    };
    let head = file_head(form, job, device);
    let mut room = [0; 44];
    let size = write_sound_head(form, &head, &mut room);
    write_piece(sink, &room[..size])
}

/// Turns samples into those of a file, if they are for one.
pub fn file_samples(coding: Option<Coding>, samples: &mut [u8])
    requires written { coding ≢ Some Coding.U8 }
    requires whole { AreWhole coding (length samples.old) }
    ensures { samples.new ≡ as_filed coding samples.old }
{
    if let Some(coding) = coding {
        to_file(coding, samples);
    }
}

/// Writes the byte that makes the sound of a WAVE file even, after so many bytes of it.
pub fn write_pad<K: Sink>(sink: &mut K, form: Option<SoundForm>, size: u64) -> Result<(), ToolEnd>
    ensures written { Writes K.held (pad_after form size) result sink.old sink.new }
    ensures fault { CountsFault (result ≡ Err ToolEnd.SinkFault) (K.faults sink.old) (K.faults sink.new) }
{
    match form {
        Some(SoundForm::Wave) if size % 2 == 1 => write_piece(sink, &[0]),
        _ => Ok(()),
    }
}
