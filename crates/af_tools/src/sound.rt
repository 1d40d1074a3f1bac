// The sound that a source gives to play: samples, or a sound file.
ghost use Rattle.std.specs.Prelude.{◌≡◌, ◌≤◌, ◌*◌, ℕ, List, [], length, take, true, IfErr, IfOk, IsErrOf, IsSome, unwrap_or};
ghost use Rattle.std.specs.declared.option.Option.TheVariants.{None, Some};
ghost use Rattle.af_io.specs.Observed.{CountsFault};
ghost use Rattle.af_toolkit.specs.Parts.{end_among};
ghost use Rattle.af_toolkit.specs.Trace.{tool_end};
ghost use Rattle.af_tools.specs.Sounds.{file_sound, fits_device, raw_sound, served_type, source_width, IsServedAs};
ghost use Rattle.af_tools.specs.Reading.{is_of_front, is_of_sound, ConsumedHead, EndShows, HeadCame, SoundCame};
ghost use Rattle.af_tools.specs.Steps.{GaveHead};

use crate::play::MOST_BYTES;
use af_cli::PlayJob;
use af_io::{Got, Source};
use af_request::DeviceInfo;
use af_sample::SampleType;
use af_sound::{Coding, HeadReader, HeadStep, SoundForm, SoundHead};
use af_toolkit::ToolEnd;

/// The samples that a source gives, after the bytes that were read of it.
#[derive(Clone, Copy, Debug, PartialEq, Eq)]
pub struct SourceSound {
    /// The type that the device takes them as.
    pub ty: SampleType,
    /// The channels of a frame, those of the device.
    pub channels: u8,
    /// How a file codes them, or none where the bytes of the source are the samples.
    pub coding: Option<Coding>,
    /// The bytes of the header, which were read.
    pub head: u64,
    /// The bytes of the sound, if the header states that.
    pub length: Option<u32>,
}

impl SourceSound {
    /// The bytes of a frame in the source.
    pub fn width(self) -> usize
        ensures { result ≡ source_width self.coding self.ty self.channels }
    {
        let sample = match self.coding {
            Some(Coding::Lin16Big | Coding::Lin16Little) => 2,
            Some(Coding::Mu255 | Coding::Alaw | Coding::U8) => 1,
            None => self.ty.width(),
        };
        sample * usize::from(self.channels)
    }
}

// The header of a file, and how many bytes it has.
#[derive(Clone, Copy)]
pub struct FileHead {
    pub head: SoundHead,
    pub size: u64,
}

// The sample type in which the device takes the samples of a file.
fn type_of(coding: Coding) -> SampleType
    ensures { result ≡ served_type coding }
{
    match coding {
        Coding::Mu255 => SampleType::Mu255,
        Coding::Alaw => SampleType::Alaw,
        Coding::Lin16Big | Coding::Lin16Little | Coding::U8 => SampleType::Lin16,
    }
}

// Reads the header of a file, byte by byte.
fn read_head<S: Source>(form: SoundForm, source: &mut S) -> Result<FileHead, ToolEnd>
    ensures brings { (bytes : List ℕ) → S.left source.old ≡ Some bytes → IsSome (S.left source.new) →
        HeadCame form bytes result (S.left source.new) }
    ensures read { IfOk result (λ file.
        ConsumedHead (Some form) file.size file.head.length (S.left source.old) (S.left source.new)) }
    ensures front { (bytes : List ℕ) → S.left source.old ≡ Some bytes → IsSome (S.left source.new) →
        IfErr result (λ _. GaveHead (Some form) bytes (S.left source.new)) }
    ensures end { IfErr result (λ how. is_of_front how ≡ true) }
    ensures takes { EndShows (Some form) (IsErrOf result) (S.left source.old) (S.left source.new) }
    ensures fault { CountsFault (IsErrOf result ToolEnd.ReadFault) (S.faults source.old) (S.faults source.new) }
{
    let mut reader = HeadReader::new(form);
    let mut byte = [0];
    let mut size = 0u64;
    loop {
        match source.read(&mut byte) {
            Got::Bytes(_) if size == MOST_BYTES => return Err(ToolEnd::TooLong),
            Got::Bytes(_) => size += 1,
            Got::Ended => return Err(ToolEnd::SoundCut),
            Got::Failed => return Err(ToolEnd::ReadFault),
        }
        match reader.take(byte[0]) {
            HeadStep::More => {}
            HeadStep::Head(head) => return Ok(FileHead { head, size }),
            HeadStep::Bad(fault) => return Err(ToolEnd::BadSound { fault }),
        }
    }
}

// Checks that a file has the rate and the channels of its device.
fn fit(head: SoundHead, device: DeviceInfo) -> Result<(), ToolEnd>
    ensures { result ≡ end_among tool_end (fits_device device head) }
{
    if head.rate != device.rate {
        return Err(ToolEnd::RateMismatch {
            from: head.rate,
            to: device.rate,
        });
    }
    if head.channels != device.channels {
        return Err(ToolEnd::ChannelMismatch {
            from: head.channels,
            to: device.channels,
        });
    }
    Ok(())
}

/// What a source gives to be played on a device. The header of a file is read, and the sound stands after it.
pub fn sound_of<S: Source>(
    job: &PlayJob,
    device: DeviceInfo,
    source: &mut S,
) -> Result<SourceSound, ToolEnd>
    ensures brings { (bytes : List ℕ) → S.left source.old ≡ Some bytes → IsSome (S.left source.new) →
        SoundCame job.now device bytes result (S.left source.new) }
    ensures read { IfOk result (λ sound.
        ConsumedHead job.now.form sound.head sound.length (S.left source.old) (S.left source.new)) }
    ensures front { (bytes : List ℕ) → S.left source.old ≡ Some bytes → IsSome (S.left source.new) →
        IfErr result (λ _. GaveHead job.now.form bytes (S.left source.new)) }
    ensures served { IfOk result (λ sound. IsServedAs sound.coding sound.ty) }
    ensures channels { IfOk result (λ sound. sound.channels ≡ device.channels) }
    ensures raw { job.now.form ≡ None →
        (source.new ≡ source.old) × IfOk result (λ sound. sound.ty ≡ unwrap_or job.now.ty device.ty) }
    ensures end { IfErr result (λ how. is_of_sound how ≡ true) }
    ensures takes { EndShows job.now.form (IsErrOf result) (S.left source.old) (S.left source.new) }
    ensures fault { CountsFault (IsErrOf result ToolEnd.ReadFault) (S.faults source.old) (S.faults source.new) }
{
    let Some(form) = job.form else {
        return Ok(SourceSound {
            ty: job.ty.unwrap_or(device.ty),
            channels: device.channels,
            coding: None,
            head: 0,
            length: None,
        });
    };
    let FileHead { head, size } = read_head(form, source)?;
    fit(head, device)?;
    Ok(SourceSound {
        ty: type_of(head.coding),
        channels: device.channels,
        coding: Some(head.coding),
        head: size,
        length: head.length,
    })
}
