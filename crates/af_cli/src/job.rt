// What a tool is asked to do.
ghost use Rattle.std.specs.Prelude.{◌≡◌};
ghost use Rattle.af_cli.specs.Lengths.{at_rate, most_frames, most_seconds};
ghost use Rattle.af_cli.specs.TrueHeaders.{true_form};

use af_sample::{Gain, SampleType};
use af_sound::SoundForm;

/// To play what a source gives.
#[derive(Clone, Copy, Debug, PartialEq, Eq)]
pub struct PlayJob {
    /// The number of the device, 0..7.
    pub device: u8,
    /// The form of the file that the source gives. Without one its bytes are samples. A file states its own sample type.
    pub form: Option<SoundForm>,
    /// The type of the samples, or that of the device.
    pub ty: Option<SampleType>,
    pub gain: Gain,
    /// The frames of a block, 1..4000.
    pub block: u32,
    /// The milliseconds from the device's time to the start, 0..60000.
    pub lead: u32,
    /// The start, if it is stated.
    pub time: Option<u32>,
    /// By how many milliseconds a block may be sent before its time, 20..4000, if that is bounded.
    pub ahead: Option<u32>,
    /// Whether what others play is replaced.
    pub preempt: bool,
    /// Whether it ends only once the device has handed out the last frame.
    pub drain: bool,
    /// Whether its end says if a frame came too late to be heard.
    pub strict: bool,
}

/// The most frames that are recorded.
pub const MOST_FRAMES: u32 = 2147483647;

/// The most seconds that are recorded: those of the most frames at 1000 frames a second.
pub const MOST_SECONDS: u32 = 2147483;

/// The most seconds for which a refused dial is tried again: an hour.
pub const MOST_WAIT: u32 = 3600;

/// To record n frames, or n seconds.
#[derive(Clone, Copy, Debug, PartialEq, Eq)]
pub struct RecordJob {
    /// The number of the device, 0..7.
    pub device: u8,
    /// The form of the file that is written, or none where the samples are written as they are.
    pub form: Option<SoundForm>,
    /// The type of the samples, or that of the device. In a file, samples of 32 bits become some of 16.
    pub ty: Option<SampleType>,
    pub gain: Gain,
    /// The frames of a block, 1..4000.
    pub block: u32,
    /// The start, if it is stated, or else the device's time.
    pub time: Option<u32>,
    /// How many frames, 1..2147483647, or 0 where seconds are stated.
    pub frames: u32,
    /// How many seconds, 1..2147483, if they are stated in place of frames.
    pub seconds: Option<u32>,
    /// A block whose peak is below this is quiet, 0..32768.
    pub stop_peak: u32,
    /// So many quiet blocks in a row end the recording, 1..1000000.
    pub stop_blocks: u32,
    /// Whether the header is kept true to what was written. That of a recording by seconds is in any case.
    pub true_header: bool,
    /// Whether its end says if a frame had left the server before it was asked for.
    pub strict: bool,
}

impl RecordJob {
    /// The job on a device of this rate: its seconds are that many frames, at most 2147483647.
    pub fn at_rate(&self, rate: u32) -> RecordJob
        ensures { result ≡ at_rate rate self.now }
    {
        match self.seconds {
            Some(seconds) => {
                let frames = u64::from(seconds) * u64::from(rate);
                RecordJob {
                    frames: frames.min(u64::from(MOST_FRAMES)) as u32,
                    seconds: None,
                    ..*self
                }
            }
            None => *self,
        }
    }

    /// The form of the file whose header is kept true to what was written: of a recording by seconds, or of one whose words ask
    /// for it.
    pub fn true_form(&self) -> Option<SoundForm>
        ensures { result ≡ true_form self.now }
    {
        if self.seconds.is_some() || self.true_header {
            self.form
        } else {
            None
        }
    }
}

/// To set the controls of a device, and its hook. What is not stated stays.
#[derive(Clone, Copy, Debug, PartialEq, Eq)]
pub struct SetJob {
    /// The number of the device, 0..7.
    pub device: u8,
    pub input_gain: Option<Gain>,
    pub output_gain: Option<Gain>,
    pub input_on: Option<bool>,
    pub output_on: Option<bool>,
    /// Whether the hook is to be off.
    pub hook_off: Option<bool>,
}

/// To pass blocks from a device of one server to a device of another.
#[derive(Clone, Copy, Debug, PartialEq, Eq)]
pub struct PassJob {
    /// The number of the device that is recorded, 0..7.
    pub from_device: u8,
    /// The number of the device that is played to, 0..7.
    pub to_device: u8,
    /// The type of the samples, or that of the device that is recorded.
    pub ty: Option<SampleType>,
    /// By how much what is recorded is made louder.
    pub gain: Gain,
    /// How many blocks, 1..1000000. If they are not stated, which takes a relay that follows, it goes on until a link ends.
    pub blocks: Option<u32>,
    /// The frames of a block, 1..4000.
    pub block: u32,
    /// The milliseconds from the other server's time to where a block is played, 0..3000.
    pub delay: u32,
    /// By how many milliseconds the relay may drift from that, 0..3000.
    pub slack: u32,
    /// Whether it follows the other server's clock, by the last frame of a block.
    pub follow: bool,
}

/// What a tool is asked to do.
#[derive(Clone, Copy, Debug, PartialEq, Eq)]
pub enum Task {
    Play(PlayJob),
    Record(RecordJob),
    Set(SetJob),
    /// To tell of each device what it is and how it stands.
    List,
}
