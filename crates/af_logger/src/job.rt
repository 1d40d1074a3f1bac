// What the tool log is asked to do.
ghost use Rattle.std.specs.Prelude.{◌≡◌};
ghost use Rattle.af_logger.specs.Plans.{count_of};

use af_sample::SampleType;
use af_sound::SoundForm;
use arrayvec::ArrayString;

/// To record a device in pieces, and to hand each of them to a command.
#[derive(Drop)]
pub struct LogJob {
    /// The number of the device, 0..7.
    pub device: u8,
    /// The type of the samples, or that of the device.
    pub ty: Option<SampleType>,
    /// The form of a piece, or none where a command gets samples alone.
    pub form: Option<SoundForm>,
    /// How many frames one request records, 1..4000.
    pub block: u32,
    /// The seconds of a piece, 1..86400.
    pub every: u32,
    /// After how many pieces it is done, 1..1000000. If that is not stated, it goes on until the link ends.
    pub count: Option<u32>,
    /// The device time of the first frame, or now.
    pub time: Option<u32>,
    /// What a shell runs for each piece, 1 to 200 bytes.
    pub command: ArrayString<200>,
}

impl LogJob {
    /// After how many pieces it is done. One that goes on until the link ends has more to record than there is time for.
    pub fn count(&self) -> u64
        ensures { result ≡ count_of self.now }
    {
        match self.count {
            Some(count) => u64::from(count),
            None => u64::MAX,
        }
    }
}
