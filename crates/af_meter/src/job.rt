// What the tool meter is asked to do.
ghost use Rattle.std.specs.Prelude.{◌≡◌};
ghost use Rattle.af_meter.specs.Trace.{count_of};

/// What counts as quiet: the peaks of all channels are below a limit for so long.
#[derive(Clone, Copy, Debug, PartialEq, Eq)]
pub struct Quiet {
    /// The limit, 1..32768.
    pub below: u32,
    /// 1..3600000.
    pub milliseconds: u32,
}

/// To write how loud the sound of a device is.
#[derive(Clone, Copy, Debug, PartialEq, Eq)]
pub struct MeterJob {
    /// The number of the device, 0..7.
    pub device: u8,
    /// The milliseconds of an interval, 1..60000.
    pub every: u32,
    /// After how many lines it is done, 1..1000000. If that is not stated, it goes on until the link ends.
    pub count: Option<u32>,
    /// What counts as quiet, if only changes are written.
    pub quiet: Option<Quiet>,
}

impl MeterJob {
    /// After how many lines it is done. One that goes on until the link ends has more to write than there is time for.
    pub fn count(&self) -> u64
        ensures { result ≡ count_of self.now }
    {
        match self.count {
            Some(count) => u64::from(count),
            None => u64::MAX,
        }
    }
}
