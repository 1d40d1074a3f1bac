// The types that samples have outside the server.
ghost use Rattle.std.specs.Prelude.{◌≡◌, ◌<◌, ◌↔◌, IsNone, IfSome};

/// How a device or a client codes a sample: mu-law or A-law (ITU-T G.711), or a big-endian
/// two's complement number of 16 or 32 bits.
#[derive(Clone, Copy, Debug, Default, PartialEq, Eq)]
pub enum SampleType {
    #[default]
    Mu255,
    Alaw,
    Lin16,
    Lin32,
}

impl SampleType {
    ghost use Rattle.af_sample.specs.SampleTypes.{code_of, frame_bytes, type_of_code, width_of};

    /// The type of a code 0..3. None above.
    pub fn of_code(code: u8) -> Option<SampleType>
        ensures value { result ≡ type_of_code code }
        ensures none { IsNone result ↔ (3 < code) }
        ensures same { IfSome result (λ ty. code_of ty ≡ code) }
    {
        match code {
            0 => Some(SampleType::Mu255),
            1 => Some(SampleType::Alaw),
            2 => Some(SampleType::Lin16),
            3 => Some(SampleType::Lin32),
            _ => None,
        }
    }

    /// The type's code, 0..3.
    pub fn code(self) -> u8
        ensures { result ≡ code_of self }
    {
        match self {
            SampleType::Mu255 => 0,
            SampleType::Alaw => 1,
            SampleType::Lin16 => 2,
            SampleType::Lin32 => 3,
        }
    }

    /// The bytes of one sample: 1, 2 or 4.
    pub fn width(self) -> usize
        ensures { result ≡ width_of self }
    {
        match self {
            SampleType::Mu255 | SampleType::Alaw => 1,
            SampleType::Lin16 => 2,
            SampleType::Lin32 => 4,
        }
    }

    /// The bytes of a frame of so many channels.
    pub fn frame_bytes(self, channels: u8) -> usize
        ensures { result ≡ frame_bytes self channels }
    {
        self.width() * usize::from(channels)
    }
}
