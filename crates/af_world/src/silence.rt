// Silence, as devices capture and emit it.
ghost use Rattle.std.specs.Prelude.{◌≡◌};
ghost use Rattle.af_world.specs.Outside.{silent_byte};

use af_sample::SampleType;

/// The byte that silence has in each sample type.
pub fn silent_byte(ty: SampleType) -> u8
    ensures { result ≡ silent_byte ty }
{
    match ty {
        SampleType::Mu255 => 0xFF,
        SampleType::Alaw => 0xD5,
        SampleType::Lin16 | SampleType::Lin32 => 0,
    }
}
