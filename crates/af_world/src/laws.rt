//! Laws of the outside, each the contract of a function that does nothing.
ghost use Rattle.std.specs.Prelude.{◌≡◌, ◌*◌, ℕ, pos, replicate};
ghost use Rattle.af_sample.specs.declared.sample_type.SampleType.{SampleType};
ghost use Rattle.af_sample.specs.SampleTypes.{width_of};
ghost use Rattle.af_sample.specs.Samples.{bytes_of};
ghost use Rattle.af_world.specs.Outside.{silent_byte};

/// The silence that a device captures is the encoding of as many samples of 0.
pub fn silence_is_zero()
    ensures { (ty : SampleType) (n : ℕ)
        → replicate (n * width_of ty) (silent_byte ty) ≡ bytes_of ty (replicate n (pos 0)) }
{}
