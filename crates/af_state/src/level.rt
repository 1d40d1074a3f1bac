// What gains and switches make of samples.
ghost use Rattle.std.specs.Prelude.{◌≡◌, length, map, pos, replicate};
ghost use Rattle.af_model.specs.Controls.{through_control};

use af_sample::{Gain, gain_run};

/// Silence.
pub fn silence(samples: &mut [i16])
    ensures { samples.new ≡ replicate (length samples.old) (pos 0) }
{
    for x in samples.iter_mut() {
        *x = 0;
    }
}

/// Samples get a gain, or are silenced where they are switched off.
pub fn level(is_on: bool, gain: Gain, samples: &mut [i16])
    ensures { samples.new ≡ map (through_control is_on gain) samples.old }
{
    if is_on {
        gain_run(samples, gain);
    } else {
        silence(samples);
    }
}
