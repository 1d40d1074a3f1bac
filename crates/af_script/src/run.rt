// Runs a tape to its end: one turn for each step.
ghost use Rattle.std.specs.Prelude.{◌≡◌, All, OnOk};
ghost use Rattle.af_sample.specs.Rates.{IsListedRate};
ghost use Rattle.af_sample.specs.Channels.{IsChannelCount};
ghost use Rattle.af_world.specs.Outside.{IsStep};
ghost use Rattle.af_outside.specs.TapeState.{faultless_tape};
ghost use Rattle.af_script.specs.Run.{HasOneLog};

use af_core::Core;
use af_outside::Tape;
use af_time::OutOfMemory;
use af_world::Config;
use std::alloc::Global;

/// Makes a core and takes one turn for each step of a tape. The tape was made with this configuration, of listed rates and of one
/// or two channels, and is as it was made. At Ok the tape has the one log of its script. In it no deferred request lost a sample,
/// what each link took is a prefix of what was queued for it, and each sound is the mix of all that was ever accepted.
pub fn run_tape(alloc: Global, config: &Config, tape: &mut Tape) -> Result<(), OutOfMemory>
    requires rates { All (λ device. IsListedRate device.rate) config.now.items }
    requires channels { All (λ device. IsChannelCount device.channels) config.now.items }
    requires made { tape.old ≡ faultless_tape config.now.items tape.old.left }
    requires steps { All (IsStep config.now.items) tape.old.left }
    ensures { OnOk result (HasOneLog config.now.items tape.old.left tape.new.log) }
{
    let mut core = Core::new(alloc, config)?;
    while let Some(wake) = tape.step() {
        core.turn(wake, tape);
        if !tape.tells() {
            return Err(OutOfMemory);
        }
    }
    Ok(())
}
