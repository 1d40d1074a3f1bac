// A deferred request completes.
ghost use Rattle.std.specs.Prelude.{◌≡◌, ◌≤◌, ◌<◌, length};
ghost use Rattle.af_limits.specs.Limits.{event_limit};
ghost use Rattle.af_state.specs.Deferred.{deferred_of_record};
ghost use Rattle.af_state.specs.Kept.{OfDeviceAt};
ghost use Rattle.af_state.specs.Deferrals.{CanComplete};
ghost use Rattle.af_perform.specs.Sounds.{CompletesDeferred};

use crate::play::accept;
use crate::record::answer_record;
use af_state::{DeferredRequest, DeferredWork, Device, Play, Record, ServedLink, Work};

// Answers a deferred record.
fn complete_record(
    device: u8,
    asked: Record,
    devices: &[Device],
    link: &mut ServedLink,
    work: &mut Work,
)
    requires room { length link.old.pending ≤ event_limit }
    requires there { device < length devices.now }
    requires can { OfDeviceAt devices.now device (λ d. CanComplete d (deferred_of_record asked)) }
    ensures step { CompletesDeferred (deferred_of_record asked) device devices.now link.old devices.now link.new }
    ensures rest { link.new.rest ≡ link.old.rest }
{
    answer_record(asked, &devices[usize::from(device)], link, work);
}

/// A request that waited for a device completes.
pub fn complete_deferred(
    deferred: &DeferredRequest,
    device: u8,
    devices: &mut [Device],
    link: &mut ServedLink,
    work: &mut Work,
)
    requires room { length link.old.pending ≤ event_limit }
    requires there { device < length devices.old }
    requires can { OfDeviceAt devices.old device (λ d. CanComplete d deferred.now) }
    ensures step { CompletesDeferred deferred.now device devices.old link.old devices.new link.new }
    ensures rest { link.new.rest ≡ link.old.rest }
{
    let (what, start, sound) = deferred.parts();
    match what {
        DeferredWork::Play { quiet, preempt } => {
            let play = Play {
                device,
                quiet,
                start,
                sound,
                preempt,
            };
            accept(&play, devices, link, &mut work.message);
        }
        DeferredWork::Record { context, frames } => {
            let asked = Record {
                blocking: true,
                context,
                start,
                frames,
            };
            complete_record(device, asked, devices, link, work);
        }
    }
}
