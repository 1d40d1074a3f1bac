// Deferred requests that are due complete, the longest deferred first.
ghost use Rattle.std.specs.Prelude.{◌≡◌, ◌≤◌, ◌<◌, suc, find, length, option_map, slice_get, IsTrue, IsFalse};
ghost use Rattle.std.specs.declared.option.Option.TheVariants.{None, Some};
ghost use Rattle.af_limits.specs.Limits.{most_links, event_limit};
ghost use Rattle.af_wait.specs.Waits.{without_first};
ghost use Rattle.af_model.specs.State.{EnvironmentState, State, open_link};
ghost use Rattle.af_model.specs.Tick.{complete_due, complete_for, complete_step};
ghost use Rattle.af_state.specs.Deferrals.{has_waiting, kept_due, OnlyQueues};
ghost use Rattle.af_state.proofs.DeferralLemmas.{dues};
ghost use Rattle.af_state.specs.SharedState.{StandsForLink, StandsForSharedState};
ghost use Rattle.af_core.specs.Stands.{CompletesTo, IsBetweenPhases, IsCompleting, IsSettled, StepsAll, OfFirstDue, StandsFor, kept_of};

use crate::advance::advance;
use crate::slot::Slot;
use af_perform::complete_deferred;
use af_state::{Scratch, ServedLink, SharedState};

/// The first request that is due of a device, which is this link's, completes, and then those that the link may then make.
pub fn complete_link(
    number: u8,
    device: u8,
    shared: &mut SharedState,
    link: &mut ServedLink,
    scratch: &mut Scratch,
)
    requires number { number < most_links }
    requires due { option_map (λ k. k.wait.link) (find (kept_due device) shared.old.waits) ≡ Some number }
    requires room { length link.old.pending ≤ event_limit }
    requires stands { (a : EnvironmentState) × StandsForSharedState shared.old a }
    ensures step { OfFirstDue device shared.old (λ w a. StandsForLink shared.new link.new
        (complete_for w (slice_get a.devices w.device) (open_link a link.old))) }
    ensures settled { IsSettled (has_waiting shared.new.waits number) link.new }
    ensures only_queues { OnlyQueues number (without_first (kept_due device) shared.old.waits) shared.new.waits }
{
    let deferred = shared.waits.deferred(number);
    let devices = &mut shared.devices;
    complete_deferred(deferred, device, devices, link, &mut scratch.work);
    shared.waits.take_due(device);
    advance(number, shared, link, scratch);
}

// The first request that is due for a device completes. The answer is whether there was one.
fn complete_first(
    device: u8,
    shared: &mut SharedState,
    slots: &mut [Slot],
    scratch: &mut Scratch,
) -> bool
    requires kept { IsCompleting device (kept_of shared.old slots.old) }
    ensures step { (s : State) → StandsFor (kept_of shared.old slots.old) s →
        CompletesTo result (complete_step device s) (kept_of shared.new slots.new) }
    ensures same { IsFalse result → (shared.new ≡ shared.old) × (slots.new ≡ slots.old) }
    ensures kept { IsCompleting device (kept_of shared.new slots.new) }
    ensures fewer { IsTrue result → dues device shared.old.waits ≡ suc (dues device shared.new.waits) }
    ensures none { IsFalse result → find (kept_due device) shared.old.waits ≡ None }
{
    match shared.waits.first_due(device) {
        Some(number) => {
            let slot = &mut slots[usize::from(number)];
            slot.complete(number, device, shared, scratch);
            true
        }
        None => false,
    }
}

/// The requests that are due of a device complete, each followed by those that its link may then make. The answer is whether one
/// did.
pub fn complete_due(
    device: u8,
    shared: &mut SharedState,
    slots: &mut [Slot],
    scratch: &mut Scratch,
) -> bool
    requires kept { IsCompleting device (kept_of shared.old slots.old) }
    ensures step { StepsAll (complete_due device) (kept_of shared.old slots.old) (kept_of shared.new slots.new) }
    ensures same { IsFalse result → (shared.new ≡ shared.old) × (slots.new ≡ slots.old) }
    ensures kept { IsBetweenPhases (kept_of shared.new slots.new) }
{
    let mut completed = false;
    while complete_first(device, shared, slots, scratch) {
        completed = true;
    }
    completed
}
