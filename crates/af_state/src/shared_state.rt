// What all links share.

use crate::deferred_requests::DeferredRequests;
use crate::device::Device;
use std::marker::Model;

/// What all links share: the devices, and the requests that wait for them.
#[derive(Drop)]
pub struct SharedState {
    pub devices: Vec<Device>,
    pub waits: DeferredRequests,
}

impl Model for SharedState {
    ghost use Rattle.std.specs.Prelude.{◌≤◌, length};
    ghost use Rattle.af_limits.specs.Limits.{most_devices};
    ghost use Rattle.af_state.specs.SharedState.{KeptSharedState};

    ghost Value = { KeptSharedState };

    ghost view = { λ a. record { devices = a.devices.items; waits = a.waits } };

    ghost invariant = { λ a. length a.devices.items ≤ most_devices };
}
