// The checks of a request, in their order.
ghost use Rattle.std.specs.Prelude.{◌≡◌, ◌<◌, ◌≤◌, length, nat_lt, IsFalse, IsTrue};
ghost use Rattle.af_model.specs.declared.refusal.RefusalCause.TheVariants.{BadAc, BadDevice, BadLine, BadValue};
ghost use Rattle.af_model.specs.Reply.{refusal};
ghost use Rattle.af_model.specs.ContextRequests.{named_gain};
ghost use Rattle.af_model.specs.Checks.{check, check_gain, context_cause, first_refusal, names, where_named};

use af_context::ContextFault;
use af_model::{Refusal, RefusalCause};
use af_sample::Gain;
use af_state::Device;

/// What a check refuses with, where it fails.
pub fn check(fails: bool, cause: RefusalCause, value: u32) -> Option<Refusal>
    ensures { result ≡ check fails cause value }
{
    fails.then_some(Refusal { cause, value })
}

/// A gain outside -30 to 30 decibels is refused with its 16 bits.
pub fn check_gain(gain: i16) -> Option<Refusal>
    ensures { result ≡ check_gain gain }
{
    let is_bad = Gain::new(i32::from(gain)).is_none();
    check(
        is_bad,
        RefusalCause::BadValue,
        u32::from(gain.cast_unsigned()),
    )
}

/// A switch that is neither 0 nor 1 is refused.
pub fn check_switch(value: u32) -> Option<Refusal>
    ensures { result ≡ check (nat_lt 1 value) BadValue value }
{
    check(value > 1, RefusalCause::BadValue, value)
}

/// Whether a mask names the field of a bit.
pub fn names(mask: u8, bit: u8) -> bool
    ensures { result ≡ names mask bit }
{
    mask & bit != 0
}

/// A check of a field that is made where the mask names it.
pub fn where_named(mask: u8, bit: u8, refusal: Option<Refusal>) -> Option<Refusal>
    ensures { result ≡ where_named mask bit refusal }
{
    if names(mask, bit) { refusal } else { None }
}

/// A gain that the mask names.
pub fn named_gain(mask: u8, bit: u8, gain: i16) -> Option<Gain>
    ensures { result ≡ named_gain mask bit gain }
{
    if names(mask, bit) {
        Gain::new(i32::from(gain))
    } else {
        None
    }
}

/// The first check that fails.
pub fn first_refusal(checks: &[Option<Refusal>]) -> Option<Refusal>
    ensures { result ≡ first_refusal checks.now }
{
    for check in checks {
        if check.is_some() {
            return *check;
        }
    }
    None
}

/// Whether there is no such device.
pub fn is_missing(device: u8, devices: &[Device]) -> bool
    ensures missing { IsTrue result → length devices.now ≤ device }
    ensures there { IsFalse result → device < length devices.now }
{
    usize::from(device) >= devices.len()
}

/// Why there is no such device.
pub fn no_device(device: u8) -> Refusal
    ensures { result ≡ refusal BadDevice device }
{
    Refusal {
        cause: RefusalCause::BadDevice,
        value: u32::from(device),
    }
}

/// Why there is no line at a device.
pub fn no_line(device: u8) -> Refusal
    ensures { result ≡ refusal BadLine device }
{
    Refusal {
        cause: RefusalCause::BadLine,
        value: u32::from(device),
    }
}

/// Why there is no such context.
pub fn no_context(ac: u32) -> Refusal
    ensures { result ≡ refusal BadAc ac }
{
    Refusal {
        cause: RefusalCause::BadAc,
        value: ac,
    }
}

/// Why contexts stay as they are, as errors tell it.
pub fn context_refusal(fault: ContextFault, ac: u32) -> Refusal
    ensures { result ≡ refusal (context_cause fault) ac }
{
    let cause = match fault {
        ContextFault::BadAc => RefusalCause::BadAc,
        ContextFault::BadIdChoice => RefusalCause::BadIdChoice,
        ContextFault::TooMany => RefusalCause::TooManyAcs,
    };
    Refusal { cause, value: ac }
}
