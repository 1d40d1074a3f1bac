// A scripted device of a tape: what it captures, and which of its calls are to fail.
ghost use Rattle.std.specs.Prelude.{◌≡◌, List, length, map, option_map, slice_get, slice_set, true, IfOk};
ghost use Rattle.std.specs.declared.option.Option.TheVariants.{Some};
ghost use Rattle.af_world.specs.declared.script.Step.{Step};
ghost use Rattle.af_world.specs.World.{captured_of, is_done};
ghost use Rattle.af_world.specs.Outside.{outside_after_capture, captured_bytes, silent_byte, some_scripted, scripted_at, with_scripted};
ghost use Rattle.af_outside.specs.Tape.{IsAnswered, KeptClient, is_failing, outside_of, with_failing, kept_at, kept_scripted_of, devices_of, stated_at, capture_stated_by};

use crate::{Config, Put, Step, silent_byte};
use af_sample::SampleType;
use af_time::OutOfMemory;
use std::alloc::Global;

/// A call on a device, which a script may state to fail.
#[derive(Clone, Copy)]
pub(crate) enum DeviceCall {
    Capture,
    Emit,
    Hook,
}

/// A scripted device. What its last tick states is captured stays in that step of the script.
#[derive(Clone, Copy)]
pub(crate) struct KeptScriptedDevice {
    ty: SampleType,
    /// The number of the step that is its last tick.
    tick: Option<usize>,
    fails_capture: bool,
    fails_emit: bool,
    fails_hook: bool,
}

impl KeptScriptedDevice {
    /// A device that nothing was stated of.
    fn new(ty: SampleType) -> KeptScriptedDevice
        ensures { result ≡ kept_scripted_of ty }
    {
        KeptScriptedDevice {
            ty,
            tick: None,
            fails_capture: false,
            fails_emit: false,
            fails_hook: false,
        }
    }

    /// Whether the next such call is to fail.
    fn is_failing(self, call: DeviceCall) -> bool
        ensures { (steps : List Step) → result ≡ is_failing call (kept_at steps self) }
    {
        match call {
            DeviceCall::Capture => self.fails_capture,
            DeviceCall::Emit => self.fails_emit,
            DeviceCall::Hook => self.fails_hook,
        }
    }

    /// The same device, whose next such call is to fail, or not to.
    fn with_failing(mut self, call: DeviceCall, fails: bool) -> KeptScriptedDevice
        ensures { (steps : List Step) → kept_at steps result ≡ with_failing call fails (kept_at steps self) }
    {
        match call {
            DeviceCall::Capture => self.fails_capture = fails,
            DeviceCall::Emit => self.fails_emit = fails,
            DeviceCall::Hook => self.fails_hook = fails,
        }
        self
    }

    /// Captures what the last tick states, if that is as many bytes, and else silence.
    fn fill(self, steps: &[Step], into: &mut [u8])
        ensures { into.new ≡ captured_bytes (kept_at steps.now self) (length into.old) }
    {
        match stated(steps, self.tick) {
            Some(bytes) if bytes.len() == into.len() => into.copy_from_slice(bytes),
            _ => into.fill(silent_byte(self.ty)),
        }
    }
}

/// The scripted devices of a configuration. Nothing was stated of them.
pub(crate) fn new_devices(
    alloc: Global,
    config: &Config,
) -> Result<Vec<KeptScriptedDevice>, OutOfMemory>
    ensures { IfOk result (λ devices. devices.items ≡ map (λ d. kept_scripted_of d.ty) config.now.items) }
{
    let given = config.as_slice();
    let mut devices = Vec::with_capacity(alloc, given.len())?;
    for device in given {
        devices.push(KeptScriptedDevice::new(device.ty))?;
    }
    Ok(devices)
}

/// A tick of a device, which is the step with this number.
pub(crate) fn tick(devices: &mut [KeptScriptedDevice], device: u8, number: usize)
    ensures { (links : List KeptClient) (steps : List Step)
        → let old = outside_of links (devices_of steps devices.old) in
        outside_of links (devices_of steps devices.new)
        ≡ with_scripted old device (record (scripted_at old device) { states = capture_stated_by (slice_get steps number) }) }
{
    let mut scripted = scripted_at(devices, device);
    scripted.tick = Some(number);
    put_scripted(devices, device, scripted);
}

/// The next such call on a device is to fail.
pub(crate) fn fail(devices: &mut [KeptScriptedDevice], device: u8, call: DeviceCall)
    ensures { (links : List KeptClient) (steps : List Step)
        → let old = outside_of links (devices_of steps devices.old) in
        outside_of links (devices_of steps devices.new)
        ≡ with_scripted old device (with_failing call true (scripted_at old device)) }
{
    let scripted = scripted_at(devices, device).with_failing(call, true);
    put_scripted(devices, device, scripted);
}

/// Whether such a call on a device is done. If it is to fail, the one after it is not.
pub(crate) fn answer(devices: &mut [KeptScriptedDevice], device: u8, call: DeviceCall) -> Put
    ensures { (links : List KeptClient) (steps : List Step)
        → IsAnswered call (is_done result) device (outside_of links (devices_of steps devices.old))
        (outside_of links (devices_of steps devices.new)) }
{
    let scripted = scripted_at(devices, device);
    if scripted.is_failing(call) {
        put_scripted(devices, device, scripted.with_failing(call, false));
        return Put::Failed;
    }
    Put::Done
}

/// Captures of a device as many bytes as there is room for.
pub(crate) fn capture(
    devices: &mut [KeptScriptedDevice],
    steps: &[Step],
    device: u8,
    into: &mut [u8],
) -> Put
    ensures { (links : List KeptClient)
        → let old = outside_of links (devices_of steps.now devices.old) in
        outside_after_capture old device (scripted_at old device) (captured_of result into.new)
        ≡ Some (outside_of links (devices_of steps.now devices.new)) }
{
    let scripted = scripted_at(devices, device);
    match answer(devices, device, DeviceCall::Capture) {
        Put::Done => {
            scripted.fill(steps, into);
            Put::Done
        }
        Put::Failed => Put::Failed,
    }
}

// The scripted device at a number. If there is none, nothing was stated of it.
fn scripted_at(devices: &[KeptScriptedDevice], device: u8) -> KeptScriptedDevice
    ensures { (steps : List Step)
        → kept_at steps result ≡ some_scripted (slice_get (devices_of steps devices.now) device) }
{
    match devices.get(device as usize) {
        Some(scripted) => *scripted,
        None => KeptScriptedDevice::new(SampleType::Lin16),
    }
}

// Replaces the scripted device at a number, if there is one.
fn put_scripted(devices: &mut [KeptScriptedDevice], device: u8, scripted: KeptScriptedDevice)
    ensures { devices.new ≡ slice_set devices.old device scripted }
{
    let place = device as usize;
    if place < devices.len() {
        devices[place] = scripted;
    }
}

// What a device captures by the step with a number.
fn stated(steps: &[Step], number: Option<usize>) -> Option<&[u8]>
    ensures { option_map (λ bytes. bytes.now) result ≡ stated_at steps.now number }
{
    match steps.get(number?)? {
        Step::Tick(_, _, Some(bytes)) => Some(bytes.as_slice()),
        _ => None,
    }
}
