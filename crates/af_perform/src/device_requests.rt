// SelectEvents, SetControls, QueryControls, HookSwitch and QueryPhone: the controls of a device, and its telephone line.
ghost use Rattle.std.specs.Prelude.{◌≡◌, ℕ, ◌≤◌, ◌<◌, List, length, slice_get, option_map, ◌==◌, if◌then◌else◌};
ghost use Rattle.std.specs.declared.option.Option.TheVariants.{None, Some};
ghost use Rattle.af_limits.specs.Limits.{perform_limit};
ghost use Rattle.af_phone.specs.Lines.{with_wanted_hook};
ghost use Rattle.af_request.specs.Answer.{plain};
ghost use Rattle.af_request.specs.Asked.{select_events, query_controls, hook_switch, query_phone};
ghost use Rattle.af_request.specs.Opcodes as opcodes;
ghost use Rattle.af_model.specs.State.{DeviceState};
ghost use Rattle.af_model.specs.Reply.{reply_with};
ghost use Rattle.af_model.specs.Checks.{names};
ghost use Rattle.af_model.specs.Play.{in_devices};
ghost use Rattle.af_model.specs.DeviceRequests.{controls_refusal, select, set_device_controls, switch_refusal, with_device_hook, with_named};
ghost use Rattle.af_model.specs.Perform.{request_effect};
ghost use Rattle.af_perform.specs.Asked.{new_controls};
ghost use Rattle.af_perform.specs.Lines.{line_at};
ghost use Rattle.af_state.specs.Deferrals.{KeptDeferral};
ghost use Rattle.af_state.specs.SharedState.{kept_shared_state, StepsDevices, StepsLinkFor, ChangesLink};

use crate::checks::{
    check, check_gain, check_switch, first_refusal, is_missing, named_gain, names, no_device,
    no_line, where_named,
};
use af_model::{Refusal, RefusalCause};
use af_phone::Line;
use af_request::{Controls, Phone, Reply, opcode};
use af_state::{Device, ServedLink, Work};

/// What SetControls asks, as it came.
#[derive(Clone, Copy, Debug, PartialEq, Eq)]
pub struct NewControls {
    pub device: u8,
    pub mask: u8,
    pub input_on: u8,
    pub output_on: u8,
    pub input_gain: i16,
    pub output_gain: i16,
}

// The flags of the line of a device, or why there is none.
fn line_at(device: u8, devices: &[Device]) -> Result<Phone, Refusal>
    ensures { result ≡ line_at devices.now device }
{
    if is_missing(device, devices) {
        return Err(no_device(device));
    }
    match devices[usize::from(device)].line() {
        Some(line) => Ok(line.phone()),
        None => Err(no_line(device)),
    }
}

// Replaces the mask of events of a device.
fn select(device: u8, mask: u32, link: &mut ServedLink, work: &mut Work)
    requires room { length link.old.pending ≤ perform_limit }
    ensures step { ChangesLink (select device mask) link.old link.new }
    ensures rest { link.new.rest ≡ link.old.rest }
{
    link.select(device, mask);
    link.reply(opcode::SELECT_EVENTS, &Reply::Plain, &mut work.message);
}

/// SelectEvents.
pub fn select_events(
    device: u8,
    mask: u32,
    devices: &[Device],
    link: &mut ServedLink,
    work: &mut Work,
)
    requires room { length link.old.pending ≤ perform_limit }
    ensures step { (k : ℕ) → StepsDevices (request_effect k (select_events device mask))
        devices.now link.old devices.now link.new }
    ensures rest { link.new.rest ≡ link.old.rest }
{
    match line_at(device, devices) {
        Ok(_) => select(device, mask, link, work),
        Err(refusal) => link.refuse(opcode::SELECT_EVENTS, refusal),
    }
}

// Why the fields that the mask names cannot be changed.
fn controls_refusal(asked: NewControls) -> Option<Refusal>
    ensures { result ≡ controls_refusal asked.mask asked.input_on asked.output_on asked.input_gain asked.output_gain }
{
    first_refusal(&[
        where_named(asked.mask, 1, check_gain(asked.input_gain)),
        where_named(asked.mask, 2, check_gain(asked.output_gain)),
        where_named(asked.mask, 4, check_switch(u32::from(asked.input_on))),
        where_named(asked.mask, 8, check_switch(u32::from(asked.output_on))),
    ])
}

// The asked switch if the mask names it, or else the old one.
fn named_switch(mask: u8, bit: u8, asked: u8, old: bool) -> bool
    ensures { result ≡ (if names mask bit then asked == 1 else old) }
{
    if names(mask, bit) { asked == 1 } else { old }
}

// The controls, with the fields that the mask names changed.
fn with_named(asked: NewControls, old: Controls) -> Controls
    ensures { result ≡ with_named asked.mask asked.input_on asked.output_on asked.input_gain asked.output_gain old }
{
    Controls {
        input_on: named_switch(asked.mask, 4, asked.input_on, old.input_on),
        output_on: named_switch(asked.mask, 8, asked.output_on, old.output_on),
        input_gain: named_gain(asked.mask, 1, asked.input_gain).unwrap_or(old.input_gain),
        output_gain: named_gain(asked.mask, 2, asked.output_gain).unwrap_or(old.output_gain),
    }
}

// Changes the controls of an existing device.
fn control(asked: NewControls, devices: &mut [Device], link: &mut ServedLink, work: &mut Work)
    requires room { length link.old.pending ≤ perform_limit }
    requires there { asked.device < length devices.old }
    requires passes { controls_refusal asked.mask asked.input_on asked.output_on asked.input_gain asked.output_gain ≡ None }
    ensures step { (k : ℕ) (ks : List KeptDeferral) → StepsLinkFor asked.device
        (set_device_controls k asked.device asked.mask asked.input_on asked.output_on asked.input_gain asked.output_gain)
        (kept_shared_state devices.old ks) link.old (kept_shared_state devices.new ks) link.new }
    ensures rest { link.new.rest ≡ link.old.rest }
{
    let device = &mut devices[usize::from(asked.device)];
    let controls = with_named(asked, device.controls());
    device.set_controls(controls);
    link.reply(opcode::SET_CONTROLS, &Reply::Plain, &mut work.message);
}

/// SetControls.
pub fn set_controls(
    asked: NewControls,
    devices: &mut [Device],
    link: &mut ServedLink,
    work: &mut Work,
)
    requires room { length link.old.pending ≤ perform_limit }
    ensures step { (k : ℕ) → StepsDevices (request_effect k (new_controls asked)) devices.old link.old devices.new link.new }
    ensures rest { link.new.rest ≡ link.old.rest }
{
    if is_missing(asked.device, devices) {
        link.refuse(opcode::SET_CONTROLS, no_device(asked.device));
        return;
    }
    match controls_refusal(asked) {
        Some(refusal) => link.refuse(opcode::SET_CONTROLS, refusal),
        None => control(asked, devices, link, work),
    }
}

/// QueryControls.
pub fn query_controls(device: u8, devices: &[Device], link: &mut ServedLink, work: &mut Work)
    requires room { length link.old.pending ≤ perform_limit }
    ensures step { (k : ℕ) → StepsDevices (request_effect k (query_controls device)) devices.now link.old devices.now link.new }
    ensures rest { link.new.rest ≡ link.old.rest }
{
    if is_missing(device, devices) {
        link.refuse(opcode::QUERY_CONTROLS, no_device(device));
        return;
    }
    let controls = devices[usize::from(device)].controls();
    link.reply(
        opcode::QUERY_CONTROLS,
        &Reply::Controls { controls },
        &mut work.message,
    );
}

// Why a hook cannot be moved.
fn switch_refusal(device: u8, off: u32, line: Phone) -> Option<Refusal>
    ensures { result ≡ switch_refusal device off line }
{
    first_refusal(&[
        check(line.dead, RefusalCause::BadLine, u32::from(device)),
        check_switch(off),
    ])
}

// A line with another wanted hook.
fn wanting(off: bool, line: Option<Line>) -> Option<Line>
    ensures { result ≡ option_map (with_wanted_hook off) line }
{
    let mut line = line?;
    line.want(off);
    Some(line)
}

// Sets the wanted hook of an existing device with a line.
fn want_hook(device: u8, off: bool, devices: &mut [Device], link: &mut ServedLink, work: &mut Work)
    requires room { length link.old.pending ≤ perform_limit }
    requires there { device < length devices.old }
    ensures step { (k : ℕ) (ks : List KeptDeferral) → StepsLinkFor device (λ s p. reply_with opcodes.hook_switch plain
        (in_devices device (with_device_hook k off) p))
        (kept_shared_state devices.old ks) link.old (kept_shared_state devices.new ks) link.new }
    ensures rest { link.new.rest ≡ link.old.rest }
{
    let device = &mut devices[usize::from(device)];
    device.set_line(wanting(off, device.line()));
    link.reply(opcode::HOOK_SWITCH, &Reply::Plain, &mut work.message);
}

/// HookSwitch.
pub fn hook_switch(
    device: u8,
    off: u32,
    devices: &mut [Device],
    link: &mut ServedLink,
    work: &mut Work,
)
    requires room { length link.old.pending ≤ perform_limit }
    ensures step { (k : ℕ) → StepsDevices (request_effect k (hook_switch device off)) devices.old link.old devices.new link.new }
    ensures rest { link.new.rest ≡ link.old.rest }
{
    match line_at(device, devices) {
        Ok(line) => match switch_refusal(device, off, line) {
            Some(refusal) => link.refuse(opcode::HOOK_SWITCH, refusal),
            None => want_hook(device, off == 1, devices, link, work),
        },
        Err(refusal) => link.refuse(opcode::HOOK_SWITCH, refusal),
    }
}

/// QueryPhone.
pub fn query_phone(device: u8, devices: &[Device], link: &mut ServedLink, work: &mut Work)
    requires room { length link.old.pending ≤ perform_limit }
    ensures step { (k : ℕ) → StepsDevices (request_effect k (query_phone device)) devices.now link.old devices.now link.new }
    ensures rest { link.new.rest ≡ link.old.rest }
{
    match line_at(device, devices) {
        Ok(phone) => link.reply(
            opcode::QUERY_PHONE,
            &Reply::Phone { phone },
            &mut work.message,
        ),
        Err(refusal) => link.refuse(opcode::QUERY_PHONE, refusal),
    }
}
