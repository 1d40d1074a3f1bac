// CreateAC, ChangeAC and FreeAC: the link's contexts are created, changed and freed.
ghost use Rattle.std.specs.Prelude.{◌≡◌, ℕ, ◌≤◌, length, pos, unwrap_or};
ghost use Rattle.std.specs.declared.option.Option.TheVariants.{None};
ghost use Rattle.af_limits.specs.Limits.{perform_limit};
ghost use Rattle.af_sample.specs.Gains.{gain_of};
ghost use Rattle.af_request.specs.Asked.{free_ac};
ghost use Rattle.af_model.specs.ContextRequests.{creation_refusal, requested_context, create, change_refusal, change, is_match, named_preempt};
ghost use Rattle.af_model.specs.Perform.{request_effect};
ghost use Rattle.af_state.specs.Kept.{kept_channels_at};
ghost use Rattle.af_state.specs.SharedState.{StepsDevices, ChangesLink};
ghost use Rattle.af_perform.specs.Asked.{new_context, new_settings};

use crate::checks::{
    check, check_gain, check_switch, context_refusal, first_refusal, named_gain, names, where_named,
};
use af_context::Context;
use af_model::{Refusal, RefusalCause};
use af_request::{Reply, opcode};
use af_sample::{Gain, SampleType};
use af_state::{Device, ServedLink, Work};

/// What CreateAC asks, as it came.
#[derive(Clone, Copy, Debug, PartialEq, Eq)]
pub struct NewContext {
    pub device: u8,
    pub ac: u32,
    pub ty: u8,
    pub channels: u8,
    pub preempt: u8,
    pub play_gain: i16,
    pub record_gain: i16,
}

/// What ChangeAC asks, as it came.
#[derive(Clone, Copy, Debug, PartialEq, Eq)]
pub struct NewSettings {
    pub mask: u8,
    pub ac: u32,
    pub preempt: u8,
    pub play_gain: i16,
    pub record_gain: i16,
}

// The channels of a device, if it exists.
fn channels_at(device: u8, devices: &[Device]) -> Option<u8>
    ensures { result ≡ kept_channels_at devices.now device }
{
    let device = devices.get(usize::from(device))?;
    Some(device.channels())
}

// Whether a device exists and has so many channels.
fn is_match(own: Option<u8>, channels: u8) -> bool
    ensures { result ≡ is_match own channels }
{
    match own {
        Some(own) => own == channels,
        None => false,
    }
}

// Why a context on a device cannot be created, by its settings. The number of the context is looked at later.
fn creation_refusal(own: Option<u8>, asked: NewContext) -> Option<Refusal>
    ensures { result ≡
        creation_refusal own asked.device asked.ty asked.channels asked.preempt asked.play_gain asked.record_gain }
{
    first_refusal(&[
        check(
            own.is_none(),
            RefusalCause::BadDevice,
            u32::from(asked.device),
        ),
        check(asked.ty > 3, RefusalCause::BadValue, u32::from(asked.ty)),
        check_switch(u32::from(asked.preempt)),
        check_gain(asked.play_gain),
        check_gain(asked.record_gain),
        check(
            !is_match(own, asked.channels),
            RefusalCause::BadMatch,
            u32::from(asked.channels),
        ),
    ])
}

// A gain, or none if the decibels are out of range.
fn gain_or_none(decibels: i16) -> Gain
    ensures { result ≡ unwrap_or (gain_of decibels) (pos 0) }
{
    Gain::new(i32::from(decibels)).unwrap_or(Gain::default())
}

// The context that a request describes.
fn described(asked: NewContext) -> Context
    ensures { result ≡ requested_context asked.device asked.ac asked.ty asked.preempt asked.play_gain asked.record_gain }
{
    Context {
        ac: asked.ac,
        device: asked.device,
        ty: SampleType::of_code(asked.ty).unwrap_or(SampleType::Lin16),
        play_gain: gain_or_none(asked.play_gain),
        record_gain: gain_or_none(asked.record_gain),
        preempt: asked.preempt == 1,
    }
}

// Creates a context, if the number is free and there is room.
fn create(context: Context, link: &mut ServedLink, work: &mut Work)
    requires room { length link.old.pending ≤ perform_limit }
    ensures step { ChangesLink (create context) link.old link.new }
    ensures rest { link.new.rest ≡ link.old.rest }
{
    let ac = context.ac;
    match link.create(context) {
        Ok(()) => link.reply(opcode::CREATE_AC, &Reply::Plain, &mut work.message),
        Err(fault) => link.refuse(opcode::CREATE_AC, context_refusal(fault, ac)),
    }
}

/// CreateAC.
pub fn create_ac(asked: NewContext, devices: &[Device], link: &mut ServedLink, work: &mut Work)
    requires room { length link.old.pending ≤ perform_limit }
    ensures step { (k : ℕ) → StepsDevices (request_effect k (new_context asked)) devices.now link.old devices.now link.new }
    ensures rest { link.new.rest ≡ link.old.rest }
{
    match creation_refusal(channels_at(asked.device, devices), asked) {
        Some(refusal) => link.refuse(opcode::CREATE_AC, refusal),
        None => create(described(asked), link, work),
    }
}

// Why the fields that the mask names cannot be changed.
fn change_refusal(link: &ServedLink, asked: NewSettings) -> Option<Refusal>
    ensures { result ≡ change_refusal link.now.contexts asked.mask asked.ac asked.preempt asked.play_gain asked.record_gain }
{
    first_refusal(&[
        check(!link.has_context(asked.ac), RefusalCause::BadAc, asked.ac),
        where_named(asked.mask, 1, check_gain(asked.play_gain)),
        where_named(asked.mask, 2, check_gain(asked.record_gain)),
        where_named(asked.mask, 4, check_switch(u32::from(asked.preempt))),
    ])
}

// The stated preemption, if the mask names it.
fn named_preempt(mask: u8, preempt: u8) -> Option<bool>
    ensures { result ≡ named_preempt mask preempt }
{
    names(mask, 4).then_some(preempt == 1)
}

// Changes the fields that the mask names.
fn change(asked: NewSettings, link: &mut ServedLink, work: &mut Work)
    requires room { length link.old.pending ≤ perform_limit }
    requires passes { change_refusal link.old.contexts asked.mask asked.ac asked.preempt asked.play_gain asked.record_gain
        ≡ None }
    ensures step { ChangesLink (change asked.mask asked.ac asked.preempt asked.play_gain asked.record_gain) link.old link.new }
    ensures rest { link.new.rest ≡ link.old.rest }
{
    let play = named_gain(asked.mask, 1, asked.play_gain);
    let record_to = named_gain(asked.mask, 2, asked.record_gain);
    let preempt = named_preempt(asked.mask, asked.preempt);
    match link.change(asked.ac, play, record_to, preempt) {
        Ok(()) => link.reply(opcode::CHANGE_AC, &Reply::Plain, &mut work.message),
        Err(fault) => link.refuse(opcode::CHANGE_AC, context_refusal(fault, asked.ac)),
    }
}

/// ChangeAC.
pub fn change_ac(asked: NewSettings, link: &mut ServedLink, work: &mut Work)
    requires room { length link.old.pending ≤ perform_limit }
    ensures step { (k : ℕ) → ChangesLink (request_effect k (new_settings asked)) link.old link.new }
    ensures rest { link.new.rest ≡ link.old.rest }
{
    match change_refusal(link, asked) {
        Some(refusal) => link.refuse(opcode::CHANGE_AC, refusal),
        None => change(asked, link, work),
    }
}

/// FreeAC.
pub fn free_ac(ac: u32, link: &mut ServedLink, work: &mut Work)
    requires room { length link.old.pending ≤ perform_limit }
    ensures step { (k : ℕ) → ChangesLink (request_effect k (free_ac ac)) link.old link.new }
    ensures rest { link.new.rest ≡ link.old.rest }
{
    match link.free(ac) {
        Ok(()) => link.reply(opcode::FREE_AC, &Reply::Plain, &mut work.message),
        Err(fault) => link.refuse(opcode::FREE_AC, context_refusal(fault, ac)),
    }
}
