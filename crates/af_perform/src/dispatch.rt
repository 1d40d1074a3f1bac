// Performing a request: one function for each opcode.
ghost use Rattle.std.specs.Prelude.{◌≡◌, ℕ, ◌≤◌, IsTrue, length};
ghost use Rattle.af_limits.specs.Limits.{perform_limit};
ghost use Rattle.af_request.specs.Asked.{get_time, request_meaning};
ghost use Rattle.af_request.specs.Requests.{FitsFrame};
ghost use Rattle.af_model.specs.Perform.{request_effect, perform};
ghost use Rattle.af_state.specs.SharedState.{StepsLink, StepsDevices, Leaves, MayAsk};
ghost use Rattle.af_perform.specs.Asked.{is_done_at_once};

use crate::checks::no_device;
use crate::context_requests::{NewContext, NewSettings, change_ac, create_ac, free_ac};
use crate::device_requests::{
    NewControls, hook_switch, query_controls, query_phone, select_events, set_controls,
};
use crate::play::{NewPlay, perform_play};
use crate::record::{NewRecord, perform_record};
use af_request::{Reply, Request, opcode};
use af_state::{Device, ServedLink, SharedState, Work};

// Replies the time of a device, or refuses one that does not exist.
fn get_time(device: u8, devices: &[Device], link: &mut ServedLink, work: &mut Work)
    requires room { length link.old.pending ≤ perform_limit }
    ensures step { (k : ℕ) → StepsDevices (request_effect k (get_time device)) devices.now link.old devices.now link.new }
    ensures rest { link.new.rest ≡ link.old.rest }
{
    match devices.get(usize::from(device)) {
        Some(device) => {
            let time = device.time();
            link.reply(opcode::GET_TIME, &Reply::Time { time }, &mut work.message);
        }
        None => link.refuse(opcode::GET_TIME, no_device(device)),
    }
}

// Performs a request that changes only its own link.
fn done_at_once(request: &Request<'_>, devices: &[Device], link: &mut ServedLink, work: &mut Work)
    requires room { length link.old.pending ≤ perform_limit }
    ensures step { (k : ℕ) → IsTrue (is_done_at_once (request_meaning request.now)) →
        StepsDevices (request_effect k (request_meaning request.now)) devices.now link.old devices.now link.new }
    ensures rest { link.new.rest ≡ link.old.rest }
{
    match *request {
        Request::NoOp => {}
        Request::GetTime { device } => get_time(device, devices, link, work),
        Request::CreateAc {
            device,
            ac,
            ty,
            channels,
            preempt,
            play_gain,
            record_gain,
        } => {
            let asked = NewContext {
                device,
                ac,
                ty,
                channels,
                preempt,
                play_gain,
                record_gain,
            };
            create_ac(asked, devices, link, work)
        }
        Request::ChangeAc {
            mask,
            ac,
            preempt,
            play_gain,
            record_gain,
        } => {
            let asked = NewSettings {
                mask,
                ac,
                preempt,
                play_gain,
                record_gain,
            };
            change_ac(asked, link, work)
        }
        Request::FreeAc { ac } => free_ac(ac, link, work),
        Request::SelectEvents { device, mask } => select_events(device, mask, devices, link, work),
        Request::QueryControls { device } => query_controls(device, devices, link, work),
        Request::QueryPhone { device } => query_phone(device, devices, link, work),
        // Plays and records may be deferred, and the others change devices.
        Request::PlayRun { .. }
        | Request::RecordRun { .. }
        | Request::SetControls { .. }
        | Request::HookSwitch { .. } => {}
    }
}

// Performs a request.
fn done(
    number: u8,
    request: &Request<'_>,
    shared: &mut SharedState,
    link: &mut ServedLink,
    work: &mut Work,
)
    requires asks { MayAsk number shared.old link.old }
    requires samples { FitsFrame (request_meaning request.now) }
    ensures step { StepsLink (request_effect number (request_meaning request.now)) shared.old link.old shared.new link.new }
    ensures leaves { Leaves number shared.old link.old shared.new link.new }
{
    match *request {
        Request::PlayRun {
            quiet,
            ac,
            time,
            samples,
        } => {
            let asked = NewPlay {
                quiet,
                ac,
                start: time,
                bytes: samples,
            };
            perform_play(number, &asked, shared, link, work)
        }
        Request::RecordRun {
            blocking,
            ac,
            time,
            nbytes,
        } => {
            let asked = NewRecord {
                blocking,
                ac,
                start: time,
                bytes: nbytes,
            };
            perform_record(number, asked, shared, link, work)
        }
        Request::SetControls {
            device,
            mask,
            input_on,
            output_on,
            input_gain,
            output_gain,
        } => {
            let asked = NewControls {
                device,
                mask,
                input_on,
                output_on,
                input_gain,
                output_gain,
            };
            set_controls(asked, &mut shared.devices, link, work)
        }
        Request::HookSwitch { device, off } => {
            hook_switch(device, off, &mut shared.devices, link, work)
        }
        _ => done_at_once(request, &shared.devices, link, work),
    }
}

/// Link `number`, which does not wait, makes a request.
pub fn perform(
    number: u8,
    request: &Request<'_>,
    shared: &mut SharedState,
    link: &mut ServedLink,
    work: &mut Work,
)
    requires asks { MayAsk number shared.old link.old }
    requires samples { FitsFrame (request_meaning request.now) }
    ensures step { StepsLink (perform number (request_meaning request.now)) shared.old link.old shared.new link.new }
    ensures leaves { Leaves number shared.old link.old shared.new link.new }
{
    link.count();
    done(number, request, shared, link, work);
}
