// A connection to a server.
ghost use Rattle.std.specs.Prelude.{◌≡◌, ◌≤◌, false, [], drop, length, slice_get, All, IfOk, IsTrue};
ghost use Rattle.std.specs.Result.{result_ok};
ghost use Rattle.af_limits.specs.Limits.{most_devices, longest_frame, longest_play, longest_record, longest_message};
ghost use Rattle.af_sample.specs.SampleTypes.{code_of};
ghost use Rattle.af_request.specs.Fields.{flag_byte};
ghost use Rattle.af_request.specs.Asked.{request_meaning, create_ac, free_ac, get_time, hook_switch, play_run, query_controls, query_phone, record_run, select_events};
ghost use Rattle.af_request.specs.Requests.{FitsFrame};
ghost use Rattle.af_request.specs.Replies.{IsDeviceInfo};
ghost use Rattle.af_lib.specs.Calls.{as_controls, as_done, as_phone, as_recorded, as_time, bit_if, controls_request, device_channels, flag_or_zero, gain_or_zero, recorded_in, settings_request, Called, Connects, KeepsTail, EventAwaited};

use crate::asks::{FromReply, ask_recorded, ask_value, set_up};
use crate::exchange::{Exchange, cause_of};
use crate::fault::{Cause, ConnFault};
use crate::receive::take_event;
use crate::ring::Ring;
use af_io::Link;
use af_limits::{LONGEST_FRAME, LONGEST_MESSAGE};
use af_request::{Controls, DeviceInfo, Devices, Phone, Request};
use af_sample::{Gain, SampleType};
use af_time::{DevTime, OutOfMemory};
use af_wire::{Event, Order};
use std::alloc::Global;
use std::marker::Model;

/// A connection that is set up. Each request that it sends has the next number, and it takes exactly the answer to it:
/// events that come before go into a ring of 64. A call that answers a LinkFault, a LinkEnded, a BadReply or an EventFlood
/// is the last that reads or writes. No call takes any memory.
#[derive(Drop)]
pub struct Conn<L: Link + Drop> {
    exchange: Exchange<L>,
    order: Order,
    devices: Devices,
    sequence: u16,
    cause: Option<Cause>,
}

impl<L: Link + Drop> Model for Conn<L> {
    ghost use Rattle.af_request.specs.Answer.{setup};
    ghost use Rattle.af_request.specs.Opcodes as opcodes;
    ghost use Rattle.af_request.specs.Replies.{IsReplyTo};
    ghost use Rattle.af_lib.specs.Calls.{ConnState};
    ghost use Rattle.af_lib.specs.Receive.{HasBuffers};

    ghost Value = { ConnState L };

    ghost view = { λ a. record {
      link = a.exchange.link;
      order = a.order;
      devices = a.devices.items;
      sequence = a.sequence;
      ring = a.exchange.ring;
      cause = a.cause;
    } };

    ghost invariant = { λ a. HasBuffers a.exchange.input.items a.exchange.output.items
        × IsReplyTo opcodes.setup (setup a.devices.items) };
}

impl<L: Link + Drop> Conn<L> {
    /// Sends the setup of an order, and takes its answer. All numbers of the connection are in that order. All memory that
    /// it needs is taken before anything is sent. The link comes back with a fault.
    pub fn connect(alloc: Global, link: L, order: Order) -> Result<Conn<L>, (ConnFault, L)>
        ensures { Connects order L.left L.sent L.faults link result }
    {
        let mut link = link;
        let Ok((mut ring, mut input, output)) = room(alloc) else {
            return Err((ConnFault::OutOfMemory, link));
        };
        match set_up(order, &mut link, &mut ring, &mut input) {
            Ok(devices) => Ok(Conn {
                exchange: Exchange {
                    link,
                    ring,
                    input,
                    output,
                },
                order,
                devices,
                sequence: 0,
                cause: None,
            }),
            Err(fault) => Err((fault, link)),
        }
    }

    /// The devices of the server, by rising number: 1 to 8, each of one or two channels, of a listed rate, and with a horizon of
    /// four seconds.
    pub fn devices(&self) -> &[DeviceInfo]
        ensures value { result.now ≡ self.now.devices }
        ensures some { 1 ≤ length result.now }
        ensures few { length result.now ≤ most_devices }
        ensures stated { All IsDeviceInfo result.now }
    {
        self.devices.as_slice()
    }

    /// How many events were lost since the ring was full, up to 2^64 - 1.
    pub fn lost(&self) -> u64
        ensures { result ≡ self.now.ring.lost }
    {
        self.exchange.ring.lost()
    }

    /// The link, at the end of the connection.
    pub fn into_link(self) -> L
        ensures { result ≡ self.link }
    {
        let Conn { exchange, .. } = self;
        let Exchange { link, .. } = exchange;
        link
    }

    /// Takes the oldest event of the ring, also from a connection that can no longer be used. None exactly if the ring is empty.
    /// It does not read.
    pub fn next_event(&mut self) -> Option<Event>
        ensures oldest { result ≡ slice_get self.old.ring.events 0 }
        ensures rest { self.new ≡ record self.old { ring = record self.old.ring { events = drop 1 self.old.ring.events } } }
    {
        self.exchange.ring.take()
    }

    /// Waits for an event: the oldest of the ring, or else the next message, which is to be one. Its faults are LinkFault,
    /// LinkEnded, BadReply and, after a fault of the connection, Spent, even where the ring holds events.
    pub fn wait_event(&mut self) -> Result<Event, ConnFault>
        ensures { EventAwaited L.left L.sent L.faults self.old self.new result }
    {
        if let Some(first) = self.cause {
            return Err(ConnFault::Spent { first });
        }
        if let Some(event) = self.exchange.ring.take() {
            return Ok(event);
        }
        let answer = take_event(
            self.order,
            &mut self.exchange.link,
            &mut self.exchange.input,
        );
        self.cause = cause_of(&answer);
        answer
    }

    /// Creates a context with a number of the client's choice, on a device, of as many channels as that has. Where the server has
    /// no such device it asks for one channel, and is refused.
    pub fn create_ac(
        &mut self,
        ac: u32,
        device: u8,
        ty: SampleType,
        play: Gain,
        record_by: Gain,
        preempt: bool,
    ) -> Result<(), ConnFault>
        ensures { Called L.left L.sent L.faults
            (create_ac device ac (code_of ty) (device_channels self.old.devices device) (flag_byte preempt) play record_by)
            as_done self.old self.new result }
    {
        let channels = self.channels_of(device);
        self.ask(&Request::CreateAc {
            device,
            ac,
            ty: ty.code(),
            channels,
            preempt: u8::from(preempt),
            play_gain: decibels(play),
            record_gain: decibels(record_by),
        })
    }

    /// Changes the settings of a context that are stated.
    pub fn change_ac(
        &mut self,
        ac: u32,
        play: Option<Gain>,
        record_by: Option<Gain>,
        preempt: Option<bool>,
    ) -> Result<(), ConnFault>
        ensures { Called L.left L.sent L.faults (settings_request ac play record_by preempt) as_done self.old self.new result }
    {
        self.ask(&Request::ChangeAc {
            mask: bit_if(1, play.is_some())
                + bit_if(2, record_by.is_some())
                + bit_if(4, preempt.is_some()),
            ac,
            preempt: flag_or_zero(preempt),
            play_gain: gain_or_zero(play),
            record_gain: gain_or_zero(record_by),
        })
    }

    /// Frees the number of a context.
    pub fn free_ac(&mut self, ac: u32) -> Result<(), ConnFault>
        ensures { Called L.left L.sent L.faults (free_ac ac) as_done self.old self.new result }
    {
        self.ask(&Request::FreeAc { ac })
    }

    /// The time of a device.
    pub fn get_time(&mut self, device: u8) -> Result<DevTime, ConnFault>
        ensures { Called L.left L.sent L.faults (get_time device) as_time self.old self.new result }
    {
        self.ask(&Request::GetTime { device })
    }

    /// Plays samples of a context from a time on: at most 16368 bytes. It answers the device's time, once they are taken.
    pub fn play_run(&mut self, ac: u32, time: DevTime, samples: &[u8]) -> Result<DevTime, ConnFault>
        requires { length samples.now ≤ longest_play }
        ensures { Called L.left L.sent L.faults (play_run false ac time.0 samples.now) as_time self.old self.new result }
    {
        self.ask(&Request::PlayRun {
            quiet: false,
            ac,
            time,
            samples,
        })
    }

    /// Records samples of a context from a time on: as many as there is room for, at most 16000 bytes. It answers the
    /// device's time and how many bytes were recorded, which are all where it waits for them.
    pub fn record_run(
        &mut self,
        ac: u32,
        time: DevTime,
        blocking: bool,
        into: &mut [u8],
    ) -> Result<(DevTime, usize), ConnFault>
        requires { length into.old ≤ longest_record }
        ensures called { Called L.left L.sent L.faults (record_run blocking ac time.0 (length into.old))
            (as_recorded blocking (length into.old)) self.old self.new (recorded_in result into.new) }
        ensures kept { KeepsTail (result_ok result) into.old into.new }
        ensures within { IfOk result (λ r. r.1 ≤ length into.old) }
        ensures all { IfOk result (λ r. IsTrue blocking → r.1 ≡ length into.old) }
    {
        if let Some(first) = self.cause {
            return Err(ConnFault::Spent { first });
        }
        self.sequence = self.sequence.wrapping_add(1);
        let request = Request::RecordRun {
            blocking,
            ac,
            time,
            nbytes: into.len() as u32,
        };
        let answer = ask_recorded(
            self.order,
            &mut self.exchange,
            &request,
            self.sequence,
            blocking,
            into,
        );
        self.cause = cause_of(&answer);
        answer
    }

    /// Asks for events of a device's line: 1 Ring, 2 Hook, 4 Current, 8 Digit, or a sum of these.
    pub fn select_events(&mut self, device: u8, mask: u32) -> Result<(), ConnFault>
        ensures { Called L.left L.sent L.faults (select_events device mask) as_done self.old self.new result }
    {
        self.ask(&Request::SelectEvents { device, mask })
    }

    /// Changes the controls of a device that are stated.
    pub fn set_controls(
        &mut self,
        device: u8,
        input_gain: Option<Gain>,
        output_gain: Option<Gain>,
        input_on: Option<bool>,
        output_on: Option<bool>,
    ) -> Result<(), ConnFault>
        ensures { Called L.left L.sent L.faults (controls_request device input_gain output_gain input_on output_on)
            as_done self.old self.new result }
    {
        self.ask(&Request::SetControls {
            device,
            mask: bit_if(1, input_gain.is_some())
                + bit_if(2, output_gain.is_some())
                + bit_if(4, input_on.is_some())
                + bit_if(8, output_on.is_some()),
            input_on: flag_or_zero(input_on),
            output_on: flag_or_zero(output_on),
            input_gain: gain_or_zero(input_gain),
            output_gain: gain_or_zero(output_gain),
        })
    }

    /// The controls of a device.
    pub fn query_controls(&mut self, device: u8) -> Result<Controls, ConnFault>
        ensures { Called L.left L.sent L.faults (query_controls device) as_controls self.old self.new result }
    {
        self.ask(&Request::QueryControls { device })
    }

    /// Takes the hook of a device's line off, or puts it on.
    pub fn hook(&mut self, device: u8, off: bool) -> Result<(), ConnFault>
        ensures { Called L.left L.sent L.faults (hook_switch device (flag_byte off)) as_done self.old self.new result }
    {
        self.ask(&Request::HookSwitch {
            device,
            off: u32::from(off),
        })
    }

    /// The state of a device's line.
    pub fn query_phone(&mut self, device: u8) -> Result<Phone, ConnFault>
        ensures { Called L.left L.sent L.faults (query_phone device) as_phone self.old self.new result }
    {
        self.ask(&Request::QueryPhone { device })
    }

    // The channels of a device, or one if it does not exist.
    fn channels_of(&self, device: u8) -> u8
        ensures { result ≡ device_channels self.now.devices device }
    {
        match self.devices.get(usize::from(device)) {
            Some(info) => info.channels,
            None => 1,
        }
    }

    // Sends a request, and takes its answer: a value that the reply states.
    fn ask<T: FromReply>(&mut self, request: &Request<'_>) -> Result<T, ConnFault>
        requires { FitsFrame (request_meaning request.now) }
        ensures { Called L.left L.sent L.faults (request_meaning request.now) T.value_of self.old self.new result }
    {
        if let Some(first) = self.cause {
            return Err(ConnFault::Spent { first });
        }
        self.sequence = self.sequence.wrapping_add(1);
        let answer = ask_value(self.order, &mut self.exchange, request, self.sequence);
        self.cause = cause_of(&answer);
        answer
    }
}

// A gain as a request states it.
fn decibels(gain: Gain) -> i16
    ensures { result ≡ gain }
{
    gain.db() as i16
}

fn gain_or_zero(gain: Option<Gain>) -> i16
    ensures { result ≡ gain_or_zero gain }
{
    match gain {
        Some(gain) => decibels(gain),
        None => 0,
    }
}

fn flag_or_zero(flag: Option<bool>) -> u8
    ensures { result ≡ flag_or_zero flag }
{
    match flag {
        Some(flag) => u8::from(flag),
        None => 0,
    }
}

// The bit of a field in the mask of those that a request changes.
fn bit_if(bit: u8, there: bool) -> u8
    ensures value { result ≡ bit_if bit there }
    ensures most { result ≤ bit }
{
    if there { bit } else { 0 }
}

// A ring for events, and a buffer for one message each way.
fn room(alloc: Global) -> Result<(Ring, Vec<u8>, Vec<u8>), OutOfMemory>
    ensures { IfOk result (λ r. (r.0 ≡ record { events = []; lost = 0 })
        × (length r.1.items ≡ longest_message) × (length r.2.items ≡ longest_frame)) }
{
    let ring = Ring::new(alloc)?;
    let input = vec![in alloc; 0u8; LONGEST_MESSAGE]?;
    let output = vec![in alloc; 0u8; LONGEST_FRAME]?;
    Ok((ring, input, output))
}
