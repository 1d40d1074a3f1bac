// A device that is attached, with its backend.
ghost use Rattle.std.specs.Prelude.{◌≡◌, ◌≤◌, ◌<◌, length, true, false, IfErr, IfOk, IsOk, MatchOption};
ghost use Rattle.std.specs.IoError.{error_kind};
ghost use Rattle.std.specs.declared.option.Option.TheVariants.{None, Some};
ghost use Rattle.af_limits.specs.Limits.{longest_tick};
ghost use Rattle.af_backend.specs.CardUse.{card_use};
ghost use Rattle.af_backend.specs.Backends.{card_of, delay_line_of, may_be_refused, needs_memory_alone, CapturesBy, EmitsBy, IsBackend, IsSilence};
ghost use Rattle.af_backend.specs.Asked.{IsAskedOf};

use crate::card_device::{CardDevice, CardOrders};
use crate::codec_device::CodecDevice;
use crate::devices::NewDevice;
use crate::file_device::FileDevice;
use af_card::Card;
use af_io::Put;
use af_loop::{DelayLine, delay_frames};
use af_process::Spawner;
use af_program::{Program, Programs};
use af_sample::SampleType;
use af_time::OutOfMemory;
use af_world::{DeviceSpec, Kind, silent_byte};
use std::alloc::Global;
use std::io::{self, ErrorKind, Read, Write};
use std::marker::Model;
use std::rt::Files;

/// The backend of a device.
#[derive(Drop)]
pub enum Backend<F: Read + Write + Drop, P: Program + Drop> {
    /// Nothing: it captures silence of its sample type, and what it hands out is gone.
    Silence(SampleType),
    Files(FileDevice<F>),
    /// A delay line, from what it hands out to what it captures.
    Loop(DelayLine),
    /// The codec of the world. It captures silence of its sample type.
    Codec(SampleType),
    /// A program that the device goes by.
    Card(CardDevice<P>),
}

/// A device that is attached.
#[derive(Drop)]
pub struct AttachedDevice<F: Read + Write + Drop, P: Program + Drop> {
    backend: Backend<F, P>,
}

impl<F: Read + Write + Drop, P: Program + Drop> Model for AttachedDevice<F, P> {
    ghost use Rattle.af_backend.specs.Backends.{BackendState, backend_state};

    ghost Value = { BackendState };

    ghost view = { λ a. backend_state a.backend };
}

impl<F: Read + Write + Drop, P: Program + Drop> AttachedDevice<F, P> {
    /// A device with the backend that its kind names. Files are opened, and the output is made if it does not exist. A program
    /// that the device goes by is started, and a delay line takes its memory.
    pub fn new<R: Files<File = F>, G: Programs<Made = P>>(
        rt: &R,
        programs: &mut G,
        asked: &NewDevice<'_>,
    ) -> io::Result<AttachedDevice<F, P>>
        ensures made { IfOk result (λ device. IsBackend asked.now.kind asked.now.spec.now asked.now.at device) }
        ensures done { may_be_refused asked.now.kind ≡ false → IsOk result }
        ensures memory { needs_memory_alone asked.now.kind ≡ true → IfErr result (λ e. error_kind e ≡ ErrorKind.OutOfMemory) }
    {
        let ty = asked.spec.ty;
        let backend = match asked.kind {
            Kind::Silent => Backend::Silence(ty),
            Kind::Files { input, output } => {
                Backend::Files(FileDevice::open(rt, ty, input, output)?)
            }
            Kind::Loop => match delay_line(asked.alloc, asked.spec) {
                Ok(line) => Backend::Loop(line),
                Err(_) => return Err(ErrorKind::OutOfMemory.into()),
            },
            Kind::Codec { .. } => Backend::Codec(ty),
            Kind::Card {
                card,
                restarts,
                words,
            } => {
                let orders = CardOrders {
                    card,
                    restarts,
                    words,
                };
                let device = CardDevice::start(
                    asked.alloc,
                    programs,
                    orders,
                    asked.spec,
                    asked.at,
                )?;
                Backend::Card(device)
            }
        };
        Ok(AttachedDevice { backend })
    }

    /// The device of a program whose time it goes by, if it does.
    pub fn card(&self) -> Option<&Card<P>>
        ensures { MatchOption result (card_of (Some self.now) ≡ None)
            (λ card. card_of (Some self.now) ≡ Some (card_use P.acts card.now)) }
    {
        match &self.backend {
            Backend::Card(card) => Some(card.card()),
            _ => None,
        }
    }

    /// The frames that its program has due at a moment, at most 4096.
    pub fn due(&mut self, at: u64) -> u32
        ensures most { result ≤ longest_tick }
        ensures asked { IsAskedOf at result (Some self.old) (Some self.new) }
    {
        match &mut self.backend {
            Backend::Card(card) => card.due(at),
            Backend::Silence(_) | Backend::Files(_) | Backend::Loop(_) | Backend::Codec(_) => 0,
        }
    }

    /// Captures as many bytes as there is room for.
    pub fn capture(&mut self, into: &mut [u8]) -> Put
        ensures { CapturesBy (Some self.old) result into.new (Some self.new) }
    {
        match &mut self.backend {
            Backend::Silence(ty) => capture_silence(*ty, into),
            Backend::Files(files) => files.capture(into),
            Backend::Loop(line) => line.capture(into),
            Backend::Codec(ty) => capture_silence(*ty, into),
            Backend::Card(card) => card.capture(into),
        }
    }

    /// Hands all of its sound out.
    pub fn emit<S: Spawner + Drop>(&mut self, codec: &mut CodecDevice<S>, sound: &[u8]) -> Put
        requires { 0 < length sound.now }
        ensures { EmitsBy (Some self.old) result sound.now (Some self.new) codec.old codec.new }
    {
        match &mut self.backend {
            Backend::Silence(_) => Put::Done,
            Backend::Files(files) => files.emit(sound),
            Backend::Loop(line) => line.emit(sound),
            Backend::Codec(_) => codec.emit(sound),
            Backend::Card(card) => card.emit(sound),
        }
    }
}

/// The delay line of a device, which holds silence.
fn delay_line(alloc: Global, spec: &DeviceSpec) -> Result<DelayLine, OutOfMemory>
    ensures { IfOk result (λ line. line ≡ delay_line_of spec.now) }
{
    let frame_bytes = spec.ty.frame_bytes(spec.channels);
    let delay = delay_frames(spec.rate) as usize * frame_bytes;
    DelayLine::new(alloc, delay, silent_byte(spec.ty))
}

/// Captures silence of a sample type.
fn capture_silence(ty: SampleType, into: &mut [u8]) -> Put
    ensures { IsSilence ty result into.new }
{
    into.fill(silent_byte(ty));
    Put::Done
}
