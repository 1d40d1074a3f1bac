// The devices of a world, by number, and how one is attached.
ghost use Rattle.std.specs.Prelude.{◌≡◌, ◌≢◌, ◌<◌, [], length, false, true, not, ◌&&◌, nat_lt, MatchOption};
ghost use Rattle.std.specs.declared.option.Option.TheVariants.{None, Some};
ghost use Rattle.af_limits.specs.Limits.{most_devices};
ghost use Rattle.af_codec.specs.Codec.{TellsThese};
ghost use Rattle.af_backend.specs.CardUse.{card_use};
ghost use Rattle.af_backend.specs.Backends.{backend_at, card_of, none_attached, may_be_refused, CapturesBy, CapturesAt, EmitsBy, EmitsAt, AttachesAt};
ghost use Rattle.af_backend.specs.CodecUse.{begun_codec, codec_allows, codec_after};
ghost use Rattle.af_backend.specs.Backends.{round_after, source_of};
ghost use Rattle.af_backend.specs.Rounds.{new_round, is_attached, GoesOn};
ghost use Rattle.af_backend.specs.Asked.{GoesOver};

use crate::attached_device::AttachedDevice;
use crate::codec_device::CodecDevice;
use crate::round::Round;
use crate::source::Source;
use af_card::Card;
use af_clock::Pace;
use af_io::Put;
use af_limits::MOST_DEVICES;
use af_loop::delay_frames;
use af_process::Spawner;
use af_program::{Program, Programs};
use af_world::{DeviceSpec, Kind, Ready};
use std::alloc::Global;
use std::io::{self, ErrorKind, Read, Write};
use std::rt::Files;

/// A device that is to be attached at a moment.
#[derive(Clone, Copy)]
pub struct NewDevice<'a> {
    pub alloc: Global,
    pub number: u8,
    pub spec: &'a DeviceSpec,
    pub kind: Kind<'a>,
    pub at: u64,
}

/// The devices that are attached, the codec, which may be the backend of one of them, and the round over all of them.
#[derive(Drop)]
pub struct Devices<F: Read + Write + Drop, S: Spawner + Drop, P: Program + Drop> {
    pub attached: [Option<AttachedDevice<F, P>>; MOST_DEVICES],
    pub codec: CodecDevice<S>,
    pub round: Round,
}

impl<F: Read + Write + Drop, S: Spawner + Drop, P: Program + Drop> Devices<F, S, P> {
    /// No devices. It takes no memory.
    pub fn new(alloc: Global, spawner: S) -> Devices<F, S, P>
        requires { TellsThese [] (S.acts spawner) }
        ensures attached { result.attached ≡ none_attached }
        ensures codec { result.codec ≡ begun_codec (S.acts spawner) }
        ensures round { result.round ≡ new_round }
    {
        Devices {
            attached: [None, None, None, None, None, None, None, None],
            codec: CodecDevice::new(alloc, spawner),
            round: Round::new(),
        }
    }

    /// Attaches a device, if it is not yet. One device alone may have the codec.
    pub fn attach<R: Files<File = F>, G: Programs<Made = P>>(
        &mut self,
        rt: &R,
        programs: &mut G,
        asked: NewDevice<'_>,
    ) -> Ready
        ensures attaches { result ≡ Ready.Done → (asked.entry.number < most_devices)
            × (is_attached self.old.round asked.entry.number ≡ false) }
        ensures allowed { result ≡ Ready.Done → codec_allows self.old.codec asked.entry.kind ≡ true }
        ensures done { asked.entry.number < most_devices → is_attached self.old.round asked.entry.number ≡ false →
            codec_allows self.old.codec asked.entry.kind ≡ true → may_be_refused asked.entry.kind ≡ false → result ≡ Ready.Done }
        ensures round { self.new.round
            ≡ round_after result asked.entry.kind self.old.round asked.entry.number asked.entry.spec.now.rate }
        ensures attached { AttachesAt result asked.entry.kind asked.entry.number asked.entry.spec.now asked.entry.at
            self.old.attached self.new.attached }
        ensures codec { self.new.codec ≡ codec_after result asked.entry.kind self.old.codec }
    {
        let place = asked.number as usize;
        if place >= self.attached.len() || self.round.is_attached(asked.number) {
            return Ready::Failed;
        }
        let device = match AttachedDevice::new(rt, programs, &asked) {
            Ok(device) => device,
            Err(e) if e.kind() == ErrorKind::OutOfMemory => return Ready::OutOfMemory,
            Err(_) => return Ready::Failed,
        };
        if !self.codec.prepare(asked.kind) {
            return Ready::Failed;
        }
        self.attached[place] = Some(device);
        self.round
            .add(asked.number, source_of(asked.kind, asked.spec.rate));
        Ready::Done
    }

    /// The next device of the round with frames due at this reading of the clock, and how many. Devices that go by their program
    /// are asked.
    pub fn next_tick(&mut self, nanos: u64) -> Option<(u8, u32)>
        ensures on { GoesOn nanos self.old.round result self.new.round }
        ensures over { GoesOver nanos self.old.round result self.new.round self.old.attached self.new.attached }
        ensures rest { self.new ≡ record self.old { attached = self.new.attached; round = self.new.round } }
    {
        self.round.next_tick(nanos, &mut self.attached)
    }

    /// The device with its program, if this device goes by one.
    pub fn card(&self, device: u8) -> Option<&Card<P>>
        ensures { MatchOption result (card_of (backend_at self.now.attached device) ≡ None)
            (λ card. card_of (backend_at self.now.attached device) ≡ Some (card_use P.acts card.now)) }
    {
        match self.attached.get(usize::from(device)) {
            Some(place) => card_by(place),
            None => None,
        }
    }

    /// Captures of a device as many bytes as there is room for, by its backend.
    pub fn capture(&mut self, device: u8, into: &mut [u8]) -> Put
        ensures captures { CapturesAt device result into.new self.old.attached self.new.attached }
        ensures rest { self.new ≡ record self.old { attached = self.new.attached } }
    {
        let place = device as usize;
        if place >= self.attached.len() {
            return Put::Failed;
        }
        capture_by(&mut self.attached[place], into)
    }

    /// Hands all of a device's sound out, by its backend.
    pub fn emit(&mut self, device: u8, sound: &[u8]) -> Put
        requires { 0 < length sound.now }
        ensures emits { EmitsAt device result sound.now self.old.attached self.new.attached self.old.codec self.new.codec }
        ensures rest { self.new ≡ record self.old { attached = self.new.attached; codec = self.new.codec } }
    {
        let place = device as usize;
        if place >= self.attached.len() {
            return Put::Failed;
        }
        emit_by(&mut self.attached[place], &mut self.codec, sound)
    }
}

/// The clock of a device of this kind: its program, or the system's clock with so many frames a second. A device that hears
/// itself ticks by at most as many frames as its sound is late.
fn source_of(kind: Kind<'_>, rate: u32) -> Source
    ensures { result ≡ source_of kind.entry rate }
{
    match kind {
        Kind::Card { .. } => Source::Program,
        Kind::Loop => Source::Clock(Pace::within(delay_frames(rate), rate)),
        Kind::Silent | Kind::Files { .. } | Kind::Codec { .. } => Source::Clock(Pace::new(rate)),
    }
}

/// The device at a place with its program, if it goes by one.
fn card_by<F: Read + Write + Drop, P: Program + Drop>(
    place: &Option<AttachedDevice<F, P>>,
) -> Option<&Card<P>>
    ensures { MatchOption result (card_of place.now ≡ None) (λ card. card_of place.now ≡ Some (card_use P.acts card.now)) }
{
    match place {
        Some(device) => device.card(),
        None => None,
    }
}

/// Captures of the device at a place, if there is one.
fn capture_by<F: Read + Write + Drop, P: Program + Drop>(
    place: &mut Option<AttachedDevice<F, P>>,
    into: &mut [u8],
) -> Put
    ensures { CapturesBy place.old result into.new place.new }
{
    match place {
        Some(device) => device.capture(into),
        None => Put::Failed,
    }
}

/// Hands sound out by the device at a place, if there is one.
fn emit_by<F: Read + Write + Drop, S: Spawner + Drop, P: Program + Drop>(
    place: &mut Option<AttachedDevice<F, P>>,
    codec: &mut CodecDevice<S>,
    sound: &[u8],
) -> Put
    requires { 0 < length sound.now }
    ensures { EmitsBy place.old result sound.now place.new codec.old codec.new }
{
    match place {
        Some(device) => device.emit(codec, sound),
        None => Put::Failed,
    }
}

/// What a refusal of the system is to a caller.
pub fn refusal(error: &io::Error) -> Ready
    ensures { result ≢ Ready.Done }
{
    if error.kind() == ErrorKind::OutOfMemory {
        Ready::OutOfMemory
    } else {
        Ready::Failed
    }
}
