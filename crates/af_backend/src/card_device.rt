// A device that has a program for itself.
ghost use Rattle.std.specs.Prelude.{◌≡◌, ◌<◌, ◌≤◌, length, IfOk};
ghost use Rattle.af_limits.specs.Limits.{longest_tick};
ghost use Rattle.af_process.specs.Acts.{words_of};
ghost use Rattle.af_sample.specs.SampleTypes.{frame_bytes};
ghost use Rattle.af_backend.specs.CardUse.{card_use, shape_of, input_bytes_of, AsksCard, CardCaptures, CardEmits, IsBegun};

use af_card::{Card, Shape};
use af_config::{LONGEST_WORD, is_command_line};
use af_io::Put;
use af_process::Words;
use af_program::{Launched, Program, Programs, Ways};
use af_time::OutOfMemory;
use af_world::{CardKind, DeviceSpec, MOST_CARD_RESTARTS, silent_byte};
use std::alloc::Global;
use std::io::{self, ErrorKind};
use std::marker::Model;

/// The least buffer that the system has for a socket. It holds one to six pieces of sound, 10 to 60 milliseconds.
const SHORTEST_INPUT: u32 = 2304;

/// What the program of a device is to be: which sound it gives and is given, how often it may be started again, and by which
/// words.
#[derive(Clone, Copy)]
pub(crate) struct CardOrders<'a> {
    pub card: CardKind,
    pub restarts: u32,
    pub words: &'a Words,
}

/// A device that has a program for itself. It is in a box, so that devices without a program are small.
#[derive(Drop)]
pub struct CardDevice<P: Program + Drop> {
    card: Box<Card<P>>,
}

impl<P: Program + Drop> Model for CardDevice<P> {
    ghost use Rattle.std.specs.Prelude.{box_value};
    ghost use Rattle.af_backend.specs.CardUse.{CardUse, card_use};

    ghost Value = { CardUse };

    ghost view = { λ d. card_use P.acts (box_value d.card) };
}

impl<P: Program + Drop> CardDevice<P> {
    /// A device of these orders, whose program is started at this moment. The numbers have to be in their ranges.
    pub(crate) fn start<G: Programs<Made = P>>(
        alloc: Global,
        programs: &mut G,
        orders: CardOrders<'_>,
        spec: &DeviceSpec,
        at: u64,
    ) -> io::Result<CardDevice<P>>
        ensures begun { IfOk result
            (λ device. IsBegun orders.entry.card orders.entry.restarts (words_of orders.entry.words.now) spec.now device) }
        ensures moment { IfOk result (λ device. device.at ≡ at) }
    {
        let shape = shape_of(orders.card, spec);
        let is_in_range = 1 <= shape.frame_bytes
            && shape.frame_bytes <= 8
            && orders.restarts <= MOST_CARD_RESTARTS
            && is_command_line(orders.words, LONGEST_WORD);
        if !is_in_range {
            return Err(ErrorKind::InvalidInput.into());
        }
        let program = programs
            .program(alloc, ways_of(orders.card), input_bytes(&shape))
            .map_err(no_memory)?;
        let card = Card::new(alloc, program, shape, orders.restarts, orders.words);
        let mut card = Box::new(alloc, card.map_err(no_memory)?)?;
        match card.begin(at) {
            Launched::Runs => Ok(CardDevice { card }),
            Launched::Failed => Err(ErrorKind::Other.into()),
            Launched::OutOfMemory => Err(ErrorKind::OutOfMemory.into()),
        }
    }

    /// The device.
    pub fn card(&self) -> &Card<P>
        ensures { self.now ≡ card_use P.acts result.now }
    {
        &self.card
    }

    /// The frames that are due at a moment, at most 4096.
    pub(crate) fn due(&mut self, at: u64) -> u32
        ensures most { result ≤ longest_tick }
        ensures asks { AsksCard at result self.old self.new }
    {
        self.card.due(at)
    }

    /// Captures as many bytes as there is room for.
    pub(crate) fn capture(&mut self, into: &mut [u8]) -> Put
        ensures captures { CardCaptures result self.old into.new self.new }
    {
        self.card.capture(into)
    }

    /// Hands all of its sound out.
    pub(crate) fn emit(&mut self, sound: &[u8]) -> Put
        requires { 0 < length sound.now }
        ensures emits { CardEmits result self.old sound.now self.new }
    {
        self.card.emit(sound)
    }
}

/// The shape of such a device.
fn shape_of(card: CardKind, spec: &DeviceSpec) -> Shape
    ensures { result ≡ shape_of card (frame_bytes spec.now.ty spec.now.channels) spec.now }
{
    Shape {
        kind: card,
        frame_bytes: spec.ty.frame_bytes(spec.channels),
        silence: silent_byte(spec.ty),
        rate: spec.rate,
    }
}

/// Which ways bytes go.
fn ways_of(card: CardKind) -> Ways {
    match card {
        CardKind::Speaker | CardKind::Encoder => Ways::Given,
        CardKind::Microphone => Ways::Gives,
        CardKind::Card => Ways::Both,
    }
}

/// How many bytes may wait before the program. A loudspeaker has as few as the system can have, since that is the delay of its
/// sound. A card and an encoder have a quarter of a second. The system doubles this, and counts pieces of 10 or 20 milliseconds
/// twice as long as they are.
fn input_bytes(shape: &Shape) -> u32
    requires { shape.now.frame_bytes ≤ 8 }
    ensures { result ≡ input_bytes_of shape.now.kind shape.now }
{
    match shape.kind {
        CardKind::Speaker | CardKind::Microphone => SHORTEST_INPUT,
        CardKind::Card | CardKind::Encoder => {
            let frame_bytes = u32::try_from(shape.frame_bytes).unwrap_or(1);
            (shape.rate / 4)
                .saturating_mul(frame_bytes)
                .max(SHORTEST_INPUT)
        }
    }
}

/// Out of memory, as the system says it.
fn no_memory(_: OutOfMemory) -> io::Error {
    ErrorKind::OutOfMemory.into()
}
