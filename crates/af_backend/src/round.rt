// A round over the devices: each is asked how many frames are due, and ticks by them.
ghost use Rattle.std.specs.Prelude.{◌≡◌, ◌≤◌, ◌<◌, true, false, IfSome};
ghost use Rattle.af_limits.specs.Limits.{most_devices, longest_tick};
ghost use Rattle.af_backend.specs.Rounds.{due_of, some_source_after, reading_after, new_round, round_with, next_round, is_attached, FindsDue, GoesOn, IsDue, IsSettled, NoneByProgram};
ghost use Rattle.af_backend.specs.Asked.{AsksUpTo, GoesOver, IsAsked, IsAskedOf};

use crate::attached_device::AttachedDevice;
use crate::source::Source;
use af_limits::MOST_DEVICES;
use af_program::Program;
use std::io::{Read, Write};
use std::marker::Model;

/// How many nanoseconds the reading of a round is at most after that of the round before. While a server that stood still catches
/// up, its clients are served between steps that are short against what they send and get at once.
pub const LONGEST_STEP_NANOS: u64 = 20_000_000;

/// The round over the attached devices. It has the clock of each, the device that comes next, and whether one ticked in it. It
/// has its reading of the system's clock, once it has come to a device, and the last reading that this or an earlier round went
/// by.
#[derive(Drop)]
pub struct Round {
    sources: [Option<Source>; MOST_DEVICES],
    // no device is attached at this number or above it
    end: usize,
    next: usize,
    ticked: bool,
    reading: Option<u64>,
    last: Option<u64>,
    // A reading at which no device has a frame due. Later rounds by it skip all devices: a busy server makes many within a
    // millisecond.
    settled: Option<u64>,
    // Whether a device goes by its program, which may have more frames due at the same reading.
    has_programs: bool,
}

impl Model for Round {
    ghost use Rattle.std.specs.Prelude.{◌≡◌, ◌≤◌, false, length, IfSome};
    ghost use Rattle.af_limits.specs.Limits.{most_devices};
    ghost use Rattle.af_backend.specs.Rounds.{RoundState, IsSettled, NoneByProgram, NoneFrom};

    ghost Value = { RoundState };

    ghost view = { λ r. record { sources = r.sources; next = r.next; ticked = r.ticked; reading = r.reading; last = r.last } };

    ghost invariant = { λ r. (r.end ≤ most_devices) × NoneFrom r.end r.sources
        × IfSome r.settled (λ nanos. IsSettled nanos r.sources)
        × (r.has_programs ≡ false → NoneByProgram r.sources) };
}

impl Round {
    /// A round over no devices.
    pub fn new() -> Round
        ensures { result ≡ new_round }
    {
        Round {
            sources: [None, None, None, None, None, None, None, None],
            end: 0,
            next: 0,
            ticked: false,
            reading: None,
            last: None,
            settled: None,
            has_programs: false,
        }
    }

    /// Whether a device is attached.
    pub fn is_attached(&self, device: u8) -> bool
        ensures { result ≡ is_attached self.now device }
    {
        match self.sources.get(device as usize) {
            Some(source) => source.is_some(),
            None => false,
        }
    }

    /// A device goes on by this clock.
    pub(crate) fn add(&mut self, device: u8, source: Source)
        requires { device < most_devices }
        ensures { self.new ≡ round_with self.old device source }
    {
        let place = usize::from(device);
        self.has_programs = self.has_programs || source.is_program();
        self.sources[place] = Some(source);
        self.end = self.end.max(place + 1);
        self.settled = None;
    }

    /// Whether a device may go by its program.
    pub fn has_programs(&self) -> bool
        ensures { result ≡ false → NoneByProgram self.now.sources }
    {
        self.has_programs
    }

    /// The reading of the clock that the round goes by, once it has come to a device.
    pub fn reading(&self) -> Option<u64>
        ensures { result ≡ self.now.reading }
    {
        self.reading
    }

    /// The last reading that this or an earlier round went by.
    pub fn last_reading(&self) -> Option<u64>
        ensures { result ≡ self.now.last }
    {
        self.last
    }

    /// The reading that a round goes by if the clock shows this as it comes to its first device: at most 20 milliseconds after
    /// that of the round before.
    pub fn reading_after(&self, shown: u64) -> u64
        ensures { result ≡ reading_after self.now.last shown }
    {
        match self.last {
            Some(last) => shown.min(last.saturating_add(LONGEST_STEP_NANOS)),
            None => shown,
        }
    }

    // Whether it is known that no device has a frame due at a reading.
    fn is_settled(&self, nanos: u64) -> bool
        ensures { result ≡ true → IsSettled nanos self.now.sources }
    {
        match self.settled {
            Some(settled) => settled == nanos,
            None => false,
        }
    }

    /// The next device of the round with frames due at this reading of the clock, and how many. The round goes by that reading
    /// from now on. Devices that go by their program are asked.
    pub(crate) fn next_tick<F: Read + Write + Drop, P: Program + Drop>(
        &mut self,
        nanos: u64,
        attached: &mut [Option<AttachedDevice<F, P>>; MOST_DEVICES],
    ) -> Option<(u8, u32)>
        ensures on { GoesOn nanos self.old result self.new }
        ensures over { GoesOver nanos self.old result self.new attached.old attached.new }
    {
        self.reading = Some(nanos);
        self.last = Some(nanos);
        if self.is_settled(nanos) {
            self.next = self.next.max(MOST_DEVICES);
            return None;
        }
        match first_due(&mut self.sources, attached, self.next, self.end, nanos) {
            Some((device, frames)) => {
                self.next = usize::from(device) + 1;
                self.ticked = true;
                self.settled = None;
                Some((device, frames))
            }
            None => {
                self.settled = settled_at(nanos, self.next, self.has_programs);
                self.next = self.next.max(MOST_DEVICES);
                None
            }
        }
    }

    /// Whether a device ticked in this round.
    pub fn has_ticked(&self) -> bool
        ensures { result ≡ self.now.ticked }
    {
        self.ticked
    }

    /// A new round begins.
    pub fn begin(&mut self)
        ensures { self.new ≡ next_round self.old }
    {
        self.next = 0;
        self.ticked = false;
        self.reading = None;
    }
}

/// The reading that is settled if a round came to all devices at this one, from the first of these on, and nothing was due.
fn settled_at(nanos: u64, from: usize, has_programs: bool) -> Option<u64>
    ensures { IfSome result (λ settled. (settled ≡ nanos) × (from ≡ 0) × (has_programs ≡ false)) }
{
    if from == 0 && !has_programs {
        Some(nanos)
    } else {
        None
    }
}

/// The first device between two with frames due at this reading, and how many.
fn first_due<F: Read + Write + Drop, P: Program + Drop>(
    sources: &mut [Option<Source>; MOST_DEVICES],
    attached: &mut [Option<AttachedDevice<F, P>>; MOST_DEVICES],
    from: usize,
    to: usize,
    nanos: u64,
) -> Option<(u8, u32)>
    requires { to ≤ most_devices }
    ensures due { FindsDue nanos from to sources.old result sources.new }
    ensures asked { AsksUpTo nanos from to sources.old result attached.old attached.new }
{
    for device in from..to {
        let frames = due(&mut sources[device], &mut attached[device], nanos);
        if frames > 0 {
            return Some((device as u8, frames));
        }
    }
    None
}

/// The frames of a device that are due at this reading, by the clock that it goes by.
fn due<F: Read + Write + Drop, P: Program + Drop>(
    source: &mut Option<Source>,
    device: &mut Option<AttachedDevice<F, P>>,
    nanos: u64,
) -> u32
    ensures value { IsDue nanos source.old result }
    ensures all { due_of nanos source.old ≤ result }
    ensures most { result ≤ longest_tick }
    ensures later { source.new ≡ some_source_after nanos source.old }
    ensures asked { IsAsked nanos result source.old device.old device.new }
{
    match source {
        Some(Source::Clock(pace)) => pace.due(nanos),
        Some(Source::Program) => due_by_program(device, nanos),
        None => 0,
    }
}

/// The frames of a device that its program has due at this reading.
fn due_by_program<F: Read + Write + Drop, P: Program + Drop>(
    device: &mut Option<AttachedDevice<F, P>>,
    nanos: u64,
) -> u32
    ensures most { result ≤ longest_tick }
    ensures asked { IsAskedOf nanos result device.old device.new }
{
    match device {
        Some(device) => device.due(nanos),
        None => 0,
    }
}
