// What was heard of a telephone line.
ghost use Rattle.std.specs.Prelude.{◌≡◌, ◌≤◌, length, is_some};
ghost use Rattle.af_attendant.specs.Line.{asks_end, call_digits, dialed, ends_by, fresh_line, heard_by, in_call, is_ring, is_taken, line_after, over_call};

use crate::job::AttendantJob;
use af_cli::{has_digit, is_digit};
use af_wire::{Event, EventKind};
use arrayvec::ArrayString;
use std::marker::Model;
use std::mem;

// The most rings in a row that are counted.
const MOST_RINGS: u32 = 1000000;

/// How often it has rung in a row; the digits since the last hang-up; and those of a caller who has hung up in this call.
#[derive(Drop)]
pub struct Line {
    rings: u32,
    digits: ArrayString<64>,
    gone: Option<ArrayString<64>>,
}

impl Model for Line {
    ghost use Rattle.std.specs.Prelude.{option_map, length, ◌≤◌};
    ghost use Rattle.arrayvec.specs.ArrayString.{ArrayString};
    ghost use Rattle.af_attendant.specs.Line.{LineState};

    ghost Value = { LineState };

    ghost view = { λ l. record {
      rings = l.rings;
      digits = l.digits.bytes;
      gone = option_map (λ (digits : ArrayString). digits.bytes) l.gone;
    } };

    ghost invariant = { λ l. (l.rings ≤ 1000000) × (length l.digits.bytes ≤ 64) };
}

// Keeps a digit, if it is one of telephones and there is room.
fn keep(digits: &mut ArrayString<64>, code: u32)
    requires { length digits.old.bytes ≤ 64 }
    ensures kept { digits.new.bytes ≡ dialed digits.old.bytes code }
    ensures few { length digits.new.bytes ≤ 64 }
{
    if is_digit(code) && digits.len() < 64 {
        digits.push(char::from(code as u8));
    }
}

impl Line {
    /// Nothing was heard.
    pub fn new() -> Line
        ensures { result ≡ fresh_line }
    {
        Line {
            rings: 0,
            digits: ArrayString::new(),
            gone: None,
        }
    }

    /// The digits since the last hang-up.
    pub fn digits(&self) -> &str
        ensures digits { result.now ≡ self.now.digits }
        ensures few { length result.now ≤ 64 }
    {
        self.digits.as_str()
    }

    /// Whether the caller has hung up in this call.
    pub fn is_gone(&self) -> bool
        ensures { result ≡ is_some self.now.gone }
    {
        self.gone.is_some()
    }

    /// The digits of this call.
    pub fn call_digits(&self) -> &str
        ensures digits { result.now ≡ call_digits self.now }
        ensures few { length result.now ≤ 64 }
    {
        match &self.gone {
            Some(digits) => digits.as_str(),
            None => self.digits.as_str(),
        }
    }

    /// An event is heard.
    pub fn hear(&mut self, job: &AttendantJob, event: Event)
        ensures { self.new ≡ line_after job.now event self.old }
    {
        if event.device != job.answer.device {
            return;
        }
        match event.kind {
            EventKind::Ring => self.ring(event.value),
            EventKind::Hook => self.move_hook(event.value),
            EventKind::Current => self.change_current(event.value),
            EventKind::Digit => self.dial(event.value),
        }
    }

    // It rings, or the bell is silent again.
    fn ring(&mut self, value: u32)
        ensures { self.new ≡ heard_by EventKind.Ring value self.old }
    {
        if value == 1 && self.rings < MOST_RINGS {
            self.rings += 1;
        }
    }

    // The hook was taken off, which ends a row of rings, or put on.
    fn move_hook(&mut self, value: u32)
        ensures { self.new ≡ heard_by EventKind.Hook value self.old }
    {
        if value == 1 {
            self.rings = 0;
        }
    }

    // The current flows, or it stops: then the caller has hung up.
    fn change_current(&mut self, value: u32)
        ensures { self.new ≡ heard_by EventKind.Current value self.old }
    {
        if value != 0 {
            return;
        }
        let digits = mem::take(&mut self.digits);
        if self.gone.is_none() {
            self.gone = Some(digits);
        }
    }

    // A digit was dialed.
    fn dial(&mut self, code: u32)
        ensures { self.new ≡ heard_by EventKind.Digit code self.old }
    {
        keep(&mut self.digits, code);
    }

    /// A call begins: nobody has hung up in it.
    pub fn begin(&mut self)
        ensures { self.new ≡ in_call self.old }
    {
        self.rings = 0;
        self.gone = None;
    }

    /// A call is over: its digits are forgotten.
    pub fn end(&mut self)
        ensures { self.new ≡ over_call self.old }
    {
        if self.gone.is_none() {
            self.digits.clear();
        }
    }
}

// Whether an event of a kind has a command that runs ended.
fn ends_by(job: &AttendantJob, kind: EventKind, value: u32) -> bool
    ensures { result ≡ ends_by job.now kind value }
{
    match kind {
        EventKind::Digit => has_digit(job.until.as_str().as_bytes(), value),
        EventKind::Current => job.hang_up && value == 0,
        EventKind::Ring | EventKind::Hook => false,
    }
}

/// Whether an event has a command that runs ended: a digit that ends commands, or the current that stops.
pub fn asks_end(job: &AttendantJob, event: Event) -> bool
    ensures { result ≡ asks_end job.now event }
{
    event.device == job.answer.device && ends_by(job, event.kind, event.value)
}

// Whether an event of a kind is a ring that begins.
fn is_ring(kind: EventKind, value: u32) -> bool
    ensures { result ≡ is_ring kind value }
{
    match kind {
        EventKind::Ring => value == 1,
        EventKind::Hook | EventKind::Current | EventKind::Digit => false,
    }
}

/// Whether a call is to be taken, at an event that was heard: it is the ring with the stated number, or one after it.
pub fn is_taken(job: &AttendantJob, line: &Line, event: Event) -> bool
    ensures { result ≡ is_taken job.now event line.now }
{
    event.device == job.answer.device
        && is_ring(event.kind, event.value)
        && job.answer.rings <= line.rings
}
