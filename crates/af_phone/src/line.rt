// A device's telephone line.
ghost use Rattle.std.specs.Prelude.{◌≡◌, ◌↔◌, ◌⊎◌, true, IsTrue, IsNone, IfSome};
ghost use Rattle.af_wire.specs.Event.{is_value};
ghost use Rattle.af_phone.specs.Lines.{line_after_change, line_after_hook, hook_due, is_change, is_digit, event_kind_of, quiet_line, selects, value_of, with_wanted_hook};

use af_request::Phone;
use af_wire::EventKind;
use std::marker::Model;

/// What changes on a line.
#[derive(Clone, Copy, Debug, PartialEq, Eq)]
pub enum LineChange {
    /// Ringing begins, or ends.
    Ring(bool),
    /// Current begins to flow in the loop, or ends.
    Current(bool),
    /// A digit is dialled, by its ASCII code: one of `0123456789*#ABCD`.
    Digit(u8),
}

impl LineChange {
    /// Whether a line may change so: a digit is one of `0123456789*#ABCD`.
    pub fn is_possible(self) -> bool
        ensures { result ≡ is_change self }
    {
        match self {
            LineChange::Ring(_) | LineChange::Current(_) => true,
            LineChange::Digit(code) => is_digit(code),
        }
    }

    /// The kind and the value of the event that tells the change: 1 or 0 for ringing and current that begin or end, and a
    /// digit's code.
    pub fn event(self) -> (EventKind, u32)
        ensures kind { result.0 ≡ event_kind_of self }
        ensures value { result.1 ≡ value_of self }
        ensures stated { IsTrue (is_value result.0 result.1) }
    {
        match self {
            LineChange::Ring(on) => (EventKind::Ring, u32::from(on)),
            LineChange::Current(on) => (EventKind::Current, u32::from(on)),
            LineChange::Digit(code) => (EventKind::Digit, u32::from(code)),
        }
    }
}

/// Whether a byte is the ASCII code of a digit, one of `0123456789*#ABCD`.
pub fn is_digit(code: u8) -> bool
    ensures { result ≡ is_digit code }
{
    matches!(code, b'0'..=b'9' | b'*' | b'#' | b'A'..=b'D')
}

/// A telephone line. Clauses see its five flags.
#[derive(Clone, Copy, Debug, PartialEq, Eq)]
pub struct Line {
    phone: Phone,
}

impl Model for Line {
    ghost use Rattle.af_request.specs.declared.reply.Phone.{Phone};

    ghost Value = { Phone };

    ghost view = { λ line. line.phone };

    ghost inverse = { λ phone. record { phone = phone } };
}

impl Line {
    /// A line that is on the hook, does not ring, has no current, and is live.
    pub fn new() -> Line
        ensures { result ≡ quiet_line }
    {
        Line {
            phone: Phone {
                wanted_off: false,
                given_off: false,
                ringing: false,
                current: false,
                dead: false,
            },
        }
    }

    /// The line changes, dead or live. It answers the kind and the value of the event that tells it. A code that is no
    /// digit's is told like one, and changes nothing either.
    pub fn change(&mut self, change: LineChange) -> (EventKind, u32)
        ensures line { self.new ≡ line_after_change change self.old }
        ensures kind { result.0 ≡ event_kind_of change }
        ensures value { result.1 ≡ value_of change }
        ensures stated { IsTrue (is_value result.0 result.1) }
    {
        match change {
            LineChange::Ring(on) => self.phone.ringing = on,
            LineChange::Current(on) => self.phone.current = on,
            LineChange::Digit(_) => {}
        }
        change.event()
    }

    /// The hook is wanted off, or on.
    pub fn want(&mut self, off: bool)
        ensures { self.new ≡ with_wanted_hook off self.old }
    {
        self.phone.wanted_off = off;
    }

    /// The wanted hook, off or on, if it is still to be given. None where the line is dead or its two hooks agree.
    pub fn needs_hook(&self) -> Option<bool>
        ensures due { result ≡ hook_due self.now }
        ensures wanted { IfSome result (λ off. off ≡ self.now.wanted_off) }
        ensures none { IsNone result ↔ ((self.now.dead ≡ true) ⊎ (self.now.wanted_off ≡ self.now.given_off)) }
    {
        if self.phone.dead || self.phone.wanted_off == self.phone.given_off {
            return None;
        }
        Some(self.phone.wanted_off)
    }

    /// A try to give the line the wanted hook was done, or has failed: then the line is dead.
    pub fn hooked(&mut self, done: bool)
        ensures { self.new ≡ line_after_hook done self.old }
    {
        if done {
            self.phone.given_off = self.phone.wanted_off;
        } else {
            self.phone.dead = true;
        }
    }

    /// All flags of the line.
    pub fn phone(&self) -> Phone
        ensures { result ≡ self.now }
    {
        self.phone
    }
}

/// Whether a mask of events, 1 Ring, 2 Hook, 4 Current and 8 Digit, selects a kind.
pub fn event_for(mask: u32, kind: EventKind) -> bool
    ensures { result ≡ selects mask kind }
{
    mask & u32::from(kind.code()) != 0
}
