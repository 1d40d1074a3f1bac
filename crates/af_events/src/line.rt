// The line that is written for an event.
ghost use Rattle.std.specs.Prelude.{◌≡◌, ◌<◌, ◌≤◌, ◌+◌, ◌++◌, length, take};
ghost use Rattle.af_events.specs.Lines.{digit_text, event_line, flag_text, value_text};
ghost use Rattle.af_cli.specs.Events.{kind_name};

use af_cli::kind_name;
use af_toolkit::{put, put_number};
use af_wire::{Event, EventKind};

// Writes `on` or `off` at a place.
fn put_flag(out: &mut [u8], at: usize, on: bool) -> usize
    requires { at + 3 ≤ length out.old }
    ensures at { result ≤ at + 3 }
    ensures room { length out.new ≡ length out.old }
    ensures bytes { take result out.new ≡ take at out.old ++ flag_text on }
{
    if on {
        put(out, at, b"on")
    } else {
        put(out, at, b"off")
    }
}

// Writes a digit at a place, by its ASCII code. A code that is no visible character is written as a number after `\`.
fn put_digit(out: &mut [u8], at: usize, code: u32) -> usize
    requires { at + 41 ≤ length out.old }
    ensures at { result ≤ at + 41 }
    ensures room { length out.new ≡ length out.old }
    ensures bytes { take result out.new ≡ take at out.old ++ digit_text code }
{
    if 33 <= code && code <= 126 {
        put(out, at, &[code as u8])
    } else {
        let at = put(out, at, b"\\");
        put_number(out, at, u64::from(code))
    }
}

// Writes what an event of a kind says at a place.
fn put_value(out: &mut [u8], at: usize, event: Event) -> usize
    requires { at + 41 ≤ length out.old }
    ensures at { result ≤ at + 41 }
    ensures room { length out.new ≡ length out.old }
    ensures bytes { take result out.new ≡ take at out.old ++ value_text event.kind event.value }
{
    match event.kind {
        EventKind::Ring | EventKind::Current => put_flag(out, at, event.value == 1),
        EventKind::Hook => put_flag(out, at, event.value != 1),
        EventKind::Digit => put_digit(out, at, event.value),
    }
}

// Writes the name of a kind at a place.
fn put_kind(out: &mut [u8], at: usize, kind: EventKind) -> usize
    requires { at + 5 ≤ length out.old }
    ensures at { result ≤ at + 5 }
    ensures room { length out.new ≡ length out.old }
    ensures bytes { take result out.new ≡ take at out.old ++ kind_name kind }
{
    put(out, at, kind_name(kind).as_bytes())
}

/// Writes the line of an event into a buffer, and answers its length.
pub fn write_event_line(out: &mut [u8], event: Event) -> usize
    requires { 160 ≤ length out.old }
    ensures within { result ≤ length out.new }
    ensures some { 0 < result }
    ensures bytes { take result out.new ≡ event_line event }
{
    let at = put_number(out, 0, u64::from(event.time.0));
    let at = put(out, at, b" ");
    let at = put_number(out, at, u64::from(event.device));
    let at = put(out, at, b" ");
    let at = put_kind(out, at, event.kind);
    let at = put(out, at, b" ");
    let at = put_value(out, at, event);
    put(out, at, b"\n")
}
