// The controls of a device and its line, as text.
ghost use Rattle.std.specs.Prelude.{◌≡◌, ◌<◌, ◌≤◌, ◌+◌, ◌++◌, length, take};
ghost use Rattle.std.specs.declared.option.Option.TheVariants.{Some};
ghost use Rattle.af_standing.specs.ControlsReport.{control_line, control_text, flag_text, line_text, phone_text, controls_report_text};

use af_request::{Controls, Phone};
use af_sample::Gain;
use af_toolkit::{put, put_gain};

/// How the controls of a device stand, and its line, if it has one.
#[derive(Clone, Copy)]
pub struct ControlsReport {
    pub controls: Controls,
    pub phone: Option<Phone>,
}

/// Writes a switch and a gain at a place, after what is there.
pub fn put_control(out: &mut [u8], at: usize, name: &[u8], on: bool, gain: Gain) -> usize
    requires { (length name.now ≤ 10) × (at + 55 ≤ length out.old) }
    ensures at { result ≤ at + 55 }
    ensures room { length out.new ≡ length out.old }
    ensures bytes { take result out.new ≡ take at out.old ++ control_text name.now on gain }
{
    let at = put(out, at, name);
    let at = put(out, at, if on { b" on " } else { b" off " });
    put_gain(out, at, gain)
}

// Writes a flag as 1 or 0 at a place.
fn put_flag(out: &mut [u8], at: usize, flag: bool) -> usize
    requires { at + 2 ≤ length out.old }
    ensures at { result ≡ at + 2 }
    ensures room { length out.new ≡ length out.old }
    ensures bytes { take result out.new ≡ take at out.old ++ flag_text flag }
{
    put(out, at, if flag { b" 1" } else { b" 0" })
}

/// Writes the flags of a telephone line at a place, after what is there.
pub fn put_phone(out: &mut [u8], at: usize, phone: Phone) -> usize
    requires { at + 14 ≤ length out.old }
    ensures at { result ≡ at + 14 }
    ensures room { length out.new ≡ length out.old }
    ensures bytes { take result out.new ≡ take at out.old ++ phone_text phone }
{
    let at = put(out, at, b"line");
    let at = put_flag(out, at, phone.wanted_off);
    let at = put_flag(out, at, phone.given_off);
    let at = put_flag(out, at, phone.ringing);
    let at = put_flag(out, at, phone.current);
    put_flag(out, at, phone.dead)
}

// Writes the line for a switch and a gain.
fn put_control_line(out: &mut [u8], at: usize, name: &[u8], on: bool, gain: Gain) -> usize
    requires { (length name.now ≤ 10) × (at + 60 ≤ length out.old) }
    ensures at { result ≤ at + 60 }
    ensures room { length out.new ≡ length out.old }
    ensures bytes { take result out.new ≡ take at out.old ++ control_line name.now on gain }
{
    let at = put_control(out, at, name, on, gain);
    put(out, at, b"\n")
}

// Writes the line for a telephone line.
fn put_phone_line(out: &mut [u8], at: usize, phone: Phone) -> usize
    requires { at + 15 ≤ length out.old }
    ensures at { result ≡ at + 15 }
    ensures room { length out.new ≡ length out.old }
    ensures bytes { take result out.new ≡ take at out.old ++ line_text (Some phone) }
{
    let at = put_phone(out, at, phone);
    put(out, at, b"\n")
}

/// Writes a line for each control, and one for the telephone line if there is one, into a buffer: their length.
pub fn write_controls_report(out: &mut [u8], controls_report: ControlsReport) -> usize
    requires { 136 ≤ length out.old }
    ensures within { result ≤ length out.new }
    ensures some { 0 < result }
    ensures bytes { take result out.new ≡ controls_report_text controls_report }
{
    let controls = controls_report.controls;
    let at = put_control_line(out, 0, b"input", controls.input_on, controls.input_gain);
    let at = put_control_line(out, at, b"output", controls.output_on, controls.output_gain);
    match controls_report.phone {
        Some(phone) => put_phone_line(out, at, phone),
        None => at,
    }
}
