// The line that list writes for a device.
ghost use Rattle.std.specs.Prelude.{◌≡◌, ◌<◌, ◌≤◌, ◌+◌, ◌++◌, length, take};
ghost use Rattle.af_standing.specs.List.{device_line, front_text, line_words, controls_report_words, type_text};

use crate::controls_report::{ControlsReport, put_control, put_phone};
use af_request::{DeviceInfo, Phone};
use af_sample::SampleType;
use af_time::DevTime;
use af_toolkit::{put, put_number};

// Writes the word for a sample type at a place.
fn put_type(out: &mut [u8], at: usize, ty: SampleType) -> usize
    requires { at + 5 ≤ length out.old }
    ensures at { result ≤ at + 5 }
    ensures room { length out.new ≡ length out.old }
    ensures bytes { take result out.new ≡ take at out.old ++ type_text ty }
{
    match ty {
        SampleType::Mu255 => put(out, at, b"mu255"),
        SampleType::Alaw => put(out, at, b"alaw"),
        SampleType::Lin16 => put(out, at, b"lin16"),
        SampleType::Lin32 => put(out, at, b"lin32"),
    }
}

// Writes what a device is, and its time, into a buffer, and answers their length.
fn write_front(out: &mut [u8], number: u8, device: DeviceInfo, now: DevTime) -> usize
    requires { 169 ≤ length out.old }
    ensures at { result ≤ 169 }
    ensures room { length out.new ≡ length out.old }
    ensures bytes { take result out.new ≡ front_text number device now.0 }
{
    let at = put_number(out, 0, u64::from(number));
    let at = put(out, at, b" ");
    let at = put_type(out, at, device.ty);
    let at = put(out, at, b" ");
    let at = put_number(out, at, u64::from(device.rate));
    let at = put(out, at, b" ");
    let at = put_number(out, at, u64::from(device.channels));
    let at = put(out, at, b" ");
    put_number(out, at, u64::from(now.0))
}

// Writes the flags of a telephone line at a place, if there is one.
fn put_line(out: &mut [u8], at: usize, line: Option<Phone>) -> usize
    requires { at + 15 ≤ length out.old }
    ensures at { result ≤ at + 15 }
    ensures room { length out.new ≡ length out.old }
    ensures bytes { take result out.new ≡ take at out.old ++ line_words line }
{
    match line {
        Some(phone) => {
            let at = put(out, at, b" ");
            put_phone(out, at, phone)
        }
        None => at,
    }
}

// Writes the state of a device at a place.
fn put_controls_report(out: &mut [u8], at: usize, controls_report: ControlsReport) -> usize
    requires { at + 127 ≤ length out.old }
    ensures at { result ≤ at + 127 }
    ensures room { length out.new ≡ length out.old }
    ensures bytes { take result out.new ≡ take at out.old ++ controls_report_words controls_report }
{
    let controls = controls_report.controls;
    let at = put(out, at, b" ");
    let at = put_control(out, at, b"input", controls.input_on, controls.input_gain);
    let at = put(out, at, b" ");
    let at = put_control(out, at, b"output", controls.output_on, controls.output_gain);
    put_line(out, at, controls_report.phone)
}

/// Writes the line of a device into a buffer: its length.
pub fn write_device_line(
    out: &mut [u8],
    number: u8,
    device: DeviceInfo,
    controls_report: ControlsReport,
    now: DevTime,
) -> usize
    requires { 297 ≤ length out.old }
    ensures within { result ≤ length out.new }
    ensures some { 0 < result }
    ensures bytes { take result out.new ≡ device_line number device controls_report now.0 }
{
    let at = write_front(out, number, device, now);
    let at = put_controls_report(out, at, controls_report);
    put(out, at, b"\n")
}
