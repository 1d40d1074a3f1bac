// The lines that are written of intervals.
ghost use Rattle.std.specs.Prelude.{◌≡◌, ◌<◌, ◌≤◌, ◌+◌, ◌++◌, decimal, length, take};
ghost use Rattle.af_meter.specs.Lines.{level_text, levels_line, line_text};

use crate::level::{Level, Levels};
use crate::row::Line;
use af_time::DevTime;
use af_toolkit::{put, put_number};

// Writes how loud a channel is at a place.
fn put_level(out: &mut [u8], at: usize, level: Level) -> usize
    requires { at + 92 ≤ length out.old }
    ensures at { result ≤ at + 92 }
    ensures room { length out.new ≡ length out.old }
    ensures bytes { take result out.new ≡ take at out.old ++ level_text level }
{
    let at = put(out, at, b" peak ");
    let at = put_number(out, at, u64::from(level.peak));
    let at = put(out, at, b" mean ");
    put_number(out, at, u64::from(level.mean))
}

// Writes how loud each channel is in the interval at a time.
fn write_levels(out: &mut [u8], time: DevTime, levels: &Levels) -> usize
    requires { 240 ≤ length out.old }
    ensures within { result ≤ length out.new }
    ensures some { 0 < result }
    ensures bytes { take result out.new ≡ levels_line time.0 levels.now }
{
    let at = put_number(out, 0, u64::from(time.0));
    let at = put_level(out, at, levels.first);
    match levels.second {
        Some(second) => {
            let at = put_level(out, at, second);
            put(out, at, b"\n")
        }
        None => put(out, at, b"\n"),
    }
}

// Writes a change in the interval at a time.
fn write_change(out: &mut [u8], time: DevTime, change: &[u8]) -> usize
    requires room { 240 ≤ length out.old }
    requires some { 0 < length change.now }
    requires few { length change.now ≤ 10 }
    ensures within { result ≤ length out.new }
    ensures some { 0 < result }
    ensures bytes { take result out.new ≡ decimal time.0 ++ change.now }
{
    let at = put_number(out, 0, u64::from(time.0));
    put(out, at, change)
}

/// Writes a line of the interval at a time into a buffer, and answers its length.
pub fn write_line(out: &mut [u8], time: DevTime, levels: &Levels, line: Line) -> usize
    requires { 240 ≤ length out.old }
    ensures within { result ≤ length out.new }
    ensures some { 0 < result }
    ensures bytes { take result out.new ≡ line_text time.0 levels.now line }
{
    match line {
        Line::Levels => write_levels(out, time, levels),
        Line::Quiet => write_change(out, time, b" quiet\n"),
        Line::Sound => write_change(out, time, b" sound\n"),
    }
}
