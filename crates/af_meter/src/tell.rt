// Intervals are measured, and their lines written.
ghost use Rattle.std.specs.Prelude.{◌≡◌, ◌<◌, ◌≤◌, [], length, true, Err, IfErr};
ghost use Rattle.std.specs.declared.option.Option.TheVariants.{None, Some};
ghost use Rattle.af_io.specs.Observed.{CountsFault};
ghost use Rattle.af_cli.specs.Sizes.{greatest_block};
ghost use Rattle.af_toolkit.specs.Ends.{is_of_link_or_sink, KeepsConnection};
ghost use Rattle.af_toolkit.specs.ToolParts.{GoesWriting};
ghost use Rattle.af_meter.specs.Plans.{IsPlan};
ghost use Rattle.af_meter.specs.Trace.{meters, most_intervals, writes_line, GoesOnSink};

use crate::interval::measure;
use crate::level::Levels;
use crate::line::write_line;
use crate::plan::Plan;
use crate::row::{Line, Row};
use af_io::{Link, Sink};
use af_lib::Conn;
use af_time::DevTime;
use af_toolkit::{ToolEnd, write_piece};

// Writes a line of an interval, and answers how many are still to be written.
fn tell_line<K: Sink>(
    at: DevTime,
    levels: &Levels,
    line: Line,
    left: u64,
    sink: &mut K,
) -> Result<u64, ToolEnd>
    requires { 0 < left }
    ensures goes { GoesOnSink K.held sink.old sink.new (writes_line at.0 levels.now (Some line) left) result }
    ensures fault { CountsFault (result ≡ Err ToolEnd.SinkFault) (K.faults sink.old) (K.faults sink.new) }
    ensures end { IfErr result (λ how. how ≡ ToolEnd.SinkFault) }
{
    let mut text = [0; 240];
    let length = write_line(&mut text, at, levels, line);
    write_piece(sink, &text[..length])?;
    Ok(left - 1)
}

// Writes the line of an interval, if it has one, and answers how many are still to be written.
fn tell_one<K: Sink>(
    at: DevTime,
    levels: &Levels,
    line: Option<Line>,
    left: u64,
    sink: &mut K,
) -> Result<u64, ToolEnd>
    requires { 0 < left }
    ensures goes { GoesOnSink K.held sink.old sink.new (writes_line at.0 levels.now line left) result }
    ensures fault { CountsFault (result ≡ Err ToolEnd.SinkFault) (K.faults sink.old) (K.faults sink.new) }
    ensures end { IfErr result (λ how. how ≡ ToolEnd.SinkFault) }
{
    match line {
        Some(line) => tell_line(at, levels, line, left, sink),
        None => Ok(left),
    }
}

/// Measures intervals from a start on, one after another, and writes their lines, until so many are written.
pub fn tell<L: Link + Drop, K: Sink>(
    plan: Plan,
    start: DevTime,
    count: u64,
    conn: &mut Conn<L>,
    sink: &mut K,
    room: &mut [u8],
) -> Result<(), ToolEnd>
    requires usable { conn.old.cause ≡ None }
    requires plan { IsPlan plan }
    requires some { 0 < count }
    requires room { greatest_block ≤ length room.old }
    ensures goes { GoesWriting L.left L.sent K.held conn.old conn.new sink.old sink.new
        (meters most_intervals plan start.0 [] count) result }
    ensures holds { KeepsConnection L.left L.faults conn.old conn.new result }
    ensures end { IfErr result (λ how. is_of_link_or_sink how ≡ true) }
    ensures fault { CountsFault (result ≡ Err ToolEnd.SinkFault) (K.faults sink.old) (K.faults sink.new) }
{
    let mut at = start;
    let mut row = Row::new(plan);
    let mut left = count;
    let mut allowed = u64::MAX;
    while allowed > 0 {
        let levels = measure(plan, at, conn, room)?;
        let (next, line) = row.after(plan, &levels);
        left = tell_one(at, &levels, line, left, sink)?;
        if left == 0 {
            return Ok(());
        }
        at = at.after(plan.frames);
        row = next;
        allowed -= 1;
    }
    Err(ToolEnd::EventFlood)
}
