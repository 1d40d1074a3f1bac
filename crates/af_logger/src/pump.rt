// Blocks are recorded, one after another, and handed on in pieces.
ghost use Rattle.std.specs.Prelude.{◌≡◌, ◌≤◌, ◌<◌, ◌+◌, ◌-◌, ◌*◌, ◌%◌, ◌^◌, ℕ, min, length, true, Err, IfErr, IsOk};
ghost use Rattle.std.specs.declared.option.Option.TheVariants.{None, Some};
ghost use Rattle.af_cli.specs.Sizes.{greatest_block};
ghost use Rattle.af_toolkit.specs.Ends.{is_of_link_or_sink, KeepsConnection};
ghost use Rattle.af_toolkit.specs.ToolParts.{GoesOver, link_sight};
ghost use Rattle.af_logger.specs.Commands.{IfSeen};
ghost use Rattle.af_logger.specs.Keeping.{HasLeft, IsDeskOf, IsLogger, IsWhole, LeavesLogger};
ghost use Rattle.af_logger.specs.declared.progress.Progress.{Progress as AProgress};
ghost use Rattle.af_logger.specs.Plans.{count_of, frame_size};
ghost use Rattle.af_logger.specs.Story.{CanBegin, NextBegun, Records};
ghost use Rattle.af_logger.specs.Trace.{block_lengths, takes_blocks, takes_one, takes_pieces};

use crate::block::record_block;
use crate::commands::Commands;
use crate::hand::{Task, hand_on};
use crate::logger::Logger;
use af_io::{Link, Sink};
use af_lib::Conn;
use af_toolkit::ToolEnd;

// Records a block of so many frames, and hands it to the command of its piece, which it may begin.
fn log_block<L: Link + Drop, C: Commands, K: Sink>(
    task: &Task<'_>,
    logger: &mut Logger,
    frames: u32,
    conn: &mut Conn<L>,
    commands: &mut C,
    sink: &mut K,
    room: &mut [u8],
) -> Result<(), ToolEnd>
    requires usable { conn.old.cause ≡ None }
    requires logger { IsLogger logger.old }
    requires desk { IfSeen (λ desk. IsDeskOf logger.old desk) (C.desk commands.old) }
    requires some { 1 ≤ frames }
    requires left { (left : ℕ) × HasLeft logger.old.plan logger.old.last left × (frames ≤ left) }
    requires size { (length room.old ≡ frames * frame_size logger.old.plan) × (length room.old ≤ greatest_block) }
    ensures goes { GoesOver L.left L.sent conn.old conn.new (takes_one logger.old.plan logger.old.at.0 frames) result }
    ensures holds { KeepsConnection L.left L.faults conn.old conn.new result }
    ensures end { IfErr result (λ how. is_of_link_or_sink how ≡ true) }
    ensures leaves { LeavesLogger C.desk K.faults logger.old logger.new commands.new sink.old sink.new result }
    ensures next { IsOk result → (logger.new.at.0 ≡ (logger.old.at.0 + frames) % 2 ^ 32)
        × (p : AProgress) × (logger.new.last ≡ Some p)
        × ((left : ℕ) → HasLeft logger.old.plan logger.old.last left → p.recorded + left ≡ logger.old.plan.frames + frames) }
    ensures records { Records (CanBegin logger.old) (IsOk result) task.now.job.now logger.old logger.new
        (link_sight L.left L.sent conn.old) (link_sight L.left L.sent conn.new) (C.desk commands.old) (C.desk commands.new)
        (K.held sink.old) (K.held sink.new) }
    ensures begun { IsOk result → NextBegun logger.old.plan logger.old.last logger.old.begun logger.new.begun }
    ensures room { length room.new ≡ length room.old }
{
    let plan = logger.plan;
    let came = record_block(&plan, logger.at, frames, conn, room)?;
    hand_on(task, logger, came, room, commands, sink);
    logger.at = logger.at.after(frames);
    logger.look(commands, sink);
    if logger.failed {
        return Err(ToolEnd::SinkFault);
    }
    Ok(())
}

// Records a piece.
fn log_piece<L: Link + Drop, C: Commands, K: Sink>(
    task: &Task<'_>,
    logger: &mut Logger,
    conn: &mut Conn<L>,
    commands: &mut C,
    sink: &mut K,
    room: &mut [u8],
) -> Result<(), ToolEnd>
    requires usable { conn.old.cause ≡ None }
    requires logger { IsLogger logger.old }
    requires desk { IfSeen (λ desk. IsDeskOf logger.old desk) (C.desk commands.old) }
    requires whole { IsWhole logger.old.plan logger.old.last }
    requires room { greatest_block ≤ length room.old }
    ensures goes { GoesOver L.left L.sent conn.old conn.new
        (takes_blocks logger.old.plan logger.old.at.0 (block_lengths logger.old.plan.block logger.old.plan.frames)) result }
    ensures holds { KeepsConnection L.left L.faults conn.old conn.new result }
    ensures end { IfErr result (λ how. is_of_link_or_sink how ≡ true) }
    ensures leaves { LeavesLogger C.desk K.faults logger.old logger.new commands.new sink.old sink.new result }
    ensures next { IsOk result → (logger.new.at.0 ≡ (logger.old.at.0 + logger.old.plan.frames) % 2 ^ 32)
        × IsWhole logger.new.plan logger.new.last }
    ensures records { Records (logger.old.begun < 2 ^ 64 - 1) (IsOk result) task.now.job.now logger.old logger.new
        (link_sight L.left L.sent conn.old) (link_sight L.left L.sent conn.new) (C.desk commands.old) (C.desk commands.new)
        (K.held sink.old) (K.held sink.new) }
    ensures begun { IsOk result → logger.new.begun ≡ min (logger.old.begun + 1) (2 ^ 64 - 1) }
    ensures room { length room.new ≡ length room.old }
{
    let plan = logger.plan;
    let frame = plan.frame_bytes();
    let mut left = plan.frames;
    while left > 0 {
        let frames = left.min(plan.block);
        let size = frames as usize * frame;
        log_block(
            task,
            logger,
            frames,
            conn,
            commands,
            sink,
            &mut room[..size],
        )?;
        left -= frames;
    }
    Ok(())
}

/// Records so many pieces, one after another, and hands each to a command.
pub fn log_pieces<L: Link + Drop, C: Commands, K: Sink>(
    task: &Task<'_>,
    logger: &mut Logger,
    conn: &mut Conn<L>,
    commands: &mut C,
    sink: &mut K,
    room: &mut [u8],
) -> Result<(), ToolEnd>
    requires usable { conn.old.cause ≡ None }
    requires logger { IsLogger logger.old }
    requires desk { IfSeen (λ desk. IsDeskOf logger.old desk) (C.desk commands.old) }
    requires whole { IsWhole logger.old.plan logger.old.last }
    requires room { greatest_block ≤ length room.old }
    ensures goes { GoesOver L.left L.sent conn.old conn.new
        (takes_pieces (count_of task.now.job.now) logger.old.plan logger.old.at.0) result }
    ensures holds { KeepsConnection L.left L.faults conn.old conn.new result }
    ensures end { IfErr result (λ how. is_of_link_or_sink how ≡ true) }
    ensures leaves { LeavesLogger C.desk K.faults logger.old logger.new commands.new sink.old sink.new result }
    ensures records { Records (logger.old.begun ≡ 0) (IsOk result) task.now.job.now logger.old logger.new
        (link_sight L.left L.sent conn.old) (link_sight L.left L.sent conn.new) (C.desk commands.old) (C.desk commands.new)
        (K.held sink.old) (K.held sink.new) }
    ensures whole { IsOk result → IsWhole logger.new.plan logger.new.last }
    ensures begun { IsOk result → logger.old.begun ≡ 0 → logger.new.begun ≡ count_of task.now.job.now }
{
    let mut left = task.job.count();
    while left > 0 {
        log_piece(task, logger, conn, commands, sink, room)?;
        left -= 1;
    }
    Ok(())
}
