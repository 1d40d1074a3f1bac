// A block is recorded.
ghost use Rattle.std.specs.Prelude.{◌≡◌, ◌≤◌, ℕ, ◌*◌, length, true, IfErr, IfOk};
ghost use Rattle.std.specs.declared.option.Option.TheVariants.{None};
ghost use Rattle.af_cli.specs.Sizes.{greatest_block};
ghost use Rattle.af_toolkit.specs.Ends.{is_of_link, KeepsConnection};
ghost use Rattle.af_toolkit.specs.ToolParts.{GoesOver};
ghost use Rattle.af_logger.specs.Plans.{frame_size, IsPlan};
ghost use Rattle.af_logger.specs.Trace.{behind_of, block_by, lost_of, takes_block};

use crate::plan::Plan;
use crate::sound::file_samples;
use af_io::Link;
use af_lib::Conn;
use af_time::DevTime;
use af_toolkit::{CONTEXT, ToolEnd, periods_before, time_before};

/// What is known of a block that came, beside its samples.
#[derive(Clone, Copy)]
pub struct Came {
    pub frames: u32,
    /// How many of its frames, the first ones, had left the server.
    pub lost: u32,
    /// How many frames the device was past its end.
    pub behind: u32,
}

// What is known of a block of so many frames from a time on, by the time that its reply tells.
fn came_at(plan: &Plan, at: DevTime, frames: u32, told: DevTime) -> Came
    ensures lost { result.lost ≡ lost_of plan.now at.0 frames told.0 }
    ensures behind { result.behind ≡ behind_of at.0 frames told.0 }
    ensures frames { result.frames ≡ frames }
    ensures few { result.lost ≤ frames }
{
    let oldest = time_before(told, u64::from(plan.horizon));
    Came {
        frames,
        lost: periods_before(at, oldest).min(frames),
        behind: periods_before(at.after(frames), told),
    }
}

/// Records a block of so many frames, which fills a room with samples as they are written.
pub fn record_block<L: Link + Drop>(
    plan: &Plan,
    at: DevTime,
    frames: u32,
    conn: &mut Conn<L>,
    block: &mut [u8],
) -> Result<Came, ToolEnd>
    requires usable { conn.old.cause ≡ None }
    requires plan { IsPlan plan.now }
    requires size { length block.old ≡ frames * frame_size plan.now }
    requires block { length block.old ≤ greatest_block }
    ensures goes { GoesOver L.left L.sent conn.old conn.new (takes_block plan.now at.0 frames) (block_by result block.new) }
    ensures room { length block.new ≡ length block.old }
    ensures holds { KeepsConnection L.left L.faults conn.old conn.new result }
    ensures end { IfErr result (λ how. is_of_link how ≡ true) }
    ensures frames { IfOk result (λ came. (came.frames ≡ frames) × (came.lost ≤ frames)) }
{
    let reply = conn.record_run(CONTEXT, at, true, block)?;
    file_samples(plan, block);
    Ok(came_at(plan, at, frames, reply.0))
}
