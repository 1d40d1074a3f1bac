// An interval is recorded, and how loud it is.
ghost use Rattle.std.specs.Prelude.{◌≡◌, ◌<◌, ◌≤◌, ◌+◌, ◌++◌, ◌*◌, ◌^◌, ℕ, List, [], ◌∷◌, length, true, IfErr};
ghost use Rattle.std.specs.declared.option.Option.TheVariants.{None};
ghost use Rattle.af_sample.specs.Channels.{IsChannelCount};
ghost use Rattle.af_request.specs.Asked.{record_run};
ghost use Rattle.af_lib.specs.Calls.{as_recorded};
ghost use Rattle.af_toolkit.specs.Ends.{is_of_link, KeepsConnection};
ghost use Rattle.af_toolkit.specs.ToolParts.{asks, GoesOver};
ghost use Rattle.af_meter.specs.Levels.{frame_size, levels_of};
ghost use Rattle.af_meter.specs.Plans.{IsPlan};
ghost use Rattle.af_meter.specs.Tallies.{AreTallied};
ghost use Rattle.af_cli.specs.Sizes.{greatest_block};
ghost use Rattle.af_meter.specs.Trace.{measures, recorded_by};

use crate::level::{Levels, Tally, tally_block};
use crate::plan::Plan;
use af_cli::block_frames;
use af_io::Link;
use af_lib::Conn;
use af_sample::SampleType;
use af_time::DevTime;
use af_toolkit::{CONTEXT, ToolEnd};

// What is known of each channel so far.
#[derive(Clone, Copy)]
struct Tallies {
    first: Tally,
    second: Tally,
}

impl Tallies {
    // Of no block.
    fn new() -> Tallies
        ensures { (channels : ℕ) → AreTallied channels result [] 0 }
    {
        Tallies {
            first: Tally::new(),
            second: Tally::new(),
        }
    }

    // With one block more.
    fn with(self, channels: u8, block: &[u8]) -> Tallies
        requires channels { IsChannelCount channels }
        requires block { length block.now ≤ greatest_block }
        requires room { (self.first.squares + 2 ^ 46 < 2 ^ 64) × (self.second.squares + 2 ^ 46 < 2 ^ 64) }
        ensures { (blocks : List (List ℕ)) (count n : ℕ) → length block.now ≡ n * frame_size channels →
            AreTallied channels self blocks count → AreTallied channels result (blocks ++ block.now ∷ []) (count + n) }
    {
        let first = tally_block(usize::from(channels), 0, block, self.first);
        if channels == 2 {
            let second = tally_block(usize::from(channels), 1, block, self.second);
            Tallies { first, second }
        } else {
            Tallies {
                first,
                second: self.second,
            }
        }
    }

    // How loud each channel is, by so many samples of each.
    fn levels(self, channels: u8, count: u32) -> Levels
        requires { 1 ≤ count }
        ensures { (blocks : List (List ℕ)) → AreTallied channels self blocks count → result ≡ levels_of channels blocks }
    {
        let first = self.first.level(count);
        if channels == 2 {
            let second = self.second.level(count);
            Levels {
                first,
                second: Some(second),
            }
        } else {
            Levels {
                first,
                second: None,
            }
        }
    }
}

// Records a block.
fn record_block<L: Link + Drop>(
    conn: &mut Conn<L>,
    at: DevTime,
    block: &mut [u8],
) -> Result<DevTime, ToolEnd>
    requires usable { conn.old.cause ≡ None }
    requires block { length block.old ≤ greatest_block }
    ensures goes { GoesOver L.left L.sent conn.old conn.new
        (asks (record_run true 1 at.0 (length block.old)) (as_recorded true (length block.old))) (recorded_by result block.new) }
    ensures room { length block.new ≡ length block.old }
    ensures holds { KeepsConnection L.left L.faults conn.old conn.new result }
    ensures end { IfErr result (λ how. is_of_link how ≡ true) }
{
    let reply = conn.record_run(CONTEXT, at, true, block)?;
    Ok(reply.0)
}

/// Records the interval at a time, and answers how loud it is.
pub fn measure<L: Link + Drop>(
    plan: Plan,
    start: DevTime,
    conn: &mut Conn<L>,
    room: &mut [u8],
) -> Result<Levels, ToolEnd>
    requires usable { conn.old.cause ≡ None }
    requires plan { IsPlan plan }
    requires room { greatest_block ≤ length room.old }
    ensures goes { GoesOver L.left L.sent conn.old conn.new (measures plan start.0) result }
    ensures holds { KeepsConnection L.left L.faults conn.old conn.new result }
    ensures end { IfErr result (λ how. is_of_link how ≡ true) }
    ensures room { length room.new ≡ length room.old }
{
    let frame = SampleType::Lin16.frame_bytes(plan.channels);
    let most = block_frames(plan.frames, frame);
    let mut at = start;
    let mut left = plan.frames;
    let mut tallies = Tallies::new();
    while left > 0 {
        let count = left.min(most);
        let size = count as usize * frame;
        let block = &mut room[..size];
        record_block(conn, at, block)?;
        tallies = tallies.with(plan.channels, block);
        at = at.after(count);
        left -= count;
    }
    Ok(tallies.levels(plan.channels, plan.frames))
}
