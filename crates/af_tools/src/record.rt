// Blocks are recorded, one after another, and written to the sink.
ghost use Rattle.std.specs.Prelude.{◌≡◌, ◌||◌, ◌<◌, ◌≤◌, ◌+◌, ◌*◌, ◌^◌, ℕ, List, [], length, nat_lt, IsOk, if◌then◌else◌, true, Err, IfErr};
ghost use Rattle.std.specs.declared.option.Option.{Option};
ghost use Rattle.std.specs.declared.option.Option.TheVariants.{None, Some};
ghost use Rattle.af_io.specs.Observed.{CountsFault};
ghost use Rattle.af_sample.specs.Channels.{IsChannelCount};
ghost use Rattle.af_toolkit.specs.Ends.{client_of, is_of_link, is_of_link_or_sink, KeepsConnection};
ghost use Rattle.af_toolkit.specs.ToolParts.{GoesWriting};
ghost use Rattle.af_tools.specs.Record.{IsFiledAs, block_lengths, nothing_recorded, peak, recorded_frame, records, records_all, takes_block};
ghost use Rattle.af_tools.specs.RecordSteps.{WritesInStep};
ghost use Rattle.af_tools.specs.Sounds.{AreWhole};
ghost use Rattle.af_cli.specs.Sizes.{block_frames, greatest_block};

use crate::file::file_samples;
use af_cli::{RecordJob, block_frames};
use af_io::{Link, Put, Sink};
use af_lib::Conn;
use af_sample::{SampleType, decode};
use af_sound::Coding;
use af_time::DevTime;
use af_toolkit::{CONTEXT, ToolEnd, had_left};

/// What is recorded, and how it is written.
#[derive(Clone, Copy)]
pub struct RecordedSound {
    pub ty: SampleType,
    /// How a file codes the samples, or none where they are written as they are.
    pub coding: Option<Coding>,
    pub channels: u8,
    /// The sample periods of the past that the server keeps.
    pub horizon: u32,
}

/// How much was recorded.
#[derive(Clone, Copy)]
pub struct Recording {
    pub frames: u32,
    /// Whether frames had left the server before they were asked for.
    pub lost: bool,
}

/// A block that was recorded and written.
#[derive(Clone, Copy)]
pub struct TakenBlock {
    pub peak: u32,
    /// Whether frames of it had left the server before they were asked for.
    pub lost: bool,
}

impl RecordedSound {
    /// The bytes of a frame.
    pub fn frame_bytes(self) -> usize
        ensures { result ≡ recorded_frame self }
    {
        self.ty.frame_bytes(self.channels)
    }
}

/// The peak of a block: the greatest absolute value of its samples.
pub fn peak(ty: SampleType, block: &[u8]) -> u32
    ensures { result ≡ peak ty block.now }
{
    let width = ty.width();
    let mut peak = 0;
    for i in 0..block.len() / width {
        let at = i * width;
        let sample = decode(ty, &block[at..at + width]);
        peak = peak.max(u32::from(sample.unsigned_abs()));
    }
    peak
}

// How many quiet blocks there are in a row after one with this peak.
fn row_after(row: u32, peak: u32, limit: u32) -> u32
    requires { row + 1 < 2 ^ 32 }
    ensures { result ≡ if nat_lt peak limit then row + 1 else 0 }
{
    if peak < limit { row + 1 } else { 0 }
}

// Whether frames had left the server, in a block or before it.
fn lost_after(lost: bool, taken: TakenBlock) -> bool
    ensures { result ≡ (lost || taken.lost) }
{
    lost || taken.lost
}

// Records a block, and writes it to the sink.
fn record_block<L: Link + Drop, K: Sink>(
    conn: &mut Conn<L>,
    sink: &mut K,
    sound: RecordedSound,
    at: DevTime,
    block: &mut [u8],
) -> Result<TakenBlock, ToolEnd>
    requires usable { conn.old.cause ≡ None }
    requires filed { IsFiledAs sound.coding sound.ty }
    requires block { (0 < length block.old) × (length block.old ≤ greatest_block) × AreWhole sound.coding (length block.old) }
    ensures goes { GoesWriting L.left L.sent K.held conn.old conn.new sink.old sink.new
        (takes_block sound at.0 (length block.old)) result }
    ensures holds { KeepsConnection L.left L.faults conn.old conn.new result }
    ensures end { IfErr result (λ how. is_of_link_or_sink how ≡ true) }
    ensures fault { CountsFault (result ≡ Err ToolEnd.SinkFault) (K.faults sink.old) (K.faults sink.new) }
    ensures kept { IfErr result (λ how. is_of_link how ≡ true → sink.new ≡ sink.old) }
{
    let reply = conn.record_run(CONTEXT, at, true, block)?;
    let peak = peak(sound.ty, block);
    let lost = had_left(sound.horizon, at, reply.0);
    file_samples(sound.coding, block);
    match sink.write(block) {
        Put::Done => Ok(TakenBlock { peak, lost }),
        Put::Failed => Err(ToolEnd::SinkFault),
    }
}

/// Records n frames from a start on, in blocks, and writes each block: how much that was. Enough quiet blocks in a row end it.
pub fn record_blocks<L: Link + Drop, K: Sink>(
    job: &RecordJob,
    sound: RecordedSound,
    start: DevTime,
    conn: &mut Conn<L>,
    sink: &mut K,
    room: &mut [u8],
) -> Result<Recording, ToolEnd>
    requires usable { conn.old.cause ≡ None }
    requires filed { IsFiledAs sound.coding sound.ty }
    requires channels { IsChannelCount sound.channels }
    requires block { (1 ≤ job.now.block) × (job.now.block ≤ 4000) }
    requires stop { (1 ≤ job.now.stop_blocks) × (job.now.stop_blocks ≤ 1000000) }
    requires room { greatest_block ≤ length room.old }
    ensures goes { GoesWriting L.left L.sent K.held conn.old conn.new sink.old sink.new
        (records_all job.now sound start.0) result }
    ensures step { (input : List ℕ) → L.left conn.old.link ≡ Some input → (steps : WritesInStep
        (block_lengths (block_frames job.now.block (recorded_frame sound)) job.now.frames)
        (records job.now sound start.0 nothing_recorded [])
        (client_of conn.old input) (result ≡ Err ToolEnd.SinkFault) (L.sent conn.old.link) (L.sent conn.new.link)
        (K.held sink.old) (K.held sink.new)) × (IsOk result → (steps.asked ≡ []) × (steps.written ≡ [])) }
    ensures holds { KeepsConnection L.left L.faults conn.old conn.new result }
    ensures end { IfErr result (λ how. is_of_link_or_sink how ≡ true) }
    ensures fault { CountsFault (result ≡ Err ToolEnd.SinkFault) (K.faults sink.old) (K.faults sink.new) }
{
    let frame = sound.frame_bytes();
    let block = block_frames(job.block, frame);
    let mut at = start;
    let mut left = job.frames;
    let mut row = 0;
    let mut lost = false;
    while left > 0 {
        let count = left.min(block);
        let size = count as usize * frame;
        let taken = record_block(conn, sink, sound, at, &mut room[..size])?;
        at = at.after(count);
        left -= count;
        lost = lost_after(lost, taken);
        row = row_after(row, taken.peak, job.stop_peak);
        if row >= job.stop_blocks {
            return Ok(Recording {
                frames: job.frames - left,
                lost,
            });
        }
    }
    Ok(Recording {
        frames: job.frames,
        lost,
    })
}
