// What a source gives is played, block by block.
ghost use Rattle.std.specs.Prelude.{ℕ, List, ◌≡◌, ◌<◌, ◌≤◌, ◌*◌, ◌+◌, ◌-◌, ◌++◌, true, length, take, IfErr, IfOk, IsErrOf, Ok};
ghost use Rattle.std.specs.declared.option.Option.{Option};
ghost use Rattle.std.specs.declared.option.Option.TheVariants.{None, Some};
ghost use Rattle.af_io.specs.Observed.{CountsFault};
ghost use Rattle.af_io.specs.Flow.{ConsumedWithin};
ghost use Rattle.af_toolkit.specs.Ends.{client_of, is_of_link, KeepsConnection};
ghost use Rattle.af_toolkit.specs.ToolParts.{GoesOver};
ghost use Rattle.af_sound.specs.Served.{served_length};
ghost use Rattle.af_tools.specs.Sounds.{most_bytes, as_served, block_bytes, served_room, AreWhole, IsServedAs};
ghost use Rattle.af_tools.specs.Play.{plays_block, plays_sound, IsBlock};
ghost use Rattle.af_tools.specs.Reading.{left_before, FillsBlock, IsEarlyBlock, IsNextBlock, GoesReading, TakesSound, is_of_blocks};
ghost use Rattle.af_tools.specs.Steps.{ReadsInStep};
ghost use Rattle.af_cli.specs.Sizes.{greatest_block};

use crate::fill::{FillFault, fill_stated, still_left};
use crate::pace::{Course, Pace, wait_past};
use crate::sound::SourceSound;
use af_cli::GREATEST_BLOCK;
use af_io::{Link, Source};
use af_lib::Conn;
use af_sound::{Coding, to_server};
use af_time::DevTime;
use af_toolkit::{CONTEXT, ToolEnd};

/// How many bytes a source may give, with the header of a file.
pub const MOST_BYTES: u64 = 1 << 40;

/// What is played: a sound, in blocks of so many frames, at a pace.
#[derive(Clone, Copy)]
pub struct Playback {
    pub sound: SourceSound,
    /// The frames of a block.
    pub block: u32,
    pub pace: Pace,
    /// The device's time, as it was told before the first block.
    pub told: DevTime,
}

// How many bytes a server takes for so many bytes of a file.
fn served_size(coding: Coding, count: usize) -> usize
    requires { served_length coding count ≤ greatest_block }
    ensures { result ≡ served_length coding count }
{
    match coding {
        Coding::U8 => count * 2,
        Coding::Mu255 | Coding::Alaw | Coding::Lin16Big | Coding::Lin16Little => count,
    }
}

// Plays samples of the context at their time, once the device is near enough to that.
fn play_samples<L: Link + Drop>(
    conn: &mut Conn<L>,
    pace: Pace,
    course: Course,
    samples: &[u8],
) -> Result<DevTime, ToolEnd>
    requires usable { conn.old.cause ≡ None }
    requires frame { pace.frame ≤ 8 }
    requires block { length samples.now ≤ greatest_block }
    ensures goes { GoesOver L.left L.sent conn.old conn.new (plays_block pace course samples.now) result }
    ensures holds { KeepsConnection L.left L.faults conn.old conn.new result }
    ensures end { IfErr result (λ how. is_of_link how ≡ true) }
{
    wait_past(conn, pace.awaited(course), pace.frame)?;
    Ok(conn.play_run(CONTEXT, pace.next_time(course), samples)?)
}

// How the next block is played: how a file codes it, when blocks are sent, and how far playing has come.
#[derive(Clone, Copy)]
struct Turn {
    coding: Option<Coding>,
    pace: Pace,
    course: Course,
}

// Plays a block as a server takes it. The samples of a file are converted into the room that is handed in.
fn play_block<L: Link + Drop>(
    conn: &mut Conn<L>,
    turn: Turn,
    block: &[u8],
    room: &mut [u8],
) -> Result<DevTime, ToolEnd>
    requires usable { conn.old.cause ≡ None }
    requires frame { turn.pace.frame ≤ 8 }
    requires block { (length block.now ≤ greatest_block) × AreWhole turn.coding (length block.now) }
    requires room { (served_room turn.coding (length block.now) ≤ length room.old)
        × (served_room turn.coding (length block.now) ≤ greatest_block) }
    ensures goes { GoesOver L.left L.sent conn.old conn.new
        (plays_block turn.pace turn.course (as_served turn.coding block.now)) result }
    ensures room { length room.new ≡ length room.old }
    ensures holds { KeepsConnection L.left L.faults conn.old conn.new result }
    ensures end { IfErr result (λ how. is_of_link how ≡ true) }
{
    let Turn {
        coding,
        pace,
        course,
    } = turn;
    match coding {
        None => play_samples(conn, pace, course, block),
        Some(coding) => {
            let size = served_size(coding, block.len());
            to_server(coding, block, &mut room[..size]);
            play_samples(conn, pace, course, &room[..size])
        }
    }
}

// Reads the first block of a sound, of so many frames, and answers how many bytes it has.
fn fill_first<S: Source>(
    source: &mut S,
    sound: SourceSound,
    block: u32,
    room: &mut [u8],
) -> Result<usize, FillFault>
    requires block { IsBlock sound.ty sound.channels block }
    requires sound { IsServedAs sound.coding sound.ty × (sound.head ≤ most_bytes) }
    requires room { greatest_block ≤ length room.old }
    ensures room { length room.new ≡ length room.old }
    ensures fills { FillsBlock (block_bytes sound block) (most_bytes - sound.head) sound.length result room.new
        (S.left source.old) (S.left source.new) }
    ensures fault { CountsFault (IsErrOf result FillFault.ReadFault) (S.faults source.old) (S.faults source.new) }
{
    let size = block as usize * sound.width();
    fill_stated(
        source,
        &mut room[..size],
        sound.length,
        MOST_BYTES - sound.head,
    )
}

/// Reads the first block of a sound, of so many frames, before the device's time is asked for: how many bytes it has. After a
/// header that leaves less than a block of what a source may give, it is left for later: it may be too long.
pub fn read_early<S: Source>(
    source: &mut S,
    sound: SourceSound,
    block: u32,
    room: &mut [u8],
) -> Result<Option<usize>, FillFault>
    requires block { IsBlock sound.ty sound.channels block }
    requires sound { IsServedAs sound.coding sound.ty × (sound.head ≤ most_bytes) }
    requires room { greatest_block ≤ length room.old }
    ensures room { length room.new ≡ length room.old }
    ensures early { IfOk result (λ early. IsEarlyBlock (block_bytes sound block) (most_bytes - sound.head)
        sound.length early room.new (S.left source.old) (S.left source.new)) }
    ensures late { result ≡ Ok None → most_bytes < sound.head + greatest_block }
    ensures only { IsErrOf result FillFault.TooLong → ⊥ }
    ensures cut { IsErrOf result FillFault.ReadFault →
        ConsumedWithin (most_bytes - sound.head) (S.left source.old) (S.left source.new) }
    ensures part { IsErrOf result FillFault.ReadFault →
        ConsumedWithin (block_bytes sound block) (S.left source.old) (S.left source.new) }
    ensures fault { CountsFault (IsErrOf result FillFault.ReadFault) (S.faults source.old) (S.faults source.new) }
{
    if sound.head > MOST_BYTES - GREATEST_BLOCK as u64 {
        return Ok(None);
    }
    match fill_first(source, sound, block, room) {
        Ok(first) => Ok(Some(first)),
        Err(fault) => Err(fault),
    }
}

/// The first block of a sound, which was read early, or is read now: how many bytes it has.
pub fn read_first<S: Source>(
    source: &mut S,
    sound: SourceSound,
    block: u32,
    early: Option<usize>,
    room: &mut [u8],
) -> Result<usize, FillFault>
    requires block { IsBlock sound.ty sound.channels block }
    requires sound { IsServedAs sound.coding sound.ty × (sound.head ≤ most_bytes) }
    requires room { greatest_block ≤ length room.old }
    ensures room { length room.new ≡ length room.old }
    ensures fills { (before : Option (List ℕ)) → IsEarlyBlock (block_bytes sound block) (most_bytes - sound.head)
        sound.length early room.old before (S.left source.old) →
        FillsBlock (block_bytes sound block) (most_bytes - sound.head) sound.length result room.new before (S.left source.new) }
    ensures early { IfErr result (λ _. early ≡ None) }
    ensures fault { CountsFault (IsErrOf result FillFault.ReadFault) (S.faults source.old) (S.faults source.new) }
{
    match early {
        Some(first) => Ok(first),
        None => fill_first(source, sound, block, room),
    }
}

/// Plays the sound that a source gives, in blocks, from a start on, and answers how far it came. The first block was read, and
/// stands at the front of the room. Bytes at the end that make no whole frame are dropped.
pub fn play_blocks<L: Link + Drop, S: Source>(
    conn: &mut Conn<L>,
    source: &mut S,
    playback: Playback,
    first: usize,
    room: &mut [u8],
) -> Result<Course, ToolEnd>
    requires usable { conn.old.cause ≡ None }
    requires block { IsBlock playback.sound.ty playback.sound.channels playback.block }
    requires frame { playback.pace.frame ≤ 8 }
    requires sound { IsServedAs playback.sound.coding playback.sound.ty × (playback.sound.head ≤ most_bytes) }
    requires first { IsNextBlock (block_bytes playback.sound playback.block) (most_bytes - playback.sound.head)
        playback.sound.length first (S.left source.old) }
    requires room { greatest_block ≤ length room.old }
    ensures goes { GoesReading L.left L.sent S.left conn.old conn.new source.old source.new
        (λ bytes. plays_sound playback.sound playback.block playback.pace playback.told (take first room.old ++ bytes)) result }
    ensures takes { TakesSound playback.sound.length (most_bytes - playback.sound.head) result
        (left_before (take first room.old) (S.left source.old)) (S.left source.new) }
    ensures step { (input : List ℕ) → L.left conn.old.link ≡ Some input → (steps : ReadsInStep playback.sound playback.block
        (plays_sound playback.sound playback.block playback.pace playback.told) (client_of conn.old input)
        (IsErrOf result ToolEnd.ReadFault) ⊥ (left_before (take first room.old) (S.left source.old)) (S.left source.new)
        (L.sent conn.old.link) (L.sent conn.new.link)) × (IsErrOf result ToolEnd.ReadFault → 1 ≤ length steps.played) }
    ensures holds { KeepsConnection L.left L.faults conn.old conn.new result }
    ensures end { IfErr result (λ how. is_of_blocks how ≡ true) }
    ensures fault { CountsFault (IsErrOf result ToolEnd.ReadFault) (S.faults source.old) (S.faults source.new) }
{
    let Playback { sound, pace, .. } = playback;
    let width = sound.width();
    let size = playback.block as usize * width;
    let block = &mut room[..size];
    let mut served = [0; GREATEST_BLOCK];
    let most = MOST_BYTES - sound.head;
    let mut left = sound.length;
    let mut course = Course::from_time(playback.told);
    let mut given = 0u64;
    let mut filled = first;
    loop {
        let count = filled / width;
        if count == 0 {
            return Ok(course);
        }
        let turn = Turn {
            coding: sound.coding,
            pace,
            course,
        };
        let told = play_block(conn, turn, &block[..count * width], &mut served)?;
        course = course.on(pace, count, told);
        given += filled as u64;
        left = still_left(left, filled);
        if filled < size {
            return Ok(course);
        }
        filled = fill_stated(source, block, left, most - given)?;
    }
}
