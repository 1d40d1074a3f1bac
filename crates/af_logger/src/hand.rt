// A piece goes to its command: the header, blocks, and what makes it even.
ghost use Rattle.std.specs.Prelude.{◌≡◌, ◌≤◌, ◌<◌, ◌+◌, ◌*◌, ◌-◌, ◌%◌, ◌^◌, ◌==◌, ◌++◌, min, ◌∷◌, ℕ, List, [], true, length, take};
ghost use Rattle.std.specs.declared.option.Option.TheVariants.{Some};
ghost use Rattle.af_logger.specs.Commands.{handed, Changed, IfSeen, IsOpen};
ghost use Rattle.af_logger.specs.Drafts.{came_as, draft, took_by, with_block, Draft, IsDraft, IsTold, StandsFor};
ghost use Rattle.af_logger.specs.Keeping.{FailsBy, HasLeft, IsDeskOf, IsLastClosed, IsLogger, IsOf, IsProgress, IsWhole, KeepsWaiting};
ghost use Rattle.af_logger.specs.declared.progress.Progress.{Progress as AProgress};
ghost use Rattle.af_logger.specs.Plans.{frame_size, IsPlan};
ghost use Rattle.af_logger.specs.Story.{Continues, IsPlaced, NextBegun};

use crate::block::Came;
use crate::commands::{Commands, PieceTerms};
use crate::job::LogJob;
use crate::logger::Logger;
use crate::plan::Plan;
use crate::progress::Progress;
use crate::sound::{HEAD_ROOM, pad_of, write_head};
use af_io::Sink;
use std::alloc::Global;

// The most milliseconds that a write waits, and that a command has from the end of its piece.
const LONGEST_WAIT: u64 = 2000;

/// What is logged, and the memory for commands.
#[derive(Clone, Copy)]
pub struct Task<'a> {
    pub alloc: Global,
    pub job: &'a LogJob,
}

/// For how many milliseconds a command is waited for, where the device is so many frames past what was recorded: at most for half
/// of the time in which no frame leaves the server, so that no frame is lost by that.
pub fn patience(plan: &Plan, behind: u32) -> u32
    requires { 1 ≤ plan.now.rate }
    ensures { result ≤ 2000 }
{
    let spare = u64::from(plan.horizon.saturating_sub(behind)) / 2;
    (spare * 1000 / u64::from(plan.rate)).min(LONGEST_WAIT) as u32
}

// Hands the header to a command.
fn hand_head<C: Commands>(plan: &Plan, piece: Progress, patience: u32, commands: &mut C) -> Progress
    requires plan { IsPlan plan.now }
    requires begins { (piece.recorded ≡ 0) × (piece.handed ≡ 0) × (piece.lost ≡ 0) }
    requires desk { IfSeen IsOpen (C.desk commands.old) }
    ensures same { result ≡ record piece { cut = result.cut } }
    ensures waits { KeepsWaiting (C.desk commands.old) (C.desk commands.new) }
    ensures desk { IfSeen IsOpen (C.desk commands.new) }
    ensures taken { (bytes : List ℕ) × Changed (handed bytes) (C.desk commands.old) (C.desk commands.new)
        × IsDraft plan.now result (draft [] bytes) }
{
    let mut room = [0; HEAD_ROOM];
    let size = write_head(plan, &mut room);
    let took = commands.hand(&room[..size], patience);
    Progress {
        cut: took < size,
        ..piece
    }
}

// Begins a piece: its command is started and gets the header. The command of the piece before the last one is waited for no
// longer.
fn begin_piece<C: Commands, K: Sink>(
    task: &Task<'_>,
    logger: &mut Logger,
    patience: u32,
    commands: &mut C,
    sink: &mut K,
) -> Progress
    requires logger { IsLogger logger.old }
    requires whole { IsWhole logger.old.plan logger.old.last }
    requires desk { IfSeen (λ desk. IsDeskOf logger.old desk) (C.desk commands.old) }
    ensures logger { IsLogger logger.new }
    ensures desk { IfSeen (λ desk. IsDeskOf logger.new desk) (C.desk commands.new) }
    ensures same { (logger.new.plan ≡ logger.old.plan) × (logger.new.at ≡ logger.old.at) }
    ensures last { (logger.new.last ≡ Some result) × (result.recorded ≡ 0) }
    ensures at { result.at ≡ logger.old.at }
    ensures begun { logger.new.begun ≡ min (logger.old.begun + 1) (2 ^ 64 - 1) }
    ensures story { Continues task.now.job.now [] logger.old logger.new (C.desk commands.old) (C.desk commands.new)
        (K.held sink.old) (K.held sink.new) }
    ensures fails { FailsBy logger.old.failed logger.new.failed (K.faults sink.old) (K.faults sink.new) }
{
    logger.finish(Some(patience), commands, sink);
    logger.waiting = logger.last;
    logger.begun = logger.begun.saturating_add(1);
    let terms = PieceTerms {
        number: logger.begun,
        time: logger.at,
        frames: logger.plan.frames,
    };
    commands.start(task.alloc, task.job.command.as_str(), terms);
    let piece = Progress::new(terms.number, terms.time);
    let piece = hand_head(&logger.plan, piece, patience, commands);
    logger.last = Some(piece);
    piece
}

// The piece that is recorded: the one that was begun last, or a new one where that is whole.
fn open_piece<C: Commands, K: Sink>(
    task: &Task<'_>,
    logger: &mut Logger,
    patience: u32,
    commands: &mut C,
    sink: &mut K,
) -> Progress
    requires logger { IsLogger logger.old }
    requires desk { IfSeen (λ desk. IsDeskOf logger.old desk) (C.desk commands.old) }
    ensures logger { IsLogger logger.new }
    ensures desk { IfSeen (λ desk. IsDeskOf logger.new desk) (C.desk commands.new) }
    ensures same { (logger.new.plan ≡ logger.old.plan) × (logger.new.at ≡ logger.old.at) }
    ensures last { (logger.new.last ≡ Some result) × (result.recorded < logger.old.plan.frames) }
    ensures left { (left : ℕ) → HasLeft logger.old.plan logger.old.last left → result.recorded + left ≡ logger.old.plan.frames }
    ensures placed { (start : ℕ) → IsPlaced start logger.old.at.0 logger.old.last → (n : ℕ) →
        (result.at.0 + result.recorded + n) % 2 ^ 32 ≡ (logger.old.at.0 + n) % 2 ^ 32 }
    ensures begun { NextBegun logger.old.plan logger.old.last logger.old.begun logger.new.begun }
    ensures story { Continues task.now.job.now [] logger.old logger.new (C.desk commands.old) (C.desk commands.new)
        (K.held sink.old) (K.held sink.new) }
    ensures fails { FailsBy logger.old.failed logger.new.failed (K.faults sink.old) (K.faults sink.new) }
{
    match logger.last {
        Some(piece) if piece.recorded < logger.plan.frames => piece,
        _ => begin_piece(task, logger, patience, commands, sink),
    }
}

// Hands bytes to the command of a piece, unless that has taken no more, and answers how many it took.
fn hand_more<C: Commands>(piece: Progress, bytes: &[u8], patience: u32, commands: &mut C) -> usize
    requires desk { IfSeen IsOpen (C.desk commands.old) }
    ensures bound { result ≤ length bytes.now }
    ensures cut { piece.cut ≡ true → result ≡ 0 }
    ensures waits { KeepsWaiting (C.desk commands.old) (C.desk commands.new) }
    ensures desk { IfSeen IsOpen (C.desk commands.new) }
    ensures taken { Changed (handed (take result bytes.now)) (C.desk commands.old) (C.desk commands.new) }
{
    if piece.cut {
        return 0;
    }
    commands.hand(bytes, patience)
}

// Hands the frames of a block to the command of their piece.
fn hand_frames<C: Commands>(
    plan: &Plan,
    piece: Progress,
    came: Came,
    samples: &[u8],
    commands: &mut C,
) -> Progress
    requires plan { IsPlan plan.now }
    requires piece { IsProgress plan.now piece }
    requires fits { piece.recorded + came.frames ≤ plan.now.frames }
    requires some { 1 ≤ came.frames }
    requires lost { came.lost ≤ came.frames }
    requires samples { length samples.now ≡ came.frames * frame_size plan.now }
    requires desk { IfSeen IsOpen (C.desk commands.old) }
    ensures piece { IsProgress plan.now result }
    ensures same { (result.number ≡ piece.number) × (result.at ≡ piece.at) }
    ensures recorded { result.recorded ≡ piece.recorded + came.frames }
    ensures waits { KeepsWaiting (C.desk commands.old) (C.desk commands.new) }
    ensures desk { IfSeen IsOpen (C.desk commands.new) }
    ensures taken { (bytes : List ℕ) × Changed (handed bytes) (C.desk commands.old) (C.desk commands.new)
        × ((d : Draft) → IsDraft plan.now piece d → IsDraft plan.now result (with_block d (came_as came samples.now) bytes)) }
{
    let took = hand_more(piece, samples, patience(plan, came.behind), commands);
    let handed = (took / plan.frame_bytes()) as u32;
    Progress {
        recorded: piece.recorded + came.frames,
        handed: piece.handed + handed,
        lost: piece.lost + came.lost.min(handed),
        cut: took < samples.len(),
        ..piece
    }
}

// Ends a whole piece: its command gets what makes the sound even, and its input is closed.
fn close_piece<C: Commands>(plan: &Plan, piece: Progress, patience: u32, commands: &mut C)
    requires plan { IsPlan plan.now }
    requires desk { IfSeen IsOpen (C.desk commands.old) }
    ensures waits { KeepsWaiting (C.desk commands.old) (C.desk commands.new) }
    ensures closed { IfSeen IsLastClosed (C.desk commands.new) }
    ensures taken { (bytes : List ℕ) × Changed (took_by bytes true) (C.desk commands.old) (C.desk commands.new)
        × ((d : Draft) → IsDraft plan.now piece d → IsTold plan.now piece (draft d.blocks (d.taken ++ bytes))) }
{
    hand_more(piece, pad_of(plan), patience, commands);
    commands.close();
}

// Hands a block to the command of its piece, which is closed once it is whole.
fn hand_block<C: Commands>(
    plan: &Plan,
    piece: Progress,
    came: Came,
    samples: &[u8],
    commands: &mut C,
) -> Progress
    requires plan { IsPlan plan.now }
    requires piece { IsProgress plan.now piece }
    requires fits { piece.recorded + came.frames ≤ plan.now.frames }
    requires some { 1 ≤ came.frames }
    requires lost { came.lost ≤ came.frames }
    requires samples { length samples.now ≡ came.frames * frame_size plan.now }
    requires desk { IfSeen IsOpen (C.desk commands.old) }
    ensures piece { IsProgress plan.now result }
    ensures same { (result.number ≡ piece.number) × (result.at ≡ piece.at) }
    ensures recorded { result.recorded ≡ piece.recorded + came.frames }
    ensures waits { KeepsWaiting (C.desk commands.old) (C.desk commands.new) }
    ensures desk { IfSeen (λ desk. IsOf plan.now (Some result) desk.last) (C.desk commands.new) }
    ensures taken { (bytes : List ℕ)
        × Changed (took_by bytes (result.recorded == plan.now.frames)) (C.desk commands.old) (C.desk commands.new)
        × ((d : Draft) → IsDraft plan.now piece d → StandsFor plan.now result (with_block d (came_as came samples.now) bytes)) }
{
    let piece = hand_frames(plan, piece, came, samples, commands);
    if piece.recorded == plan.frames {
        close_piece(plan, piece, patience(plan, came.behind), commands);
    }
    piece
}

/// Hands a block that came to the command of its piece, which it may begin.
pub fn hand_on<C: Commands, K: Sink>(
    task: &Task<'_>,
    logger: &mut Logger,
    came: Came,
    samples: &[u8],
    commands: &mut C,
    sink: &mut K,
)
    requires logger { IsLogger logger.old }
    requires desk { IfSeen (λ desk. IsDeskOf logger.old desk) (C.desk commands.old) }
    requires left { (left : ℕ) × HasLeft logger.old.plan logger.old.last left × (came.frames ≤ left) }
    requires some { 1 ≤ came.frames }
    requires lost { came.lost ≤ came.frames }
    requires samples { length samples.now ≡ came.frames * frame_size logger.old.plan }
    ensures logger { IsLogger logger.new }
    ensures desk { IfSeen (λ desk. IsDeskOf logger.new desk) (C.desk commands.new) }
    ensures same { (logger.new.plan ≡ logger.old.plan) × (logger.new.at ≡ logger.old.at) }
    ensures last { (p : AProgress) × (logger.new.last ≡ Some p)
        × ((left : ℕ) → HasLeft logger.old.plan logger.old.last left → p.recorded + left ≡ logger.old.plan.frames + came.frames) }
    ensures placed { (start : ℕ) → IsPlaced start logger.old.at.0 logger.old.last →
        IsPlaced start ((logger.old.at.0 + came.frames) % 2 ^ 32) logger.new.last }
    ensures begun { NextBegun logger.old.plan logger.old.last logger.old.begun logger.new.begun }
    ensures story { Continues task.now.job.now (came_as came samples.now ∷ []) logger.old logger.new
        (C.desk commands.old) (C.desk commands.new) (K.held sink.old) (K.held sink.new) }
    ensures fails { FailsBy logger.old.failed logger.new.failed (K.faults sink.old) (K.faults sink.new) }
{
    let plan = logger.plan;
    let piece = open_piece(task, logger, patience(&plan, came.behind), commands, sink);
    logger.last = Some(hand_block(&plan, piece, came, samples, commands));
}
