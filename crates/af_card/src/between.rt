// What stands between a device and its program: two queues of bytes, one each way, and the starts of the program.
ghost use Rattle.std.specs.Prelude.{◌≡◌, ◌≢◌, ◌≤◌, ◌<◌, ◌+◌, ◌-◌, ◌⊎◌, [], ◌∷◌, length, take, drop, replicate, true, false, is_some, is_none, ◌&&◌, List, IfOk};
ghost use Rattle.std.specs.declared.option.Option.{Option};
ghost use Rattle.std.specs.declared.option.Option.TheVariants.{None, Some};
ghost use Rattle.arrayvec.specs.ArrayVec.{array_vec_len};
ghost use Rattle.af_limits.specs.Limits.{longest_capture, longest_tick};
ghost use Rattle.af_io.specs.Observed.{Appended};
ghost use Rattle.af_program.specs.Acts.{ToldAct, captured, emitted, ended, launched, RunsWhereTold};
ghost use Rattle.af_process.specs.Acts.{words_of};
ghost use Rattle.af_card.specs.Fed.{IsSilent};
ghost use Rattle.af_world.specs.Kinds.{most_card_restarts};
ghost use Rattle.af_program.specs.Waits.{longest_wait, may_come};
ghost use Rattle.af_card.specs.Between.{Keeps, IsWhole, PassesOn, Accounts, new_between, CanBegin, CanCapture, CanEmit, CanEnd, LeavesLess, gives_sound, is_dead, may_capture, may_emit, frames_of, is_stalled, is_over_of, running_after_look, captured_of, goes_by_clock, hands_frames, takes_now};
ghost use Rattle.af_card.specs.Lost.{lost_after};
ghost use Rattle.af_card.specs.Passing.{GivesOwed, HandsOf, PassesSound, TakesGiven, begun_between, captured_between, ended_between, owing};

use crate::handing::{pass_on, without_room};
use crate::running::Running;
use crate::shape::Shape;
use af_limits::{LONGEST_CAPTURE, LONGEST_TICK};
use af_process::Words;
use af_program::{Gave, Launched, Program, Queue, Starts, Took, give_from, take_into};
use af_time::OutOfMemory;
use af_world::CardKind;
use std::alloc::Global;
use std::marker::Model;

/// Two seconds in which a program gives nothing, or takes nothing, in nanoseconds.
const LONGEST_STALL: u64 = 2_000_000_000;

/// What stands between a device and its program: the sound that the program gave and the device has not captured, and what the
/// device emitted and the program is owed. Beside these it has the program that runs, and how often one was started.
#[derive(Drop)]
pub(crate) struct Between {
    shape: Shape,
    starts: Starts,
    running: Option<Running>,
    input: Queue<LONGEST_CAPTURE>,
    owed: Queue<LONGEST_CAPTURE>,
    // the bytes of a tick that was captured, and is to be emitted
    tick: Option<usize>,
    // frames for which a card or an encoder had no room
    lost: u64,
    room: Vec<u8>,
}

impl Model for Between {
    ghost use Rattle.std.specs.Prelude.{◌≡◌, ◌≤◌, vec_len};
    ghost use Rattle.af_limits.specs.Limits.{longest_capture};
    ghost use Rattle.af_card.specs.Between.{BetweenState};
    ghost use Rattle.af_world.specs.Kinds.{most_card_restarts};
    ghost use Rattle.af_program.specs.Waits.{longest_wait};

    ghost Value = { BetweenState };

    ghost view = { λ b. record {
      shape = b.shape;
      starts = b.starts;
      running = b.running;
      left = b.input;
      owed = b.owed;
      tick = b.tick;
      lost = b.lost;
    } };

    ghost invariant = { λ b. (vec_len b.room ≡ longest_capture) × (1 ≤ b.shape.frame_bytes) × (b.shape.frame_bytes ≤ 8)
        × (b.starts.restarts ≤ most_card_restarts) × (b.starts.wait ≤ longest_wait) };
}

impl Between {
    /// Nothing, and no program was started.
    pub(crate) fn new(alloc: Global, shape: Shape, restarts: u32) -> Result<Between, OutOfMemory>
        requires frames { (1 ≤ shape.frame_bytes) × (shape.frame_bytes ≤ 8) }
        requires restarts { restarts ≤ most_card_restarts }
        ensures { IfOk result (λ between. between ≡ new_between shape restarts) }
    {
        Ok(Between {
            shape,
            starts: Starts::none(restarts),
            running: None,
            input: Queue::new(alloc)?,
            owed: Queue::new(alloc)?,
            tick: None,
            lost: 0,
            room: vec![in alloc; 0u8; LONGEST_CAPTURE]?,
        })
    }

    /// Tries a start. Whether the program runs then.
    pub(crate) fn begin<P: Program>(
        &mut self,
        program: &mut P,
        alloc: Global,
        at: u64,
        words: &Words,
    ) -> Launched
        requires some { 1 ≤ array_vec_len words.now }
        requires can { CanBegin self.old at }
        requires fits { Accounts self.old (P.acts program.old) }
        ensures fits { Accounts self.new (P.acts program.new) }
        ensures same { (self.new.shape ≡ self.old.shape) × (self.new.starts.restarts ≡ self.old.starts.restarts) }
        ensures tick { self.new.tick ≡ None }
        ensures acts { Appended (P.acts program.old) (launched at (words_of words.now) result ∷ []) (P.acts program.new) }
        ensures tried { self.new.starts.tried ≡ self.old.starts.tried + 1 }
        ensures runs { result ≡ Launched.Runs → is_some self.new.running ≡ true }
        ensures state { self.new ≡ begun_between result at self.old }
    {
        let launched = program.start(alloc, at, words);
        self.starts.begin();
        match launched {
            Launched::Runs => self.running = Some(Running::begun(at)),
            _ => self.starts.end(at, at),
        }
        launched
    }

    /// Whether a program runs.
    pub(crate) fn runs(&self) -> bool
        ensures { result ≡ is_some self.now.running }
    {
        self.running.is_some()
    }

    /// Its starts.
    pub(crate) fn starts(&self) -> Starts
        ensures same { result ≡ self.now.starts }
        ensures bound { result.restarts ≤ most_card_restarts }
    {
        self.starts
    }

    /// Whether no program runs, and no start is left.
    pub(crate) fn is_dead(&self) -> bool
        ensures { result ≡ is_dead self.now }
    {
        self.running.is_none() && !self.starts.is_left()
    }

    /// How many frames a card or an encoder had no room for, since the first start.
    pub(crate) fn lost(&self) -> u64
        ensures { result ≡ self.now.lost }
    {
        self.lost
    }

    /// Whether a program runs and takes sound.
    pub(crate) fn takes(&self) -> bool
        ensures { result ≡ takes_now self.now.running }
    {
        match self.running {
            None => false,
            Some(running) => !running.is_closed,
        }
    }

    /// Whether a tick was captured, and is to be emitted.
    pub(crate) fn is_captured(&self) -> bool
        ensures { result ≡ is_some self.now.tick }
    {
        self.tick.is_some()
    }

    /// Whether no program runs, and a start may come at a moment.
    pub(crate) fn may_begin(&self, at: u64) -> bool
        ensures { result ≡ (is_none self.now.running && may_come self.now.starts at) }
    {
        self.running.is_none() && self.starts.may_come(at)
    }

    /// Whether so many bytes may be captured in a tick.
    pub(crate) fn may_capture(&self, bytes: usize) -> bool
        ensures test { result ≡ may_capture self.now bytes }
        ensures can { result ≡ true → CanCapture self.now bytes }
    {
        if self.tick.is_some() {
            return false;
        }
        match self.running {
            Some(_) if self.shape.gives_sound() => {
                bytes <= self.input.as_slice().len() && bytes % self.shape.frame_bytes == 0
            }
            Some(_) if self.shape.hands_frames() => bytes % self.shape.frame_bytes == 0,
            _ => true,
        }
    }

    /// Whether so many bytes may be emitted in a tick.
    pub(crate) fn may_emit(&self, bytes: usize) -> bool
        ensures test { result ≡ may_emit self.now bytes }
        ensures can { result ≡ true → CanEmit self.now bytes }
    {
        if self.tick != Some(bytes) || bytes > LONGEST_CAPTURE {
            return false;
        }
        match self.running {
            Some(_) if self.shape.kind == CardKind::Speaker => {
                self.owed.as_slice().is_empty() && bytes <= self.shape.piece()
            }
            _ => true,
        }
    }

    /// The frames that are due by the program: whole frames that it gave, at most as many as a tick has; or a piece, once it is
    /// owed nothing.
    pub(crate) fn frames(&self) -> u32
        ensures frames { result ≡ frames_of self.now }
        ensures most { result ≤ longest_tick }
        ensures none { result ≡ 0 → LeavesLess self.now.shape.kind self.now.shape self.now.left }
    {
        match self.shape.kind {
            CardKind::Speaker if self.owed.as_slice().is_empty() => self.shape.piece_frames(),
            CardKind::Speaker => 0,
            CardKind::Microphone | CardKind::Card => {
                let whole = self.input.as_slice().len() / self.shape.frame_bytes;
                (whole as u32).min(LONGEST_TICK)
            }
            CardKind::Encoder => 0,
        }
    }

    /// Takes what the program gives, as far as there is room.
    pub(crate) fn take<P: Program>(&mut self, program: &mut P, at: u64)
        requires fits { Accounts self.old (P.acts program.old) }
        ensures fits { Accounts self.new (P.acts program.new) }
        ensures keeps { Keeps self.old.tick self.old self.new }
        ensures takes { TakesGiven at self.old self.new (P.acts program.old) (P.acts program.new) }
    {
        let Some(running) = self.running else {
            return;
        };
        if running.is_over || !self.shape.gives_sound() {
            return;
        }
        let gave = take_into(program, self.room.as_mut_slice(), &mut self.input);
        let has_frame = self.input.as_slice().len() >= self.shape.frame_bytes;
        self.running = Some(running.after_take(gave, has_frame, at));
    }

    /// Gives the program what it is owed, as far as it takes it.
    pub(crate) fn give_owed<P: Program>(&mut self, program: &mut P, at: u64)
        requires fits { Accounts self.old (P.acts program.old) }
        ensures fits { Accounts self.new (P.acts program.new) }
        ensures keeps { Keeps self.old.tick self.old self.new }
        ensures gives { GivesOwed at self.old self.new (P.acts program.old) (P.acts program.new) }
    {
        let Some(running) = self.running else {
            return;
        };
        if running.is_closed || self.owed.as_slice().is_empty() {
            return;
        }
        let took = give_from(program, &mut self.owed);
        self.running = Some(running.after_give(took, at));
    }

    /// A card that takes nothing while it gives is to be ended, once all that it gave is captured.
    pub(crate) fn look(&mut self, at: u64)
        ensures fits { (acts : Option (List ToldAct)) → Accounts self.old acts → Accounts self.new acts }
        ensures runs { is_some self.new.running ≡ is_some self.old.running }
        ensures rest { self.new ≡ record self.old { running = running_after_look self.old.running self.old.shape.kind at } }
    {
        let Some(running) = self.running else {
            return;
        };
        if self.shape.kind == CardKind::Card && !running.is_closed && is_stalled(running.took, at) {
            self.running = Some(Running {
                is_over: true,
                ..running
            });
        }
    }

    /// Whether the program is to be ended, where no frame is due by it.
    pub(crate) fn is_over(&self, at: u64) -> bool
        ensures { result ≡ is_over_of self.now.running self.now.shape.kind at }
    {
        match self.running {
            None => false,
            Some(running) => match self.shape.kind {
                CardKind::Speaker | CardKind::Encoder => {
                    running.is_closed || is_stalled(running.took, at)
                }
                CardKind::Microphone | CardKind::Card => {
                    running.is_over || is_stalled(running.gave, at)
                }
            },
        }
    }

    /// Whether the device goes by the system's clock, also while its program runs.
    pub(crate) fn goes_by_clock(&self) -> bool
        ensures { result ≡ goes_by_clock self.now.shape.kind }
    {
        self.shape.goes_by_clock()
    }

    /// How many frames a second there are.
    pub(crate) fn rate(&self) -> u32
        ensures { result ≡ self.now.shape.rate }
    {
        self.shape.rate
    }

    /// Captures the sound of a tick: what the program gave, or silence.
    pub(crate) fn capture<P: Program>(&mut self, program: &mut P, into: &mut [u8])
        requires can { CanCapture self.old (length into.old) }
        requires fits { Accounts self.old (P.acts program.old) }
        ensures fits { Accounts self.new (P.acts program.new) }
        ensures acts { Appended (P.acts program.old) (captured into.new ∷ []) (P.acts program.new) }
        ensures keeps { Keeps (Some (length into.new)) self.old self.new }
        ensures sound { into.new ≡ captured_of self.old.running self.old (length into.old) }
        ensures state { self.new ≡ captured_between (length into.old) self.old }
    {
        match self.running {
            Some(_) if self.shape.gives_sound() => self.capture_given(program, into),
            _ => self.capture_silence(program, into),
        }
    }

    /// Captures what the program gave.
    fn capture_given<P: Program>(&mut self, program: &mut P, into: &mut [u8])
        requires can { CanCapture self.old (length into.old) }
        requires runs { self.old.running ≢ None }
        requires gives { gives_sound self.old.shape.kind ≡ true }
        requires fits { Accounts self.old (P.acts program.old) }
        ensures fits { Accounts self.new (P.acts program.new) }
        ensures acts { Appended (P.acts program.old) (captured into.new ∷ []) (P.acts program.new) }
        ensures keeps { Keeps (Some (length into.new)) self.old self.new }
        ensures sound { into.new ≡ take (length into.old) self.old.left }
        ensures state { self.new ≡
            record self.old { left = drop (length into.old) self.old.left; tick = Some (length into.old) } }
    {
        into.copy_from_slice(&self.input.as_slice()[..into.len()]);
        self.input.drop_front(into.len());
        program.note_captured(into);
        self.tick = Some(into.len());
    }

    /// Captures silence.
    fn capture_silence<P: Program>(&mut self, program: &mut P, into: &mut [u8])
        requires can { CanCapture self.old (length into.old) }
        requires none { self.old.running ≡ None ⊎ gives_sound self.old.shape.kind ≡ false }
        requires fits { Accounts self.old (P.acts program.old) }
        ensures fits { Accounts self.new (P.acts program.new) }
        ensures acts { Appended (P.acts program.old) (captured into.new ∷ []) (P.acts program.new) }
        ensures keeps { Keeps (Some (length into.new)) self.old self.new }
        ensures sound { into.new ≡ replicate (length into.old) self.old.shape.silence }
        ensures state { self.new ≡ record self.old { tick = Some (length into.old) } }
    {
        silence(into, self.shape.silence);
        program.note_captured(into);
        self.tick = Some(into.len());
    }

    /// Emits the sound of a tick: the program is given it, as far as it takes it.
    pub(crate) fn emit<P: Program>(&mut self, program: &mut P, sound: &[u8], at: u64)
        requires some { 0 < length sound.now }
        requires can { CanEmit self.old (length sound.now) }
        requires fits { Accounts self.old (P.acts program.old) }
        ensures fits { Accounts self.new (P.acts program.new) }
        ensures keeps { Keeps None self.old self.new }
        ensures idle { self.old.running ≡ None → Appended (P.acts program.old) (emitted sound.now ∷ []) (P.acts program.new) }
        ensures hands { HandsOf self.old.running at sound.now self.old self.new (P.acts program.old) (P.acts program.new) }
    {
        match self.running {
            Some(_) if self.shape.kind == CardKind::Speaker => {
                self.owe(program, sound);
                self.give_owed(program, at);
            }
            Some(_) if self.shape.hands_frames() => {
                self.give_owed(program, at);
                self.pass(program, sound, at);
            }
            _ => self.lose(program, sound),
        }
    }

    /// Emits the sound of a tick that the program of a loudspeaker is owed whole.
    fn owe<P: Program>(&mut self, program: &mut P, sound: &[u8])
        requires can { CanEmit self.old (length sound.now) }
        requires runs { self.old.running ≢ None }
        requires kind { self.old.shape.kind ≡ CardKind.Speaker }
        requires fits { Accounts self.old (P.acts program.old) }
        ensures fits { Accounts self.new (P.acts program.new) }
        ensures keeps { Keeps None self.old self.new }
        ensures state { self.new ≡ owing sound.now self.old }
        ensures acts { Appended (P.acts program.old) (emitted sound.now ∷ []) (P.acts program.new) }
    {
        program.note_emitted(sound);
        self.owed.append(sound);
        self.tick = None;
    }

    /// Emits the sound of a tick to a card or an encoder, as far as it has room, in whole frames. What it has no room for is lost
    /// and counted. If it took a part of a frame, it is owed the rest. As long as it is owed something, all is lost and counted.
    fn pass<P: Program>(&mut self, program: &mut P, sound: &[u8], at: u64)
        requires some { 0 < length sound.now }
        requires can { CanEmit self.old (length sound.now) }
        requires kind { hands_frames self.old.shape.kind ≡ true }
        requires fits { Accounts self.old (P.acts program.old) }
        ensures fits { Accounts self.new (P.acts program.new) }
        ensures keeps { Keeps None self.old self.new }
        ensures passes { self.old.running ≢ None →
            PassesSound at sound.now self.old self.new (P.acts program.old) (P.acts program.new) }
    {
        program.note_emitted(sound);
        self.tick = None;
        let Some(running) = self.running else {
            return;
        };
        let frame_bytes = self.shape.frame_bytes;
        if running.is_closed || !self.owed.as_slice().is_empty() {
            self.lost = lost_after(self.lost, sound.len(), frame_bytes);
            return;
        }
        let took = pass_on(program, sound, frame_bytes, &mut self.owed);
        let bytes = without_room(took, sound.len(), self.owed.as_slice().len());
        self.lost = lost_after(self.lost, bytes, frame_bytes);
        self.running = Some(running.after_give(took, at));
    }

    /// Emits the sound of a tick that nobody is given.
    fn lose<P: Program>(&mut self, program: &mut P, sound: &[u8])
        requires can { CanEmit self.old (length sound.now) }
        requires kind { self.old.running ≡ None ⊎ self.old.shape.kind ≡ CardKind.Microphone }
        requires fits { Accounts self.old (P.acts program.old) }
        ensures fits { Accounts self.new (P.acts program.new) }
        ensures keeps { Keeps None self.old self.new }
        ensures acts { Appended (P.acts program.old) (emitted sound.now ∷ []) (P.acts program.new) }
        ensures state { self.new ≡ record self.old { tick = None } }
    {
        program.note_emitted(sound);
        self.tick = None;
    }

    /// Ends the program.
    pub(crate) fn end<P: Program>(&mut self, program: &mut P, at: u64)
        requires can { CanEnd self.old }
        requires fits { Accounts self.old (P.acts program.old) }
        ensures fits { Accounts self.new (P.acts program.new) }
        ensures same { (self.new.shape ≡ self.old.shape) × (self.new.starts.restarts ≡ self.old.starts.restarts) }
        ensures ended { self.new.running ≡ None }
        ensures tick { self.new.tick ≡ None }
        ensures state { self.old.running ≢ None → self.new ≡ ended_between at self.old }
        ensures acts { self.old.running ≢ None → Appended (P.acts program.old) (ended at ∷ []) (P.acts program.new) }
    {
        let Some(running) = self.running else {
            return;
        };
        program.end(at);
        self.starts.end(running.began, at);
        self.running = None;
        self.input.clear();
        self.owed.clear();
    }
}

/// How many frames are lost once so many bytes more have found no room. A count that is full stays so.
fn lost_after(lost: u64, bytes: usize, frame_bytes: usize) -> u64
    requires { 1 ≤ frame_bytes }
    ensures { result ≡ lost_after lost bytes frame_bytes }
{
    lost.saturating_add((bytes / frame_bytes) as u64)
}

/// Whether so much time has gone by that it is a stall.
fn is_stalled(since: u64, at: u64) -> bool
    ensures { result ≡ is_stalled since at }
{
    at.saturating_sub(since) >= LONGEST_STALL
}

/// Silence, by the byte that it has.
fn silence(into: &mut [u8], byte: u8)
    ensures silent { IsSilent byte into.new }
    ensures len { length into.new ≡ length into.old }
{
    into.fill(byte);
}
