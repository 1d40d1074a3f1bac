// A device whose sound goes to a program, comes from it, or both.
ghost use Rattle.std.specs.Prelude.{◌≡◌, ◌≢◌, ◌≤◌, ◌<◌, ◌+◌, ◌-◌, [], ◌∷◌, length, take, true, false, is_some, if◌then◌else◌, IfOk};
ghost use Rattle.std.specs.declared.option.Option.TheVariants.{None, Some};
ghost use Rattle.arrayvec.specs.ArrayVec.{array_vec_len};
ghost use Rattle.af_limits.specs.Limits.{longest_tick};
ghost use Rattle.af_io.specs.Observed.{Appended, Unchanged};
ghost use Rattle.af_process.specs.Acts.{words_of};
ghost use Rattle.af_program.specs.Acts.{captured, launched, TellsNothing};
ghost use Rattle.af_world.specs.Kinds.{most_card_restarts};
ghost use Rattle.af_program.specs.Waits.{may_come, next_start};
ghost use Rattle.af_card.specs.Between.{Accounts, new_between, captured_of, frames_of, is_over_of, takes_now};
ghost use Rattle.af_card.specs.Lost.{CountsLost};
ghost use Rattle.af_card.specs.Passing.{HandsOf, Meets, begun_between, captured_between};
ghost use Rattle.af_card.specs.Card.{new_card, begins_now, EmitsAndStarts, SameOrders, StartsOnly, captures, emits, DueByClock, DueOf, DueOfKind, IsFedWhereTold, hundredths_of};

use crate::between::Between;
use crate::shape::Shape;
use af_clock::Pace;
use af_io::Put;
use af_process::{Words, copied_words};
use af_program::{Launched, Program};
use af_time::OutOfMemory;
use std::alloc::Global;
use std::marker::Model;

/// A hundredth of a second, in nanoseconds.
const HUNDREDTH: u64 = 10_000_000;

/// A device whose sound goes to a program, comes from it, or both. It goes by its program while one runs; an encoder goes by the
/// system's clock throughout. Moments are nanoseconds of a clock, and never go back.
///
/// At each tick `due` comes first, then `capture` and `emit`, with as many frames.
#[derive(Drop)]
pub struct Card<P: Program + Drop> {
    alloc: Global,
    program: P,
    words: Words,
    between: Between,
    pace: Pace,
    at: u64,
}

impl<P: Program + Drop> Model for Card<P> {
    ghost use Rattle.std.specs.Prelude.{◌≤◌};
    ghost use Rattle.arrayvec.specs.ArrayVec.{array_vec_len};
    ghost use Rattle.af_process.specs.Acts.{words_of};
    ghost use Rattle.af_card.specs.Between.{Accounts};
    ghost use Rattle.af_card.specs.Card.{CardState};

    ghost Value = { CardState P };

    ghost view = { λ c. record {
      program = c.program;
      between = c.between;
      words = words_of c.words;
      pace = c.pace;
      at = c.at;
    } };

    ghost invariant = { λ c. (1 ≤ array_vec_len c.words) × Accounts c.between (P.acts c.program) };
}

impl<P: Program + Drop> Card<P> {
    /// A device of this shape, over a program with no acts so far. It is started by this command line, and at most so many times
    /// again. All memory is taken here, except what a start takes.
    pub fn new(
        alloc: Global,
        program: P,
        shape: Shape,
        restarts: u32,
        words: &Words,
    ) -> Result<Card<P>, OutOfMemory>
        requires none { TellsNothing (P.acts program) }
        requires frames { (1 ≤ shape.frame_bytes) × (shape.frame_bytes ≤ 8) }
        requires restarts { restarts ≤ most_card_restarts }
        requires some { 1 ≤ array_vec_len words.now }
        ensures made { IfOk result (λ card. card ≡ new_card program shape restarts (words_of words.now)) }
    {
        Ok(Card {
            alloc,
            program,
            words: copied_words(words),
            between: Between::new(alloc, shape, restarts)?,
            pace: Pace::new(shape.rate),
            at: 0,
        })
    }

    /// Tries the first start.
    pub fn begin(&mut self, at: u64) -> Launched
        requires new { self.old.between ≡ new_between self.old.between.shape self.old.between.starts.restarts }
        ensures fed { IsFedWhereTold P.acts self.new }
        ensures acts { Appended (P.acts self.old.program) (launched at self.old.words result ∷ []) (P.acts self.new.program) }
        ensures same { SameOrders self.old self.new }
        ensures now { self.new.at ≡ at }
        ensures tried { self.new.between.starts.tried ≡ self.old.between.starts.tried + 1 }
        ensures runs { result ≡ Launched.Runs → is_some self.new.between.running ≡ true }
        ensures state { self.new.between ≡ begun_between result at self.old.between }
        ensures pace { self.new.pace ≡ self.old.pace }
    {
        self.at = at;
        self.between
            .begin(&mut self.program, self.alloc, at, &self.words)
    }

    /// The frames of the tick that is due at a moment, at most 4096, or none.
    pub fn due(&mut self, at: u64) -> u32
        ensures most { result ≤ longest_tick }
        ensures words { self.old.between.running ≡ None →
            StartsOnly at self.old.words self.old.between self.new.between (P.acts self.old.program) (P.acts self.new.program) }
        ensures meets { self.old.between.tick ≡ None → self.old.between.running ≢ None →
            Meets at self.old.between self.new.between (P.acts self.old.program) (P.acts self.new.program) }
        ensures over { self.old.between.tick ≡ None → result ≡ 0 →
            is_over_of self.new.between.running self.new.between.shape.kind at ≡ false }
        ensures waits { self.old.between.tick ≢ None → Unchanged (P.acts self.old.program) (P.acts self.new.program) }
        ensures due { DueOf self.old.between.tick self.old.between.running at result self.old.between self.new.between
            self.old.pace self.new.pace }
        ensures fed { IsFedWhereTold P.acts self.new }
        ensures same { SameOrders self.old self.new }
        ensures now { self.new.at ≡ at }
    {
        self.at = at;
        self.program.tend(at);
        if self.between.is_captured() {
            return 0;
        }
        if self.between.runs() {
            due_while_it_runs(&mut self.between, &mut self.program, &mut self.pace, at)
        } else {
            due_by_clock(
                &mut self.between,
                &mut self.program,
                &mut self.pace,
                self.alloc,
                &self.words,
                at,
            )
        }
    }

    /// Captures the sound of a tick. Failed says that no program runs and no start is left, or that this is not the tick that is
    /// due; nothing is captured then.
    pub fn capture(&mut self, into: &mut [u8]) -> Put
        ensures answer { result ≡ captures self.old.between (length into.old) }
        ensures done { result ≡ Put.Done → into.new ≡ captured_of self.old.between.running self.old.between (length into.old) }
        ensures acts { result ≡ Put.Done → Appended (P.acts self.old.program) (captured into.new ∷ []) (P.acts self.new.program) }
        ensures state { result ≡ Put.Done → self.new.between ≡ captured_between (length into.old) self.old.between }
        ensures pace { self.new.pace ≡ self.old.pace }
        ensures failed { result ≡ Put.Failed → self.new ≡ self.old }
        ensures fed { IsFedWhereTold P.acts self.new }
        ensures same { SameOrders self.old self.new }
        ensures now { self.new.at ≡ self.old.at }
    {
        if self.between.is_dead() || !self.between.may_capture(into.len()) {
            return Put::Failed;
        }
        self.between.capture(&mut self.program, into);
        Put::Done
    }

    /// Emits the sound of a tick. Failed says that no program runs and no start is left, or that this is not the tick that was
    /// captured; nothing is emitted then. Where no program runs, the next start may come here.
    pub fn emit(&mut self, sound: &[u8]) -> Put
        requires some { 0 < length sound.now }
        ensures answer { result ≡ emits self.old.between (length sound.now) }
        ensures failed { result ≡ Put.Failed → self.new ≡ self.old }
        ensures words { result ≡ Put.Done → self.old.between.running ≡ None →
            EmitsAndStarts self.old.at sound.now self.old.words self.old.between self.new.between
            (P.acts self.old.program) (P.acts self.new.program) }
        ensures hands { result ≡ Put.Done → self.old.between.running ≢ None →
            HandsOf self.old.between.running self.old.at sound.now self.old.between self.new.between
            (P.acts self.old.program) (P.acts self.new.program) }
        ensures pace { self.new.pace ≡ self.old.pace }
        ensures tried { result ≡ Put.Done →
            self.new.between.starts.tried
            ≡ (if begins_now self.old then self.old.between.starts.tried + 1 else self.old.between.starts.tried) }
        ensures fed { IsFedWhereTold P.acts self.new }
        ensures same { SameOrders self.old self.new }
        ensures now { self.new.at ≡ self.old.at }
    {
        if self.between.is_dead() || !self.between.may_emit(sound.len()) {
            return Put::Failed;
        }
        self.between.emit(&mut self.program, sound, self.at);
        if self.between.may_begin(self.at) && !self.pace.is_due(self.at) {
            self.between
                .begin(&mut self.program, self.alloc, self.at, &self.words);
        }
        Put::Done
    }

    /// How many starts of its program were tried.
    pub fn tried(&self) -> u32
        ensures { result ≡ self.now.between.starts.tried }
    {
        self.between.starts().tried
    }

    /// How many starts of its program are left.
    pub fn starts_left(&self) -> u32
        ensures { result ≡ self.now.between.starts.restarts + 1 - self.now.between.starts.tried }
    {
        self.between.starts().left()
    }

    /// Whether its program runs.
    pub fn runs(&self) -> bool
        ensures { result ≡ is_some self.now.between.running }
    {
        self.between.runs()
    }

    /// How many frames of sound its program had no room for, since the first start, 2^64 - 1 at most. Only a card or an encoder
    /// loses any so. One that has closed its input loses all.
    pub fn lost(&self) -> u64
        ensures counted { CountsLost self.now.between.shape (P.acts self.now.program) result }
        ensures state { result ≡ self.now.between.lost }
    {
        self.between.lost()
    }

    /// Whether its program runs and takes sound.
    pub fn takes(&self) -> bool
        ensures { result ≡ takes_now self.now.between.running }
    {
        self.between.takes()
    }

    /// From which moment on the next start may come, if a program has ended and a start is left.
    pub fn next_start(&self) -> Option<u64>
        ensures { result ≡ next_start self.now.between.starts }
    {
        self.between.starts().next_start()
    }

    /// Its program.
    pub fn program(&self) -> &P
        ensures { result.now ≡ self.now.program }
    {
        &self.program
    }
}

/// The frames that are due while a program runs, at this moment: by the program, or for an encoder by the clock. A program that
/// gives or takes nothing any more is ended.
fn due_while_it_runs<P: Program>(
    between: &mut Between,
    program: &mut P,
    pace: &mut Pace,
    at: u64,
) -> u32
    requires runs { is_some between.old.running ≡ true }
    requires tick { between.old.tick ≡ None }
    requires fits { Accounts between.old (P.acts program.old) }
    ensures most { result ≤ longest_tick }
    ensures due { DueOfKind between.old.shape.kind at result between.new pace.old pace.new }
    ensures fits { Accounts between.new (P.acts program.new) }
    ensures same { (between.new.shape ≡ between.old.shape) × (between.new.starts.restarts ≡ between.old.starts.restarts) }
    ensures tick { between.new.tick ≡ None }
    ensures meets { Meets at between.old between.new (P.acts program.old) (P.acts program.new) }
    ensures over { result ≡ 0 → is_over_of between.new.running between.new.shape.kind at ≡ false }
{
    let frames = frames_by_program(between, program, at);
    if between.goes_by_clock() {
        return pace.due(hundredths_of(at));
    }
    if !between.runs() {
        *pace = Pace::new(between.rate());
        return pace.due(at);
    }
    frames
}

/// A moment, in whole hundredths of a second.
fn hundredths_of(at: u64) -> u64
    ensures { result ≡ hundredths_of at }
{
    at - at % HUNDREDTH
}

/// The frames that are due by a program that runs, at this moment. A program that gives or takes nothing any more is ended.
fn frames_by_program<P: Program>(between: &mut Between, program: &mut P, at: u64) -> u32
    requires runs { is_some between.old.running ≡ true }
    requires tick { between.old.tick ≡ None }
    requires fits { Accounts between.old (P.acts program.old) }
    ensures most { result ≤ longest_tick }
    ensures frames { is_some between.new.running ≡ true → result ≡ frames_of between.new }
    ensures ended { is_some between.new.running ≡ false → result ≡ 0 }
    ensures fits { Accounts between.new (P.acts program.new) }
    ensures same { (between.new.shape ≡ between.old.shape) × (between.new.starts.restarts ≡ between.old.starts.restarts) }
    ensures tick { between.new.tick ≡ None }
    ensures meets { Meets at between.old between.new (P.acts program.old) (P.acts program.new) }
    ensures over { result ≡ 0 → is_over_of between.new.running between.new.shape.kind at ≡ false }
{
    between.give_owed(program, at);
    between.take(program, at);
    between.look(at);
    let frames = between.frames();
    if frames == 0 && between.is_over(at) {
        between.end(program, at);
        return 0;
    }
    frames
}

/// The frames that are due by the clock where no program runs, at this moment. Where none is due, a start is tried if one may
/// come.
fn due_by_clock<P: Program>(
    between: &mut Between,
    program: &mut P,
    pace: &mut Pace,
    alloc: Global,
    words: &Words,
    at: u64,
) -> u32
    requires some { 1 ≤ array_vec_len words.now }
    requires none { between.old.running ≡ None }
    requires tick { between.old.tick ≡ None }
    requires fits { Accounts between.old (P.acts program.old) }
    ensures most { result ≤ longest_tick }
    ensures due { DueByClock at result between.old between.new pace.old pace.new }
    ensures words { StartsOnly at (words_of words.now) between.old between.new (P.acts program.old) (P.acts program.new) }
    ensures over { is_over_of between.new.running between.new.shape.kind at ≡ false }
    ensures fits { Accounts between.new (P.acts program.new) }
    ensures same { (between.new.shape ≡ between.old.shape) × (between.new.starts.restarts ≡ between.old.starts.restarts) }
    ensures tick { between.new.tick ≡ None }
{
    let frames = pace.due(at);
    if frames == 0 && between.starts().may_come(at) {
        between.begin(program, alloc, at, words);
    }
    frames
}
