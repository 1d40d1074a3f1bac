// A program in memory, which answers by a plan.
ghost use Rattle.std.specs.Prelude.{◌≡◌, ◌≢◌, ◌↔◌, ◌≤◌, ◌<◌, [], ◌∷◌, ◌++◌, false, length, take, drop, map, is_some, slice_get, Contains, IfOk, IfSome, IsTrue, IsFalse};
ghost use Rattle.std.specs.declared.option.Option.TheVariants.{Some};
ghost use Rattle.arrayvec.specs.ArrayVec.{array_vec_len};
ghost use Rattle.af_io.specs.Observed.{Appended, next_count};
ghost use Rattle.af_process.specs.Acts.{words_of};
ghost use Rattle.af_program.specs.Acts.{launched, ended, captured, emitted, gave_acts, took_acts, runs_after, GaveFits, TookFits, IdlesWhereTold, RunsWhereTold};
ghost use Rattle.af_program.specs.Memory.{gave_count, gave_of, gave_some, took_of, took_some};
ghost use Rattle.af_program.specs.Notes.{told_of};

use crate::{Act, Gave, Launched, Program, ProgramSockets, Took, acts};
use af_io::{Notes, Stated};
use af_process::Words;
use af_time::OutOfMemory;
use std::alloc::Global;
use std::marker::Model;

/// What a program in memory does.
#[derive(Clone, Copy)]
pub struct Plan<'a> {
    /// The numbers of the starts that fail, from 0.
    pub fails: &'a [u64],
    /// The bytes that it gives, whatever starts there are between them.
    pub output: &'a [u8],
    /// How many bytes each take gives at most, in the order of the takes. None: it gives none any more.
    pub gives: &'a [Option<u32>],
    /// How many bytes each give takes at most, in the order of the gives. None: it takes none any more.
    pub takes: &'a [Option<u32>],
}

/// Keeps every act, and plays a plan. A take past those of the plan gives nothing yet, and a give past those of the plan takes
/// all. Starts, takes and gives are counted from 0, over all starts. Their counts stand still at 2^64 - 1.
#[derive(Drop)]
pub struct MemProgram {
    notes: Notes<Act>,
    runs: bool,
    fails: Vec<u64>,
    starts: u64,
    output: Vec<u8>,
    // how many bytes of the output were given
    gone: usize,
    gives: Stated<Option<u32>>,
    takes: Stated<Option<u32>>,
}

impl Model for MemProgram {
    ghost use Rattle.std.specs.Prelude.{◌≡◌, ◌≤◌, length, drop, IfSome};
    ghost use Rattle.af_program.specs.Acts.{runs_in};
    ghost use Rattle.af_program.specs.Memory.{MemProgramState};
    ghost use Rattle.af_program.specs.Notes.{told_acts};

    ghost Value = { MemProgramState };

    ghost view = { λ a. record {
      acts = told_acts a.notes;
      runs = a.runs;
      fails = a.fails.items;
      left = drop a.gone a.output.items;
      gives = a.gives.answers.items;
      takes = a.takes.answers.items;
      starts = a.starts;
      take_calls = a.gives.number;
      give_calls = a.takes.number;
    } };

    ghost invariant = { λ a. (a.gone ≤ length a.output.items) × IfSome (told_acts a.notes) (λ acts. a.runs ≡ runs_in acts) };
}

impl MemProgram {
    /// A program that was not started, with this plan.
    pub fn new(alloc: Global, plan: &Plan<'_>) -> Result<MemProgram, OutOfMemory>
        ensures { IfOk result
            (λ program. program
            ≡ record {
              acts = Some [];
              runs = false;
              fails = plan.now.fails.now;
              left = plan.now.output.now;
              gives = plan.now.gives.now;
              takes = plan.now.takes.now;
              starts = 0;
              take_calls = 0;
              give_calls = 0;
            }) }
    {
        Ok(MemProgram {
            notes: Notes::new(alloc),
            runs: false,
            fails: Vec::from_slice(alloc, plan.fails)?,
            starts: 0,
            output: Vec::from_slice(alloc, plan.output)?,
            gone: 0,
            gives: Stated::new(alloc, plan.gives)?,
            takes: Stated::new(alloc, plan.takes)?,
        })
    }

    /// All acts so far, in order, if they are observed.
    pub fn acts(&self) -> &[Act]
        ensures { IfSome self.now.acts (λ acts. acts ≡ map told_of result.now) }
    {
        self.notes.entries()
    }

    /// Whether the acts are observed: always, but after memory ran out for one.
    pub fn tells(&self) -> bool
        ensures { result ≡ is_some self.now.acts }
    {
        self.notes.tells()
    }

    /// Whether it runs: from a start on that succeeds, until it is ended.
    pub fn runs(&self) -> bool
        ensures runs { result ≡ self.now.runs }
        ensures told { IsTrue result → RunsWhereTold self.now.acts }
        ensures idle { IsFalse result → IdlesWhereTold self.now.acts }
    {
        self.runs
    }
}

impl Program for MemProgram {
    ghost acts = { λ program. program.acts };

    fn sockets(&self) -> ProgramSockets {
        ProgramSockets::NONE
    }

    fn note_captured(&mut self, sound: &[u8])
        ensures acts { Appended self.old.acts (captured sound.now ∷ []) self.new.acts }
        ensures rest { self.new ≡ record self.old { acts = self.new.acts } }
    {
        let act = acts::captured(self.notes.allocator(), sound);
        self.notes.add(act);
    }

    fn note_emitted(&mut self, sound: &[u8])
        ensures acts { Appended self.old.acts (emitted sound.now ∷ []) self.new.acts }
        ensures rest { self.new ≡ record self.old { acts = self.new.acts } }
    {
        let act = acts::emitted(self.notes.allocator(), sound);
        self.notes.add(act);
    }

    fn start(&mut self, alloc: Global, at: u64, words: &Words) -> Launched
        requires some { 1 ≤ array_vec_len words.now }
        requires idles { IdlesWhereTold self.old.acts }
        ensures acts { Appended self.old.acts (launched at (words_of words.now) result ∷ []) self.new.acts }
        ensures failed { (result ≡ Launched.Failed) ↔ Contains self.old.fails self.old.starts }
        ensures runs { result ≢ Launched.Failed → result ≡ Launched.Runs }
        ensures rest { self.new
            ≡ record self.old {
              acts = self.new.acts;
              runs = runs_after self.old.runs (launched at (words_of words.now) result);
              starts = next_count self.old.starts;
            } }
    {
        let fails = self.fails.contains(&self.starts);
        self.starts = self.starts.saturating_add(1);
        if fails {
            self.notes
                .add(Ok(acts::launched(at, words, Launched::Failed)));
            return Launched::Failed;
        }
        self.runs = true;
        self.notes
            .add(Ok(acts::launched(at, words, Launched::Runs)));
        Launched::Runs
    }

    fn take(&mut self, into: &mut [u8]) -> Gave
        requires room { 0 < length into.old }
        requires runs { RunsWhereTold self.old.acts }
        ensures bound { GaveFits result (length into.new) }
        ensures acts { Appended self.old.acts (gave_acts result into.new) self.new.acts }
        ensures gave { result ≡ gave_of (slice_get self.old.gives self.old.take_calls) (length self.old.left) (length into.old) }
        ensures bytes { into.new ≡ take (gave_count result) self.old.left ++ drop (gave_count result) into.old }
        ensures left { self.new.left ≡ drop (gave_count result) self.old.left }
        ensures rest { self.new
            ≡ record self.old { acts = self.new.acts; left = self.new.left; take_calls = next_count self.old.take_calls } }
    {
        let left = &self.output[self.gone..];
        let came = match self.gives.next_answer() {
            None => Gave::NotYet,
            Some(None) => Gave::Ended,
            Some(Some(most)) => gave_some((most as usize).min(left.len()).min(into.len())),
        };
        if let Gave::Bytes(count) = came {
            into[..count].copy_from_slice(&left[..count]);
            self.gone += count;
        }
        acts::note_take(&mut self.notes, into, came);
        came
    }

    fn give(&mut self, bytes: &[u8]) -> Took
        requires some { 0 < length bytes.now }
        requires runs { RunsWhereTold self.old.acts }
        ensures bound { TookFits result (length bytes.now) }
        ensures acts { Appended self.old.acts (took_acts result bytes.now) self.new.acts }
        ensures took { result ≡ took_of (slice_get self.old.takes self.old.give_calls) (length bytes.now) }
        ensures rest { self.new ≡ record self.old { acts = self.new.acts; give_calls = next_count self.old.give_calls } }
    {
        let took = match self.takes.next_answer() {
            None => took_some(bytes.len()),
            Some(None) => Took::Ended,
            Some(Some(most)) => took_some((most as usize).min(bytes.len())),
        };
        acts::note_give(&mut self.notes, bytes, took);
        took
    }

    fn end(&mut self, at: u64)
        requires runs { RunsWhereTold self.old.acts }
        ensures acts { Appended self.old.acts (ended at ∷ []) self.new.acts }
        ensures rest { self.new ≡ record self.old { acts = self.new.acts; runs = false } }
    {
        self.runs = false;
        self.notes.add(Ok(Act::Ended { at }));
    }

    fn tend(&mut self, _at: u64)
        ensures same { self.new ≡ self.old }
    {}
}

// So many bytes are given, if there are any.
fn gave_some(count: usize) -> Gave
    ensures { result ≡ gave_some count }
{
    if count == 0 {
        Gave::NotYet
    } else {
        Gave::Bytes(count)
    }
}

// So many bytes are taken, if there are any.
fn took_some(count: usize) -> Took
    ensures { result ≡ took_some count }
{
    if count == 0 {
        Took::NoRoom
    } else {
        Took::Bytes(count)
    }
}
