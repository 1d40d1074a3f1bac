// What stands between a line and its program: bytes each way, and the hook.
ghost use Rattle.std.specs.Prelude.{◌≡◌, ◌↔◌, ◌≤◌, ◌+◌, [], ◌∷◌, true, is_some, List, IfOk};
ghost use Rattle.std.specs.declared.option.Option.{Option};
ghost use Rattle.std.specs.declared.option.Option.TheVariants.{None, Some};
ghost use Rattle.arrayvec.specs.ArrayVec.{array_vec_len};
ghost use Rattle.af_io.specs.Observed.{Appended};
ghost use Rattle.af_program.specs.Acts.{ToldAct, captured, emitted, ended};
ghost use Rattle.af_process.specs.Acts.{words_of};
ghost use Rattle.af_world.specs.Kinds.{most_card_restarts};
ghost use Rattle.af_exchange.specs.Lines.{text_of, hook_text};
ghost use Rattle.af_exchange.specs.Fronts.{FrontOf, NoComment};
ghost use Rattle.af_exchange.specs.Ledger.{Notes};
ghost use Rattle.af_exchange.specs.Hook.{after_call, OffersOwed};
ghost use Rattle.af_exchange.specs.Begins.{Begins};
ghost use Rattle.af_exchange.specs.Asks.{TakesMore};
ghost use Rattle.af_exchange.specs.Dialogue.{new_dialogue, began_of, is_open, is_over, starts_once_over, Accounts, CanBegin, CanEnd, LeavesNone, PassesOver};

use crate::line::{Front, front_of, hook_text, note_change};
use crate::running::Running;
use af_phone::LineChange;
use af_process::Words;
use af_program::{Launched, Program, Queue, Starts, give_from, take_into};
use af_time::OutOfMemory;
use std::alloc::Global;
use std::marker::Model;

/// So many bytes of a program, or for one, are kept at most.
const MOST_BYTES: usize = 4096;

/// What stands between a line and its program: what the program gave and was not read, what it is owed, and the state of the
/// hook. Beside these it has the program that runs, and how often one was started.
#[derive(Drop)]
pub(crate) struct Dialogue {
    starts: Starts,
    running: Option<Running>,
    input: Queue<MOST_BYTES>,
    owed: Queue<MOST_BYTES>,
    off: bool,
    room: Vec<u8>,
}

impl Model for Dialogue {
    ghost use Rattle.std.specs.Prelude.{◌≡◌, ◌≤◌, vec_len};
    ghost use Rattle.af_world.specs.Kinds.{most_card_restarts};
    ghost use Rattle.af_program.specs.Waits.{longest_wait};
    ghost use Rattle.af_exchange.specs.Dialogue.{DialogueState, most_bytes};

    ghost Value = { DialogueState };

    ghost view = { λ d. record {
      starts = d.starts;
      running = d.running;
      left = d.input;
      owed = d.owed;
      off = d.off;
    } };

    ghost invariant = { λ d. (vec_len d.room ≡ most_bytes) × (d.starts.restarts ≤ most_card_restarts)
        × (d.starts.wait ≤ longest_wait) };
}

impl Dialogue {
    /// Nothing, with the phone on its hook, and no program was started.
    pub(crate) fn new(alloc: Global, restarts: u32) -> Result<Dialogue, OutOfMemory>
        requires restarts { restarts ≤ most_card_restarts }
        ensures { IfOk result (λ dialogue. dialogue ≡ new_dialogue restarts) }
    {
        Ok(Dialogue {
            starts: Starts::none(restarts),
            running: None,
            input: Queue::new(alloc)?,
            owed: Queue::new(alloc)?,
            off: false,
            room: vec![in alloc; 0u8; MOST_BYTES]?,
        })
    }

    /// Tries a start. A program that runs then is offered the line of the hook as it is.
    pub(crate) fn begin<P: Program>(
        &mut self,
        program: &mut P,
        alloc: Global,
        at: u64,
        words: &Words,
    ) -> Launched
        requires some { 1 ≤ array_vec_len words.now }
        requires can { CanBegin self.old at }
        requires fits { Accounts self.old (P.acts program.old) }
        ensures fits { Accounts self.new (P.acts program.new) }
        ensures same { (self.new.starts.restarts ≡ self.old.starts.restarts) × (self.new.off ≡ self.old.off) }
        ensures tried { self.new.starts.tried ≡ self.old.starts.tried + 1 }
        ensures runs { (result ≡ Launched.Runs) ↔ (is_some self.new.running ≡ true) }
        ensures none { LeavesNone self.new }
        ensures begins { Begins at (words_of words.now) result self.old self.new (P.acts program.old) (P.acts program.new) }
        ensures notes { Notes [] [] (record { at = at; words = words_of words.now } ∷ []) (P.acts program.old)
            (P.acts program.new) }
    {
        let launched = program.start(alloc, at, words);
        self.starts.begin();
        self.input.clear();
        self.owed.clear();
        match launched {
            Launched::Runs => {
                self.owed.append(hook_text(self.off));
                self.running = Some(Running::begun(at));
                self.give_owed(program);
            }
            _ => self.starts.end(at, at),
        }
        launched
    }

    /// Whether a program runs.
    pub(crate) fn runs(&self) -> bool
        ensures { result ≡ is_some self.now.running }
    {
        self.running.is_some()
    }

    /// Whether a program runs that takes lines.
    pub(crate) fn is_open(&self) -> bool
        ensures { result ≡ is_open self.now.running }
    {
        match self.running {
            Some(running) => !running.is_closed,
            None => false,
        }
    }

    /// Whether a program is to be ended, where no change is left of what it gave.
    pub(crate) fn is_over(&self) -> bool
        ensures { result ≡ is_over self.now.running }
    {
        match self.running {
            Some(running) => running.is_closed || running.is_ended,
            None => false,
        }
    }

    /// Its starts.
    pub(crate) fn starts(&self) -> Starts
        ensures same { result ≡ self.now.starts }
        ensures bound { result.restarts ≤ most_card_restarts }
    {
        self.starts
    }

    /// The hook is off now, or on. A program that runs and takes lines is owed its line. Where there is no room for it the
    /// program took nothing for so long that it is to be ended.
    pub(crate) fn call<P: Program>(&mut self, program: &mut P, off: bool)
        requires fits { Accounts self.old (P.acts program.old) }
        ensures fits { Accounts self.new (P.acts program.new) }
        ensures same { self.new.starts ≡ self.old.starts }
        ensures off { self.new.off ≡ off }
        ensures after { self.new ≡ after_call off self.old }
        ensures acts { Appended (P.acts program.old) (emitted (hook_text off) ∷ []) (P.acts program.new) }
        ensures notes { Notes [] (hook_text off ∷ []) [] (P.acts program.old) (P.acts program.new) }
    {
        let text = hook_text(off);
        program.note_emitted(text);
        self.off = off;
        let Some(running) = self.running else {
            return;
        };
        if running.is_closed {
            return;
        }
        if self.owed.as_slice().len() + text.len() > MOST_BYTES {
            self.running = Some(Running {
                is_closed: true,
                ..running
            });
        } else {
            self.owed.append(text);
        }
    }

    /// Gives the program what it is owed, as far as it takes it.
    pub(crate) fn give_owed<P: Program>(&mut self, program: &mut P)
        requires fits { Accounts self.old (P.acts program.old) }
        ensures fits { Accounts self.new (P.acts program.new) }
        ensures same { (self.new.starts ≡ self.old.starts) × (self.new.off ≡ self.old.off) × (self.new.left ≡ self.old.left) }
        ensures runs { is_some self.new.running ≡ is_some self.old.running }
        ensures began { began_of self.new.running ≡ began_of self.old.running }
        ensures offers { OffersOwed self.old self.new (P.acts program.old) (P.acts program.new) }
        ensures notes { Notes [] [] [] (P.acts program.old) (P.acts program.new) }
    {
        let Some(running) = self.running else {
            return;
        };
        if running.is_closed || self.owed.as_slice().is_empty() {
            return;
        }
        let took = give_from(program, &mut self.owed);
        self.running = Some(running.after_give(took));
    }

    /// Takes what the program gives, as far as there is room.
    pub(crate) fn take<P: Program>(&mut self, program: &mut P)
        requires fits { Accounts self.old (P.acts program.old) }
        ensures fits { Accounts self.new (P.acts program.new) }
        ensures same { (self.new.starts ≡ self.old.starts) × (self.new.off ≡ self.old.off) }
        ensures runs { is_some self.new.running ≡ is_some self.old.running }
        ensures began { began_of self.new.running ≡ began_of self.old.running }
        ensures takes { is_some self.old.running ≡ true →
            TakesMore self.old self.new (P.acts program.old) (P.acts program.new) }
        ensures notes { Notes [] [] [] (P.acts program.old) (P.acts program.new) }
    {
        let Some(running) = self.running else {
            return;
        };
        let gave = take_into(program, self.room.as_mut_slice(), &mut self.input);
        self.running = Some(running.after_take(gave));
    }

    /// Passes over comments. What stands first then.
    pub(crate) fn pass_over(&mut self) -> Front
        ensures fits { (acts : Option (List ToldAct)) → Accounts self.old acts → Accounts self.new acts }
        ensures same { (self.new.starts ≡ self.old.starts) × (self.new.off ≡ self.old.off) }
        ensures runs { self.new.running ≡ self.old.running }
        ensures passed { PassesOver self.old.left self.new.left }
        ensures front { FrontOf result self.new.left }
        ensures none { NoComment result }
    {
        pass_comments(&mut self.input)
    }

    /// Gives the change that stands first, with so many bytes.
    pub(crate) fn give_change<P: Program>(
        &mut self,
        program: &mut P,
        change: LineChange,
        count: usize,
    )
        requires first { FrontOf (Front.Change change count) self.old.left }
        requires runs { is_some self.old.running ≡ true }
        requires fits { Accounts self.old (P.acts program.old) }
        ensures fits { Accounts self.new (P.acts program.new) }
        ensures same { (self.new.starts ≡ self.old.starts) × (self.new.off ≡ self.old.off) }
        ensures runs { self.new.running ≡ self.old.running }
        ensures acts { Appended (P.acts program.old) (captured (text_of change) ∷ []) (P.acts program.new) }
        ensures notes { Notes (text_of change ∷ []) [] [] (P.acts program.old) (P.acts program.new) }
    {
        self.input.drop_front(count);
        note_change(program, change);
    }

    /// Ends the program.
    pub(crate) fn end<P: Program>(&mut self, program: &mut P, at: u64)
        requires can { CanEnd self.old }
        requires fits { Accounts self.old (P.acts program.old) }
        ensures fits { Accounts self.new (P.acts program.new) }
        ensures same { (self.new.starts.restarts ≡ self.old.starts.restarts) × (self.new.starts.tried ≡ self.old.starts.tried)
            × (self.new.off ≡ self.old.off) }
        ensures ended { self.new.running ≡ None }
        ensures starts { self.new.starts ≡ starts_once_over (began_of self.old.running) self.old.starts at }
        ensures acts { is_some self.old.running ≡ true →
            Appended (P.acts program.old) (ended at ∷ []) (P.acts program.new) }
        ensures notes { Notes [] [] [] (P.acts program.old) (P.acts program.new) }
    {
        let Some(running) = self.running else {
            return;
        };
        program.end(at);
        self.starts.end(running.began, at);
        self.running = None;
    }
}

/// Passes over comments. What stands first then.
fn pass_comments(queue: &mut Queue<MOST_BYTES>) -> Front
    ensures passed { PassesOver queue.old queue.new }
    ensures front { FrontOf result queue.new }
    ensures none { NoComment result }
{
    loop {
        match front_of(queue.as_slice()) {
            Front::Comment(count) => queue.drop_front(count),
            front => return front,
        }
    }
}
