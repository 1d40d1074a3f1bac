// The program that is the exchange of a telephone line.
ghost use Rattle.std.specs.Prelude.{◌≡◌, ◌↔◌, ◌≤◌, ◌+◌, ◌-◌, [], ◌∷◌, true, false, is_some, IfOk, IfSome};
ghost use Rattle.std.specs.declared.option.Option.TheVariants.{None, Some};
ghost use Rattle.arrayvec.specs.ArrayVec.{array_vec_len};
ghost use Rattle.af_io.specs.Observed.{Appended};
ghost use Rattle.af_process.specs.Acts.{words_of};
ghost use Rattle.af_phone.specs.Lines.{is_change};
ghost use Rattle.af_program.specs.Acts.{TellsNothing};
ghost use Rattle.af_program.specs.Waits.{next_start};
ghost use Rattle.af_world.specs.Kinds.{most_card_restarts};
ghost use Rattle.af_exchange.specs.Lines.{hook_text};
ghost use Rattle.af_exchange.specs.Ledger.{Notes};
ghost use Rattle.af_exchange.specs.Fronts.{FrontOf, NoComment};
ghost use Rattle.af_exchange.specs.Dialogue.{Accounts, CanBegin, LeavesNone, began_of, new_dialogue, is_over, starts_after};
ghost use Rattle.af_exchange.specs.Exchange.{new_exchange, IsToldWhereTold, IsDrainedWhereTold, SameOrders, lines_of, order_at, tried_after};
ghost use Rattle.af_exchange.specs.Hook.{CallsHook};
ghost use Rattle.af_exchange.specs.Begins.{Begins, BeginsWhereDue};
ghost use Rattle.af_exchange.specs.Asks.{AsksFor, AsksProgram};

use crate::dialogue::Dialogue;
use crate::line::Front;
use af_io::Put;
use af_phone::LineChange;
use af_process::{Words, copied_words};
use af_program::{Launched, Program};
use af_time::OutOfMemory;
use std::alloc::Global;
use std::marker::Model;

/// The program that is the exchange of a telephone line, with all that stands between it and the line. Moments are nanoseconds of
/// a clock, and never go back. No call blocks.
#[derive(Drop)]
pub struct Exchange<P: Program + Drop> {
    alloc: Global,
    program: P,
    words: Words,
    dialogue: Dialogue,
}

impl<P: Program + Drop> Model for Exchange<P> {
    ghost use Rattle.std.specs.Prelude.{◌≤◌};
    ghost use Rattle.arrayvec.specs.ArrayVec.{array_vec_len};
    ghost use Rattle.af_process.specs.Acts.{words_of};
    ghost use Rattle.af_exchange.specs.Dialogue.{Accounts};
    ghost use Rattle.af_exchange.specs.Exchange.{ExchangeState};

    ghost Value = { ExchangeState P };

    ghost view = { λ e. record {
      program = e.program;
      dialogue = e.dialogue;
      words = words_of e.words;
    } };

    ghost invariant = { λ e. (1 ≤ array_vec_len e.words) × Accounts e.dialogue (P.acts e.program) };
}

impl<P: Program + Drop> Exchange<P> {
    /// An exchange over a program with no acts so far, with the phone on its hook. It is started by this command line, and at
    /// most so many times again. All memory is taken here, except what a start takes.
    pub fn new(
        alloc: Global,
        program: P,
        restarts: u32,
        words: &Words,
    ) -> Result<Exchange<P>, OutOfMemory>
        requires none { TellsNothing (P.acts program) }
        requires restarts { restarts ≤ most_card_restarts }
        requires some { 1 ≤ array_vec_len words.now }
        ensures made { IfOk result (λ exchange. exchange ≡ new_exchange program restarts (words_of words.now)) }
    {
        Ok(Exchange {
            alloc,
            program,
            words: copied_words(words),
            dialogue: Dialogue::new(alloc, restarts)?,
        })
    }

    /// Tries the first start. A program that runs then is offered the line of the hook.
    pub fn begin(&mut self, at: u64) -> Launched
        requires new { self.old.dialogue ≡ new_dialogue self.old.dialogue.starts.restarts }
        ensures told { IsToldWhereTold P.acts self.new }
        ensures begins { Begins at self.old.words result self.old.dialogue self.new.dialogue (P.acts self.old.program)
            (P.acts self.new.program) }
        ensures notes { Notes [] [] (record { at = at; words = self.old.words } ∷ []) (P.acts self.old.program)
            (P.acts self.new.program) }
        ensures same { SameOrders self.old self.new }
        ensures runs { (result ≡ Launched.Runs) ↔ (is_some self.new.dialogue.running ≡ true) }
        ensures tried { self.new.dialogue.starts.tried ≡ 1 }
        ensures off { self.new.dialogue.off ≡ self.old.dialogue.off }
    {
        self.dialogue
            .begin(&mut self.program, self.alloc, at, &self.words)
    }

    /// The next change of the line, if the program gave one. Where none runs it is started again, if a start may come at this
    /// moment. A program that is at fault, or gives or takes nothing any more, is ended, once all changes that it gave were
    /// given.
    pub fn next_change(&mut self, at: u64) -> Option<LineChange>
        ensures told { IsToldWhereTold P.acts self.new }
        ensures notes { Notes (lines_of result) [] (order_at self.old.dialogue self.old.words at) (P.acts self.old.program)
            (P.acts self.new.program) }
        ensures possible { IfSome result (λ change. is_change change ≡ true) }
        ensures quiet { is_some self.old.dialogue.running ≡ false → result ≡ None }
        ensures begins { is_some self.old.dialogue.running ≡ false → BeginsWhereDue at self.old.words self.old.dialogue
            self.new.dialogue (P.acts self.old.program) (P.acts self.new.program) }
        ensures drained { result ≡ None → IsDrainedWhereTold P.acts self.new }
        ensures asks { is_some self.old.dialogue.running ≡ true →
            AsksProgram at result self.old.dialogue self.new.dialogue (P.acts self.old.program) (P.acts self.new.program) }
        ensures over { is_some self.old.dialogue.running ≡ true → result ≡ None → is_over self.new.dialogue.running ≡ false }
        ensures starts { is_some self.old.dialogue.running ≡ true →
            self.new.dialogue.starts ≡ starts_after at self.new.dialogue.running self.old.dialogue }
        ensures tried { self.new.dialogue.starts.tried ≡ tried_after self.old.dialogue at }
        ensures same { SameOrders self.old self.new }
        ensures off { self.new.dialogue.off ≡ self.old.dialogue.off }
    {
        self.program.tend(at);
        if self.dialogue.runs() {
            return next_of(&mut self.dialogue, &mut self.program, at);
        }
        if self.dialogue.starts().may_come(at) {
            self.dialogue
                .begin(&mut self.program, self.alloc, at, &self.words);
        }
        None
    }

    /// Takes the hook off, or puts it on. Failed says that no program runs that takes lines, and no start is left.
    pub fn set_hook(&mut self, off: bool, at: u64) -> Put
        ensures calls { CallsHook off result self.old.dialogue self.new.dialogue (P.acts self.old.program)
            (P.acts self.new.program) }
        ensures told { IsToldWhereTold P.acts self.new }
        ensures notes { Notes [] (hook_text off ∷ []) [] (P.acts self.old.program) (P.acts self.new.program) }
        ensures off { self.new.dialogue.off ≡ off }
        ensures tried { self.new.dialogue.starts ≡ self.old.dialogue.starts }
        ensures same { SameOrders self.old self.new }
    {
        self.program.tend(at);
        self.dialogue.call(&mut self.program, off);
        self.dialogue.give_owed(&mut self.program);
        if self.dialogue.is_open() || self.dialogue.starts().is_left() {
            Put::Done
        } else {
            Put::Failed
        }
    }

    /// How many starts of its program were tried.
    pub fn tried(&self) -> u32
        ensures { result ≡ self.now.dialogue.starts.tried }
    {
        self.dialogue.starts().tried
    }

    /// How many starts of its program are left.
    pub fn starts_left(&self) -> u32
        ensures { result ≡ self.now.dialogue.starts.restarts + 1 - self.now.dialogue.starts.tried }
    {
        self.dialogue.starts().left()
    }

    /// Whether its program runs.
    pub fn runs(&self) -> bool
        ensures { result ≡ is_some self.now.dialogue.running }
    {
        self.dialogue.runs()
    }

    /// From which moment on the next start may come, if a program has ended and a start is left.
    pub fn next_start(&self) -> Option<u64>
        ensures { result ≡ next_start self.now.dialogue.starts }
    {
        self.dialogue.starts().next_start()
    }

    /// Its program.
    pub fn program(&self) -> &P
        ensures { result.now ≡ self.now.program }
    {
        &self.program
    }
}

/// The next change of what a program that runs gives. One that is at fault, or gives or takes nothing any more, is ended.
fn next_of<P: Program>(dialogue: &mut Dialogue, program: &mut P, at: u64) -> Option<LineChange>
    requires runs { is_some dialogue.old.running ≡ true }
    requires fits { Accounts dialogue.old (P.acts program.old) }
    ensures fits { Accounts dialogue.new (P.acts program.new) }
    ensures notes { Notes (lines_of result) [] [] (P.acts program.old) (P.acts program.new) }
    ensures asks { AsksProgram at result dialogue.old dialogue.new (P.acts program.old) (P.acts program.new) }
    ensures possible { IfSome result (λ change. is_change change ≡ true) }
    ensures drained { result ≡ None → LeavesNone dialogue.new }
    ensures over { result ≡ None → is_over dialogue.new.running ≡ false }
    ensures starts { dialogue.new.starts ≡ starts_after at dialogue.new.running dialogue.old }
    ensures tried { dialogue.new.starts.tried ≡ dialogue.old.starts.tried }
    ensures same { (dialogue.new.starts.restarts ≡ dialogue.old.starts.restarts) × (dialogue.new.off ≡ dialogue.old.off) }
{
    dialogue.give_owed(program);
    match first_of(dialogue, program) {
        Front::Change(change, count) => {
            dialogue.give_change(program, change, count);
            Some(change)
        }
        Front::Fault => {
            dialogue.end(program, at);
            None
        }
        _ => {
            if dialogue.is_over() {
                dialogue.end(program, at);
            }
            None
        }
    }
}

/// What stands first in what a program gave, once comments are skipped. If that is a part of a line, the program is asked for
/// more.
fn first_of<P: Program>(dialogue: &mut Dialogue, program: &mut P) -> Front
    requires fits { Accounts dialogue.old (P.acts program.old) }
    ensures fits { Accounts dialogue.new (P.acts program.new) }
    ensures front { FrontOf result dialogue.new.left }
    ensures none { NoComment result }
    ensures runs { is_some dialogue.new.running ≡ is_some dialogue.old.running }
    ensures began { began_of dialogue.new.running ≡ began_of dialogue.old.running }
    ensures asks { is_some dialogue.old.running ≡ true →
        AsksFor result dialogue.old dialogue.new (P.acts program.old) (P.acts program.new) }
    ensures notes { Notes [] [] [] (P.acts program.old) (P.acts program.new) }
    ensures same { (dialogue.new.starts ≡ dialogue.old.starts) × (dialogue.new.off ≡ dialogue.old.off) }
{
    let front = dialogue.pass_over();
    if let Front::Part = front {
        dialogue.take(program);
        return dialogue.pass_over();
    }
    front
}
