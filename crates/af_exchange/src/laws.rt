//! Laws of what a program says, each the contract of a function that does nothing.
ghost use Rattle.std.specs.Prelude.{◌≡◌, ◌≢◌, ◌++◌, ◌∷◌, [], ℕ, List, Bool, true, false, codes, is_some, replicate};
ghost use Rattle.std.specs.List.{fold};
ghost use Rattle.std.specs.declared.option.Option.{Option};
ghost use Rattle.std.specs.declared.option.Option.TheVariants.{None, Some};
ghost use Rattle.af_io.specs.declared.flow.Put.{Put};
ghost use Rattle.af_program.specs.declared.program.Launched.{Launched};
ghost use Rattle.af_program.specs.declared.program.Took.{Took};
ghost use Rattle.af_program.specs.Acts.{ToldAct, launched, gave, took, ended, captured, emitted};
ghost use Rattle.af_exchange.specs.Dialogue.{DialogueState, is_open};
ghost use Rattle.af_exchange.specs.Hook.{CallsHook, takes_call};
ghost use Rattle.af_exchange.specs.Ledger.{ledger_of};
ghost use Rattle.af_phone.specs.declared.line.LineChange.{LineChange};
ghost use Rattle.af_phone.specs.Lines.{is_change};
ghost use Rattle.af_exchange.specs.Lines.{after_byte, at_line, at_fault, changes_of, said_of, text_of, IsFront};
ghost use Rattle.af_exchange.specs.declared.line.Said.{Said};

/// Small runs. A line that came in two pieces says one change, and a comment none. Two lines say two changes. Where a line
/// between two changes is at fault, the first is said alone. A last line without its LF says nothing so far. 64 bytes are a line,
/// and 65 are at fault.
pub fn lines_are_read_as_changes()
    ensures piece { changes_of (codes "digi") ≡ at_line [] (codes "digi") }
    ensures pieces { fold after_byte (changes_of (codes "digi")) (codes "t #\n") ≡ at_line (LineChange.Digit 35 ∷ []) [] }
    ensures comment { changes_of (codes "# ring on\nring off\n") ≡ at_line (LineChange.Ring false ∷ []) [] }
    ensures two { changes_of (codes "ring on\nloop on\n") ≡ at_line (LineChange.Ring true ∷ LineChange.Current true ∷ []) [] }
    ensures fault { changes_of (codes "loop off\nring\nring on\n")
        ≡ at_fault (at_line (LineChange.Current false ∷ []) (codes "ring")) }
    ensures empty { changes_of (codes "\n") ≡ at_fault (at_line [] []) }
    ensures last { changes_of (codes "ring on\nring off") ≡ at_line (LineChange.Ring true ∷ []) (codes "ring off") }
    ensures no_digit { changes_of (codes "digit E\n") ≡ at_fault (at_line [] (codes "digit E")) }
    ensures longest { changes_of (replicate 64 35 ++ codes "\n") ≡ at_line [] [] }
    ensures too_long { changes_of (replicate 65 35 ++ codes "\nring on\n") ≡ at_fault (at_line [] (replicate 64 35)) }
{}

/// In which pieces bytes come makes no difference.
pub fn pieces_make_no_difference()
    ensures { (bytes more : List ℕ) → changes_of (bytes ++ more) ≡ fold after_byte (changes_of bytes) more }
{}

/// What was said stays said: the changes of a front of bytes are a front of their changes.
pub fn what_was_said_stays()
    ensures { (bytes more : List ℕ) → IsFront (changes_of bytes).changes (changes_of (bytes ++ more)).changes }
{}

/// The line of a change says that change.
pub fn a_line_says_its_change()
    ensures { (change : LineChange) → is_change change ≡ true → said_of (text_of change) ≡ Said.Change change }
{}

/// A hook call ends no program. One that takes the call goes on taking lines, unless it answers that it takes none any more.
pub fn a_hook_call_leaves_the_program_running()
    ensures runs { (off : Bool) (result : Put) (before after : DialogueState) (acts acts' : Option (List ToldAct)) →
        CallsHook off result before after acts acts' → is_some after.running ≡ is_some before.running }
    ensures stays_open { (off : Bool) (result : Put) (before after : DialogueState) (acts acts' : Option (List ToldAct)) →
        (call : CallsHook off result before after acts acts') → takes_call off before ≡ true → call.answer ≢ Some Took.Ended →
        is_open after.running ≡ true }
{}

/// A small run of acts, sorted by program: one is told the hook at its start and a call, gives a change in two pieces, takes the
/// second line in part, and ends. The hook is moved once more, and the next start fails.
pub fn acts_are_sorted_by_program()
    ensures { ledger_of
        (launched 0 [] Launched.Runs ∷ took (codes "onhook\n") ∷ gave (codes "ring") ∷ emitted (codes "offhook\n")
        ∷ gave (codes " on\n")
        ∷ captured (codes "ring on") ∷ took (codes "offh") ∷ ended 5 ∷ emitted (codes "onhook\n") ∷ launched 9 [] Launched.Failed
        ∷ [])
        ≡ record {
          running = None;
          past = record {
            given = codes "ring on\n";
            taken = codes "onhook\noffh";
            changes = codes "ring on" ∷ [];
            told = codes "onhook\noffhook\n";
          } ∷ [];
          idle = [];
          latest = codes "onhook\n";
          starts = record { began = 9; ended = Some 9 } ∷ record { began = 0; ended = Some 5 } ∷ [];
        } }
{}
