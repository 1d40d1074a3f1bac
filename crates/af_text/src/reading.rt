// Reading a text line by line.
ghost use Rattle.std.specs.Prelude.{◌≡◌, ◌≤◌, ◌⊎◌, ℕ, length, false, IfOk, IfErr};
ghost use Rattle.af_limits.specs.Limits.{longest_script};
ghost use Rattle.af_text.specs.Lines.{lines};
ghost use Rattle.af_text.specs.Reading.{MeetsFault, read_on};

use crate::next_line;
use af_time::OutOfMemory;
use std::alloc::Global;

/// Why a text was not read to its end.
#[derive(Clone, Copy, Debug, PartialEq, Eq)]
pub enum LineFault {
    /// The number of the first line that is not allowed where it stands, or of the one after the last where something is
    /// still wanting there. Lines count from 1.
    Line(u32),
    OutOfMemory,
}

/// What is read of a text so far, to which each line adds.
pub trait LineParser {
    ghost use Rattle.std.specs.Prelude.{List, ℕ, Bool};
    ghost use Rattle.std.specs.declared.option.Option.{Option};
    ghost use Rattle.af_text.specs.Words.{then_some};

    /// The same with one line more, if the line is allowed there.
    ghost with_line: { Self → List ℕ → Option Self };

    /// Whether something is still wanting.
    ghost wants: { Self → Bool };

    /// What no line takes away.
    ghost keeps: { Self → Type 0 };

    /// Adds what a line states, and says whether the line was allowed there.
    fn add_line(&mut self, alloc: Global, line: &[u8]) -> Result<bool, OutOfMemory>
        ensures value { IfOk result (λ allowed. with_line self.old line.now ≡ then_some allowed self.new) }
        ensures kept { keeps self.old → IfOk result (λ allowed. keeps self.new) };

    /// Whether something is still wanting.
    fn is_wanting(&self) -> bool
        ensures { result ≡ wants self.now };
}

/// Reads a text, line by line. Where a line is not allowed, the fault has the number of the first such line; OutOfMemory can
/// come in the place of any answer. The text has at most `LONGEST_SCRIPT` bytes.
pub fn read_lines<R: LineParser>(alloc: Global, text: &[u8], read: &mut R) -> Result<(), LineFault>
    requires { length text.now ≤ longest_script }
    ensures whole { IfOk result (λ done. read_on R.with_line R.wants read.old 1 (lines text.now) ≡ Ok read.new) }
    ensures done { IfOk result (λ done. R.wants read.new ≡ false) }
    ensures fault { IfErr result (λ e. MeetsFault (read_on R.with_line R.wants read.old 1 (lines text.now)) e) }
    ensures found { (n : ℕ) → read_on R.with_line R.wants read.old 1 (lines text.now) ≡ Err n →
        (result ≡ Err (LineFault.Line n)) ⊎ (result ≡ Err LineFault.OutOfMemory) }
    ensures kept { R.keeps read.old → IfOk result (λ done. R.keeps read.new) }
{
    let mut number = 1u32;
    let mut rest = text;
    while !rest.is_empty() {
        let (line, after) = next_line(rest);
        match read.add_line(alloc, line) {
            Ok(true) => {}
            Ok(false) => return Err(LineFault::Line(number)),
            Err(OutOfMemory) => return Err(LineFault::OutOfMemory),
        }
        number += 1;
        rest = after;
    }
    if read.is_wanting() {
        return Err(LineFault::Line(number));
    }
    Ok(())
}
