// The lines that a program writes, and those that it is handed.
ghost use Rattle.std.specs.Prelude.{◌≡◌, ◌≤◌, ◌==◌, [], ◌∷◌, length, IfSome, true};
ghost use Rattle.std.specs.List.{position_or_len};
ghost use Rattle.af_io.specs.Observed.{Appended};
ghost use Rattle.af_phone.specs.Lines.{is_change};
ghost use Rattle.af_program.specs.Acts.{captured};
ghost use Rattle.af_exchange.specs.Lines.{said_of, change_of, digit_in, text_of, hook_text, IsPossible};
ghost use Rattle.af_exchange.specs.Fronts.{FrontOf};

use af_phone::{LineChange, is_digit};
use af_program::Program;
use af_text::is_word;

/// A line has at most so many bytes, without its LF.
const LONGEST_LINE: usize = 64;

/// What a line says: nothing, since it is a comment; a change; or it is at fault.
#[derive(Clone, Copy)]
pub(crate) enum Said {
    Comment,
    Change(LineChange),
    Fault,
}

/// What stands first in the bytes of a program: a comment or a change, with so many bytes; a line that is at fault; or a part of
/// a line.
#[derive(Clone, Copy)]
pub(crate) enum Front {
    Comment(usize),
    Change(LineChange, usize),
    Fault,
    Part,
}

/// The digit that stands alone.
fn digit_in(rest: &[u8]) -> Option<LineChange>
    ensures digit { result ≡ digit_in rest.now }
    ensures possible { IfSome result (λ change. is_change change ≡ true) }
{
    match rest {
        [code] if is_digit(*code) => Some(LineChange::Digit(*code)),
        _ => None,
    }
}

/// The change that a line says.
fn change_in(line: &[u8]) -> Option<LineChange>
    ensures change { result ≡ change_of line.now }
    ensures possible { IfSome result (λ change. is_change change ≡ true) }
{
    if is_word(line, b"ring on") {
        Some(LineChange::Ring(true))
    } else if is_word(line, b"ring off") {
        Some(LineChange::Ring(false))
    } else if is_word(line, b"loop on") {
        Some(LineChange::Current(true))
    } else if is_word(line, b"loop off") {
        Some(LineChange::Current(false))
    } else if line.len() >= 6 && is_word(&line[..6], b"digit ") {
        digit_in(&line[6..])
    } else {
        None
    }
}

/// What a line says.
fn said_in(line: &[u8]) -> Said
    ensures said { result ≡ said_of line.now }
    ensures possible { IsPossible result }
{
    if let [b'#', ..] = line {
        return Said::Comment;
    }
    match change_in(line) {
        Some(change) => Said::Change(change),
        None => Said::Fault,
    }
}

/// How many bytes stand before the first LF, or all where there is none.
fn count_before_end(bytes: &[u8]) -> usize
    ensures count { result ≡ position_or_len (λ b. b == 10) bytes.now }
    ensures bound { result ≤ length bytes.now }
{
    bytes
        .iter()
        .position(|b| *b == b'\n')
        .unwrap_or(bytes.len())
}

/// What stands first in the bytes of a program.
pub(crate) fn front_of(bytes: &[u8]) -> Front
    ensures { FrontOf result bytes.now }
{
    let end = count_before_end(bytes);
    if end > LONGEST_LINE {
        return Front::Fault;
    }
    if end == bytes.len() {
        return Front::Part;
    }
    match said_in(&bytes[..end]) {
        Said::Comment => Front::Comment(end + 1),
        Said::Change(change) => Front::Change(change, end + 1),
        Said::Fault => Front::Fault,
    }
}

/// The line that says how the hook is.
pub(crate) fn hook_text(off: bool) -> &'static [u8]
    ensures { result.now ≡ hook_text off }
{
    if off { b"offhook\n" } else { b"onhook\n" }
}

/// Notes a change that was given, as the line that says it.
pub(crate) fn note_change<P: Program>(program: &mut P, change: LineChange)
    ensures acts { Appended (P.acts program.old) (captured (text_of change) ∷ []) (P.acts program.new) }
{
    match change {
        LineChange::Ring(true) => program.note_captured(b"ring on"),
        LineChange::Ring(false) => program.note_captured(b"ring off"),
        LineChange::Current(true) => program.note_captured(b"loop on"),
        LineChange::Current(false) => program.note_captured(b"loop off"),
        LineChange::Digit(code) => {
            program.note_captured(&[b'd', b'i', b'g', b'i', b't', b' ', code]);
        }
    }
}
