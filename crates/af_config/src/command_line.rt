// The command line of a program, as a line of a configuration states it.
ghost use Rattle.std.specs.Prelude.{◌≡◌, ◌≤◌, length, map};
ghost use Rattle.std.specs.Str.{IsUtf8};
ghost use Rattle.af_process.specs.Acts.{words_of};
ghost use Rattle.af_text.specs.Lines.{words};
ghost use Rattle.af_text.specs.Words.{only_if};
ghost use Rattle.af_config.specs.Stating.{are_short, is_command_line, longest_word};

use af_process::{CommandLine, Word, Words};
use af_text::next_word;
use std::str;

/// How often the program of a codec may be started again.
pub const MOST_RESTARTS: u32 = 100;

/// How many words there may be.
const MOST_WORDS: usize = 8;

/// How many bytes a word of a program may have.
pub const LONGEST_WORD: usize = 255;

/// How many bytes a word of the program of a codec may have.
pub const LONGEST_CODEC_WORD: usize = 64;

/// `WORD ..`, 1 to 8 of them, of at most so many bytes each.
pub(crate) fn command_line_stated(line: &[u8], longest: usize) -> Option<CommandLine>
    requires text { IsUtf8 line.now }
    requires room { longest ≤ longest_word }
    ensures { result ≡ only_if (is_command_line longest) (words line.now) }
{
    let mut command = Words::new();
    let mut rest = line;
    while let Some((word, after)) = next_word(rest) {
        if word.len() > longest || command.len() == MOST_WORDS {
            return None;
        }
        command.push(copied(word));
        rest = after;
    }
    if command.is_empty() {
        return None;
    }
    Some(CommandLine::of(&command))
}

/// Whether these are 1 to 8 words of at most so many bytes.
pub fn is_command_line(words: &Words, longest: usize) -> bool
    ensures { result ≡ is_command_line longest (words_of words.now) }
{
    !words.is_empty() && are_short(words.as_slice(), longest)
}

/// Whether these words have at most so many bytes each.
fn are_short(words: &[Word], longest: usize) -> bool
    ensures { result ≡ are_short longest (map (λ word. word.bytes) words.now) }
{
    for word in words {
        if word.len() > longest {
            return false;
        }
    }
    true
}

/// A copy of a word.
fn copied(word: &[u8]) -> Word
    requires text { IsUtf8 word.now }
    requires short { length word.now ≤ longest_word }
    ensures { result.bytes ≡ word.now }
{
    let mut copy = Word::new();
    let _ = copy.try_push_str(str::from_utf8(word).unwrap());
    copy
}
