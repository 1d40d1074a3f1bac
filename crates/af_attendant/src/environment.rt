// The command line of a command, with its environment.
ghost use Rattle.std.specs.Prelude.{◌≡◌, ◌≤◌, ◌+◌, ◌++◌, decimal, length};
ghost use Rattle.arrayvec.specs.ArrayVec.{array_vec_len};
ghost use Rattle.af_process.specs.Acts.{words_of};
ghost use Rattle.af_attendant.specs.Ran.{command_words};

use crate::job::AttendantJob;
use af_process::{Word, Words};
use arrayvec::ArrayString;
use itoa::Buffer;

// A word that is a text.
fn word(text: &str) -> Word
    requires { length text.now ≤ 200 }
    ensures { result.bytes ≡ text.now }
{
    let mut word = Word::new();
    word.push_str(text);
    word
}

// A word that gives a variable a value.
fn setting(name: &str, value: &str) -> Word
    requires { length name.now + length value.now ≤ 200 }
    ensures { result.bytes ≡ name.now ++ value.now }
{
    let mut word = Word::new();
    word.push_str(name);
    word.push_str(value);
    word
}

// A word that gives a variable a number.
fn number_setting(name: &str, number: u32) -> Word
    requires { length name.now ≤ 100 }
    ensures { result.bytes ≡ name.now ++ decimal number }
{
    let mut buffer = Buffer::new();
    setting(name, buffer.format(number))
}

/// The command line of a command in the call with this number: a shell that runs its text, by `env`, which puts the variables
/// into its environment.
pub fn command_words(job: &AttendantJob, call: u32, digits: &str, text: &ArrayString<200>) -> Words
    requires { length digits.now ≤ 64 }
    ensures words { words_of result ≡ command_words job.now call digits.now text.now.bytes }
    ensures some { 1 ≤ array_vec_len result }
{
    let mut words = Words::new();
    words.push(word("env"));
    words.push(setting("AUDIOFILE_SERVER=", job.server.as_str()));
    words.push(number_setting("AUDIOFILE_DEVICE=", u32::from(job.answer.device)));
    words.push(number_setting("AUDIOFILE_CALL=", call));
    words.push(setting("AUDIOFILE_DIGITS=", digits));
    words.push(word("sh"));
    words.push(word("-c"));
    words.push(word(text.as_str()));
    words
}
