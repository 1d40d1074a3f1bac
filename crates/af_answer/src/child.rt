// The children of an answering machine, each a shell that runs one text.
ghost use Rattle.std.specs.Prelude.{◌≡◌, ◌≤◌, length};
ghost use Rattle.arrayvec.specs.ArrayVec.{array_vec_len};
ghost use Rattle.af_process.specs.Acts.{status_of, words_of};
ghost use Rattle.af_answer.specs.AnswerTrace.{runs_child};
ghost use Rattle.af_answer.specs.AnswerParts.{RunsBy};
ghost use Rattle.af_answer.specs.OffHook.{IsOffHook};
ghost use Rattle.af_answer.specs.Children.{end_by_status, is_starved, shell_words};

use crate::commands::Commands;
use af_io::Link;
use af_lib::Conn;
use af_process::{Finished, Started, Word, Words};
use arrayvec::ArrayString;
use std::alloc::Global;

/// How a child ended.
#[derive(Clone, Copy, Debug, PartialEq, Eq)]
pub enum ChildEnd {
    /// With status 0.
    Good,
    /// It did not start, ended with another status, or could not be waited for.
    Bad,
    /// There was no memory to start it.
    NoMemory,
}

impl ChildEnd {
    /// Whether there was no memory to start it.
    pub fn is_starved(self) -> bool
        ensures { result ≡ is_starved self }
    {
        matches!(self, ChildEnd::NoMemory)
    }
}

fn word(text: &str) -> Word
    requires { length text.now ≤ 200 }
    ensures { result.bytes ≡ text.now }
{
    let mut word = Word::new();
    word.push_str(text);
    word
}

// The arguments of a shell that runs a text.
fn shell_words(text: &ArrayString<200>) -> Words
    ensures words { words_of result ≡ shell_words text.now.bytes }
    ensures some { 1 ≤ array_vec_len result }
{
    let mut words = Words::new();
    words.push(word("sh"));
    words.push(word("-c"));
    words.push(word(text.as_str()));
    words
}

fn finished_end(finished: Finished) -> ChildEnd
    ensures { result ≡ end_by_status (status_of finished) }
{
    match finished {
        Finished::Ended(0) => ChildEnd::Good,
        Finished::Ended(_) | Finished::Failed => ChildEnd::Bad,
    }
}

/// Runs a text as a child while the hook is off, and waits for its end.
pub fn run_child<L: Link + Drop, S: Commands<L>>(
    alloc: Global,
    text: &ArrayString<200>,
    conn: &Conn<L>,
    spawner: &mut S,
) -> ChildEnd
    requires { IsOffHook L.sent conn.now }
    ensures ran { RunsBy (S.acts spawner.old) (S.acts spawner.new) (runs_child text.now.bytes) result }
    ensures count { S.faults spawner.old ≤ S.faults spawner.new }
{
    match spawner.start_command(alloc, conn, &shell_words(text)) {
        Started::Child(child) => finished_end(spawner.finish_command(conn, child)),
        Started::Failed => ChildEnd::Bad,
        Started::OutOfMemory => ChildEnd::NoMemory,
    }
}
