// An act: what was done with a command.
ghost use Rattle.std.specs.Prelude.{◌≡◌};
ghost use Rattle.af_process.specs.Acts.{words_of};
ghost use Rattle.af_command.specs.Acts.{told_of, begun};

use af_process::{BeganGot, Words, copied_words};

/// A call of a command, with what it answered.
#[derive(Drop)]
pub enum CommandAct {
    Begun { words: Words, got: BeganGot },
    /// It was asked whether the command still runs.
    Looked { runs: bool },
    /// Its end was asked for.
    Ended,
    /// It ended with this status. None stands for a failed call.
    Finished { status: Option<i32> },
}

// The act of a start.
pub(crate) fn begun(words: &Words, got: BeganGot) -> CommandAct
    ensures { told_of result ≡ begun (words_of words.now) got }
{
    CommandAct::Begun {
        words: copied_words(words),
        got,
    }
}
