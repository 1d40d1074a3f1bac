// A command line, kept, or as the system takes it.
ghost use Rattle.std.specs.Prelude.{◌≡◌, ◌≤◌, ◌∷◌, IfOk};
ghost use Rattle.std.specs.Process.{command_args, command_program};
ghost use Rattle.arrayvec.specs.ArrayVec.{array_vec_len};
ghost use Rattle.af_process.specs.Acts.{words_of};

use crate::{Words, copied_words};
use std::alloc::{AllocError, Global};
use std::marker::Model;
use std::process::Command;

/// A command line. Contracts see the list of the bytes of its words.
#[derive(Drop)]
pub struct CommandLine {
    words: Words,
}

impl Model for CommandLine {
    ghost use Rattle.std.specs.Prelude.{ℕ, List};
    ghost use Rattle.af_process.specs.Acts.{words_of};

    ghost Value = { List (List ℕ) };

    ghost view = { λ c. words_of c.words };
}

impl CommandLine {
    /// The command line of these words. It takes no memory.
    pub fn of(words: &Words) -> CommandLine
        ensures { result ≡ words_of words.now }
    {
        CommandLine {
            words: copied_words(words),
        }
    }

    /// Its words.
    pub fn words(&self) -> &Words
        ensures { words_of result.now ≡ self.now }
    {
        &self.words
    }
}

/// What the system is to run by these words.
pub fn command_of(alloc: Global, words: &Words) -> Result<Command, AllocError>
    requires { 1 ≤ array_vec_len words.now }
    ensures { IfOk result (λ command. command_program command ∷ command_args command ≡ words_of words.now) }
{
    let mut command = Command::new(alloc, words[0].as_str())?;
    for word in &words[1..] {
        command.arg(word.as_str())?;
    }
    Ok(command)
}
