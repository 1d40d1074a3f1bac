// The arguments of a program, which contracts see as a list of words, each a list of bytes.
ghost use Rattle.std.specs.Prelude.{◌≡◌, ◌++◌, [], ◌∷◌, length, map, option_map, slice_get, string_bytes, OnOk, OnErr};

use af_time::OutOfMemory;
use std::alloc::Global;
use std::env;
use std::env::Env;
use std::io::ErrorKind;
use std::marker::Model;

/// The arguments of a program.
#[derive(Drop)]
pub struct Args {
    words: Vec<String>,
}

impl Model for Args {
    ghost use Rattle.std.specs.Prelude.{List, ℕ, map, string_bytes};

    ghost Value = { List (List ℕ) };

    ghost view = { λ a. map string_bytes a.words.items };
}

impl Args {
    /// No words so far.
    pub fn new(alloc: Global) -> Args
        ensures { result ≡ [] }
    {
        Args {
            words: Vec::new(alloc),
        }
    }

    /// Adds a word at the end. Where memory runs out nothing changes.
    pub fn push(&mut self, word: &str) -> Result<(), OutOfMemory>
        ensures ok { OnOk result (self.new ≡ self.old ++ word.now ∷ []) }
        ensures err { OnErr result (self.new ≡ self.old) }
    {
        let word = String::from_str(*self.words.allocator(), word)?;
        self.words.push(word)?;
        Ok(())
    }

    /// The number of words.
    pub fn len(&self) -> usize
        ensures { result ≡ length self.now }
    {
        self.words.len()
    }

    /// All words.
    pub fn as_slice(&self) -> &[String]
        ensures { map string_bytes result.now ≡ self.now }
    {
        self.words.as_slice()
    }

    /// The word at a place, counted from 0. None exactly if the place is not below the length.
    pub fn word(&self, place: usize) -> Option<&str>
        ensures { option_map (λ word. word.now) result ≡ slice_get self.now place }
    {
        match self.words.get(place) {
            Some(word) => Some(word.as_str()),
            None => None,
        }
    }
}

/// Why the arguments of a program could not be read.
#[derive(Clone, Copy, Debug, PartialEq, Eq)]
pub enum WordsFault {
    /// A word is not UTF-8.
    NotText,
    OutOfMemory,
}

/// The arguments of this program. What the system gives is taken as it is: no clause says more of it.
pub fn program_words(alloc: Global, rt: &(impl Env + Alloc)) -> Result<Args, WordsFault> {
    let words = match env::args(rt) {
        Ok(words) => words,
        Err(e) if e.kind() == ErrorKind::OutOfMemory => return Err(WordsFault::OutOfMemory),
        Err(_) => return Err(WordsFault::NotText),
    };
    let mut args = Args::new(alloc);
    for word in words.skip(1) {
        if args.push(word.as_str()).is_err() {
            return Err(WordsFault::OutOfMemory);
        }
    }
    Ok(args)
}
