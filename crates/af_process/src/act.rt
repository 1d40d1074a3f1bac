// An act: what was done with child programs.
ghost use Rattle.std.specs.Prelude.{◌≡◌};

use af_io::Bytes;
use arrayvec::{ArrayString, ArrayVec};

/// A word of a child's command line.
pub type Word = ArrayString<255>;

/// The words of a child's command line. Contracts speak of the list of their bytes alone.
pub type Words = ArrayVec<Word, 8>;

/// The same words once more. It takes no memory.
pub fn copied_words(words: &Words) -> Words
    ensures { result.items ≡ words.now.items }
{
    let mut copy = Words::new();
    let _ = copy.try_extend_from_slice(words.as_slice());
    copy
}

/// What a start gave: a child, by its number, or none.
#[derive(Clone, Copy, Debug, PartialEq, Eq)]
pub enum BeganGot {
    Child(u32),
    Failed,
    NoMemory,
}

/// A sound that was noted, or a call of a child program with what it answered.
#[derive(Drop)]
pub enum Act {
    Noted {
        sound: Bytes,
    },
    Began {
        words: Words,
        got: BeganGot,
    },
    /// A child was offered a piece, and took it whole or, where that was not done, a prefix of it.
    Given {
        child: u32,
        offered: Bytes,
        done: bool,
    },
    /// A child ended with this status. None stands for a failed call.
    Finished {
        child: u32,
        status: Option<i32>,
    },
}
