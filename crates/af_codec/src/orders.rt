// How a codec starts its child programs.
ghost use Rattle.std.specs.Prelude.{◌≡◌, ◌≤◌, ◌+◌, []};
ghost use Rattle.arrayvec.specs.ArrayVec.{array_vec_len};
ghost use Rattle.af_process.specs.Acts.{words_of};

use af_process::{Words, copied_words};
use std::marker::Model;

/// How often a child may be started again, and the command line of each start.
#[derive(Drop)]
pub(crate) struct Orders {
    restarts: u32,
    words: Words,
}

impl Model for Orders {
    ghost use Rattle.std.specs.Prelude.{◌≤◌};
    ghost use Rattle.af_process.specs.Acts.{words_of};
    ghost use Rattle.af_codec.specs.Fed.{OrdersState};

    ghost Value = { OrdersState };

    ghost view = { λ a. record { restarts = a.restarts; words = words_of a.words } };

    ghost invariant = { λ a. a.restarts ≤ 100 };
}

impl Orders {
    /// No words so far.
    pub(crate) fn none() -> Orders
        ensures { result ≡ record { restarts = 0; words = [] } }
    {
        Orders {
            restarts: 0,
            words: Words::new(),
        }
    }

    /// These words, and so many restarts.
    pub(crate) fn new(restarts: u32, words: &Words) -> Orders
        requires { restarts ≤ 100 }
        ensures { result ≡ record { restarts = restarts; words = words_of words.now } }
    {
        Orders {
            restarts,
            words: copied_words(words),
        }
    }

    pub(crate) fn words(&self) -> &Words
        ensures words { words_of result.now ≡ self.now.words }
        ensures bound { self.now.restarts ≤ 100 }
    {
        &self.words
    }

    /// One start, and the restarts.
    pub(crate) fn most_starts(&self) -> u32
        ensures most { result ≡ self.now.restarts + 1 }
        ensures bound { result ≤ 101 }
    {
        self.restarts + 1
    }
}
