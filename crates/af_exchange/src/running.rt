// What is known of a program that runs.
ghost use Rattle.std.specs.Prelude.{◌≡◌};
ghost use Rattle.af_exchange.specs.Dialogue.{running_since, after_take, after_give};

use af_program::{Gave, Took};

/// A program that runs: when it was started, in nanoseconds; whether it takes nothing any more, or took nothing for so long that
/// nothing more is kept for it; and whether it gives nothing any more.
#[derive(Clone, Copy)]
pub(crate) struct Running {
    pub(crate) began: u64,
    pub(crate) is_closed: bool,
    pub(crate) is_ended: bool,
}

impl Running {
    /// A program that is started now.
    pub(crate) fn begun(at: u64) -> Running
        ensures { result ≡ running_since at }
    {
        Running {
            began: at,
            is_closed: false,
            is_ended: false,
        }
    }

    /// After a take.
    pub(crate) fn after_take(self, gave: Gave) -> Running
        ensures state { result ≡ after_take gave self }
        ensures began { result.began ≡ self.began }
    {
        match gave {
            Gave::Bytes(_) | Gave::NotYet => self,
            Gave::Ended => Running {
                is_ended: true,
                ..self
            },
        }
    }

    /// After a give.
    pub(crate) fn after_give(self, took: Took) -> Running
        ensures state { result ≡ after_give took self }
        ensures began { result.began ≡ self.began }
    {
        match took {
            Took::Bytes(_) | Took::NoRoom => self,
            Took::Ended => Running {
                is_closed: true,
                ..self
            },
        }
    }
}
