// What is known of a program that runs.
ghost use Rattle.std.specs.Prelude.{◌≡◌};
ghost use Rattle.af_card.specs.Between.{running_since, after_take, after_give};

use af_program::{Gave, Took};

/// A program that runs: when it was started; when it last gave a whole frame, and when it last took something, its start before
/// that; whether it takes nothing any more; and whether it gives nothing any more, or is to be ended for another reason. Moments
/// are in nanoseconds.
#[derive(Clone, Copy)]
pub(crate) struct Running {
    pub(crate) began: u64,
    pub(crate) gave: u64,
    pub(crate) took: u64,
    pub(crate) is_closed: bool,
    pub(crate) is_over: bool,
}

impl Running {
    /// A program that is started now.
    pub(crate) fn begun(at: u64) -> Running
        ensures { result ≡ running_since at }
    {
        Running {
            began: at,
            gave: at,
            took: at,
            is_closed: false,
            is_over: false,
        }
    }

    /// After a take: it gave, and there is a whole frame to capture or not.
    pub(crate) fn after_take(self, gave: Gave, has_frame: bool, at: u64) -> Running
        ensures after { result ≡ after_take gave has_frame at self }
        ensures began { result.began ≡ self.began }
    {
        match gave {
            Gave::Bytes(_) if has_frame => Running { gave: at, ..self },
            Gave::Bytes(_) | Gave::NotYet => self,
            Gave::Ended => Running {
                is_over: true,
                ..self
            },
        }
    }

    /// After a give.
    pub(crate) fn after_give(self, took: Took, at: u64) -> Running
        ensures after { result ≡ after_give took at self }
        ensures began { result.began ≡ self.began }
    {
        match took {
            Took::Bytes(_) => Running { took: at, ..self },
            Took::NoRoom => self,
            Took::Ended => Running {
                is_closed: true,
                ..self
            },
        }
    }
}
