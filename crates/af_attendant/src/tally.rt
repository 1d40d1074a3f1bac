// The numbers of calls.
ghost use Rattle.std.specs.Prelude.{◌≡◌, ◌<◌, ◌≤◌, ◌+◌, ◌^◌};
ghost use Rattle.af_attendant.specs.Ran.{has_failed, is_bad_end, no_calls, tally_after};

use crate::ran::{CallRuns, RunEnd};

/// How many calls were answered, how many messages were recorded, and in how many calls a command has failed.
#[derive(Clone, Copy, Debug, PartialEq, Eq)]
pub struct Tally {
    pub answered: u32,
    pub recorded: u32,
    pub failed: u32,
}

// Whether a command has failed.
fn is_bad(end: RunEnd) -> bool
    ensures { result ≡ is_bad_end end }
{
    matches!(end, RunEnd::Bad)
}

// Whether a command of a call has failed.
fn has_failed(runs: CallRuns) -> bool
    ensures { result ≡ has_failed runs }
{
    is_bad(runs.greeting.end) || is_bad(runs.message.end)
}

impl Tally {
    /// No call was answered yet.
    pub fn new() -> Tally
        ensures { result ≡ no_calls }
    {
        Tally {
            answered: 0,
            recorded: 0,
            failed: 0,
        }
    }

    /// A call more, which ran so.
    pub fn count(&mut self, runs: CallRuns)
        requires { (self.old.answered + 1 < 2 ^ 32) × (self.old.recorded ≤ self.old.answered)
            × (self.old.failed ≤ self.old.answered) }
        ensures tally { self.new ≡ tally_after runs self.old }
        ensures one { self.new.answered ≡ self.old.answered + 1 }
        ensures within { (self.new.recorded ≤ self.new.answered) × (self.new.failed ≤ self.new.answered) }
    {
        self.answered += 1;
        if runs.message.is_good() {
            self.recorded += 1;
        }
        if has_failed(runs) {
            self.failed += 1;
        }
    }
}
