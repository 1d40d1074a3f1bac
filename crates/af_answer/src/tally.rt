// The numbers of calls.
ghost use Rattle.std.specs.Prelude.{◌≡◌, ◌<◌, ◌≤◌, ◌+◌, ◌^◌};
ghost use Rattle.af_answer.specs.Acts.{no_calls, tally_after};

use crate::child::ChildEnd;

/// How many calls were answered, how many messages were recorded, and in how many calls a child has failed.
#[derive(Clone, Copy, Debug, PartialEq, Eq)]
pub struct Tally {
    pub answered: u32,
    pub recorded: u32,
    pub failed: u32,
}

impl Tally {
    /// No call was answered yet.
    pub fn new() -> Tally
        ensures { result ≡ no_calls }
    {
        Tally {
            answered: 0,
            recorded: 0,
            failed: 0,
        }
    }

    /// A call more, which ended so.
    pub fn count(&mut self, end: ChildEnd)
        requires { (self.old.answered + 1 < 2 ^ 32) × (self.old.recorded + self.old.failed ≤ self.old.answered) }
        ensures tally { self.new ≡ tally_after end self.old }
        ensures one { self.new.answered ≡ self.old.answered + 1 }
        ensures within { self.new.recorded + self.new.failed ≤ self.new.answered }
    {
        self.answered += 1;
        match end {
            ChildEnd::Good => self.recorded += 1,
            ChildEnd::Bad => self.failed += 1,
            ChildEnd::NoMemory => {}
        }
    }
}
