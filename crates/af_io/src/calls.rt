// The calls of something in memory. Those whose numbers are listed fail.
ghost use Rattle.std.specs.Prelude.{◌≡◌, ◌↔◌, ◌⊎◌, Contains, IsTrue};
ghost use Rattle.af_io.specs.Observed.{next_count, faults_after};

use crate::faults::faults_after;

/// The number of the next call, and how many calls have failed. Both stand still at 2^64 - 1.
#[derive(Clone, Copy)]
pub struct Calls {
    pub number: u64,
    pub faults: u64,
}

impl Calls {
    /// No call was made.
    pub fn new() -> Calls
        ensures number { result.number ≡ 0 }
        ensures faults { result.faults ≡ 0 }
    {
        Calls {
            number: 0,
            faults: 0,
        }
    }

    /// Counts a call, and says whether it fails, since its number is listed.
    pub fn next_fails(&mut self, fails: &[u64]) -> bool
        ensures fails { IsTrue result ↔ Contains fails.now self.old.number }
        ensures number { self.new.number ≡ next_count self.old.number }
        ensures faults { self.new.faults ≡ faults_after self.old.faults result }
    {
        let fails = fails.contains(&self.number);
        self.number = self.number.saturating_add(1);
        self.faults = faults_after(self.faults, fails);
        fails
    }

    /// Counts a call, and says whether it fails, since its number is listed or since it is refused.
    pub fn next_fails_or(&mut self, fails: &[u64], is_refused: bool) -> bool
        ensures fails { IsTrue result ↔ (Contains fails.now self.old.number ⊎ IsTrue is_refused) }
        ensures number { self.new.number ≡ next_count self.old.number }
        ensures faults { self.new.faults ≡ faults_after self.old.faults result }
    {
        let fails = fails.contains(&self.number) || is_refused;
        self.number = self.number.saturating_add(1);
        self.faults = faults_after(self.faults, fails);
        fails
    }
}
