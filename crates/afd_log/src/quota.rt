// How many lines are written in a second.
ghost use Rattle.std.specs.Prelude.{◌≡◌, ◌+◌, ◌<◌, ◌↔◌, IsTrue};
ghost use Rattle.afd_log.specs.Quota.{lines_in};

/// The lines that were written in a second of the clock, of which there are at most so many.
#[derive(Clone, Copy)]
pub(crate) struct Quota {
    most: u32,
    /// The last second in which a line was written, and how many were written in it.
    second: u64,
    lines: u32,
}

impl Quota {
    /// At most so many lines a second. None was written.
    pub fn new(most: u32) -> Quota
        ensures most { result.most ≡ most }
        ensures none { lines_in result 0 ≡ 0 }
    {
        Quota {
            most,
            second: 0,
            lines: 0,
        }
    }

    /// Whether another line may be written in this second.
    pub fn has_room(&self, second: u64) -> bool
        ensures { IsTrue result ↔ (lines_in self.now second < self.now.most) }
    {
        let lines = if self.second == second { self.lines } else { 0 };
        lines < self.most
    }

    /// Counts a line in this second.
    pub fn count(&mut self, second: u64)
        requires { lines_in self.old second < self.old.most }
        ensures line { lines_in self.new second ≡ lines_in self.old second + 1 }
        ensures same { self.new.most ≡ self.old.most }
    {
        if self.second != second {
            self.second = second;
            self.lines = 0;
        }
        self.lines += 1;
    }
}
