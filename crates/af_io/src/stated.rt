// Answers that are stated for the calls of something in memory.
ghost use Rattle.std.specs.Prelude.{◌≡◌, slice_get, IfOk};
ghost use Rattle.af_io.specs.Observed.{next_count};

use af_time::OutOfMemory;
use std::alloc::Global;

/// What is stated for each call, and the number of the next one, from 0, which stands still at 2^64 - 1.
#[derive(Drop)]
pub struct Stated<T: Copy> {
    pub answers: Vec<T>,
    pub number: u64,
}

impl<T: Copy> Stated<T> {
    /// These answers, to the calls from the first on.
    pub fn new(alloc: Global, answers: &[T]) -> Result<Stated<T>, OutOfMemory>
        ensures answers { IfOk result (λ stated. stated.answers.items ≡ answers.now) }
        ensures number { IfOk result (λ stated. stated.number ≡ 0) }
    {
        let answers = Vec::from_slice(alloc, answers)?;
        Ok(Stated { answers, number: 0 })
    }

    /// Counts a call, and gives what is stated for it, if anything is.
    pub fn next_answer(&mut self) -> Option<T>
        ensures stated { result ≡ slice_get self.old.answers.items self.old.number }
        ensures number { self.new.number ≡ next_count self.old.number }
        ensures same { self.new.answers ≡ self.old.answers }
    {
        let next = self.answers.get(self.number as usize).copied();
        self.number = self.number.saturating_add(1);
        next
    }
}
