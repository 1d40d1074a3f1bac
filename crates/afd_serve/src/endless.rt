// What a loop needs that is to go on until it is left.
use std::convert::Infallible;
use std::sync::Wait;

/// What can stand still, as each runtime that may wait. A loop counts its rounds. One that is to go on forever stands still once
/// it has had 2^64 - 1 of them, which no run uses up: a million a second take half a million years.
pub trait Endless {
    /// It never returns.
    fn stand_still(&self) -> Infallible;
}

impl<R: Wait> Endless for R {
    fn stand_still(&self) -> Infallible {
        for _ in self.forever() {}
        unreachable!()
    }
}
