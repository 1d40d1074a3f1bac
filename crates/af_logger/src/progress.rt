// How far a piece has come: how much of it was recorded, handed to its command, and lost.
ghost use Rattle.std.specs.Prelude.{◌≡◌, ◌≤◌, ◌+◌, ◌^◌, ◌<◌, false};

use af_time::DevTime;

/// How far a piece has come, by its number and the time of its first frame.
#[derive(Clone, Copy)]
pub struct Progress {
    pub number: u64,
    pub at: DevTime,
    /// The frames that were recorded of it.
    pub recorded: u32,
    /// Those that its command was handed, and those of them that had left the server.
    pub handed: u32,
    pub lost: u32,
    /// Its command took no more, so that the rest is dropped.
    pub cut: bool,
}

impl Progress {
    /// One of which nothing was recorded yet.
    pub fn new(number: u64, at: DevTime) -> Progress
        ensures { result ≡ record { number = number; at = at; recorded = 0; handed = 0; lost = 0; cut = false } }
    {
        Progress {
            number,
            at,
            recorded: 0,
            handed: 0,
            lost: 0,
            cut: false,
        }
    }

    /// The frames that its command was not handed.
    pub fn dropped(&self) -> u32
        requires { self.now.handed ≤ self.now.recorded }
        ensures { result + self.now.handed ≡ self.now.recorded }
    {
        self.recorded - self.handed
    }
}
