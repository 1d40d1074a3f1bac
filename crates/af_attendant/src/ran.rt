// How the commands of a call ran.
ghost use Rattle.std.specs.Prelude.{◌≡◌};
ghost use Rattle.af_attendant.specs.Ran.{good_or_bad, is_good, is_starved, not_run, not_started, ran_by, starved, status_number};

/// Why a command was ended: by a digit, or since the current stopped.
#[derive(Clone, Copy, Debug, PartialEq, Eq)]
pub enum EndCause {
    Digit,
    HangUp,
}

/// What a command counts as.
#[derive(Clone, Copy, Debug, PartialEq, Eq)]
pub enum RunEnd {
    /// It did not run.
    NotRun,
    /// It ended with status 0, or was ended by a digit.
    Good,
    /// It did not start, ended with another status, or could not be waited for.
    Bad,
    /// There was no memory to start it.
    Starved,
}

/// How a command ran, with its status if it ran or was to be started.
#[derive(Clone, Copy, Debug, PartialEq, Eq)]
pub struct Ran {
    pub end: RunEnd,
    pub status: Option<u32>,
}

/// How the greeting and the message of a call ran.
#[derive(Clone, Copy, Debug, PartialEq, Eq)]
pub struct CallRuns {
    pub greeting: Ran,
    pub message: Ran,
}

impl Ran {
    /// It did not run.
    pub fn not_run() -> Ran
        ensures { result ≡ not_run }
    {
        Ran {
            end: RunEnd::NotRun,
            status: None,
        }
    }

    /// It could not be started.
    pub fn not_started() -> Ran
        ensures { result ≡ not_started }
    {
        Ran {
            end: RunEnd::Bad,
            status: Some(127),
        }
    }

    /// There was no memory to start it.
    pub fn starved() -> Ran
        ensures { result ≡ starved }
    {
        Ran {
            end: RunEnd::Starved,
            status: Some(127),
        }
    }

    /// It ran, and ended with this status. One that was ended by a digit counts as good.
    pub fn of(asked: Option<EndCause>, status: Option<i32>) -> Ran
        ensures { result ≡ ran_by asked status }
    {
        let end = match asked {
            Some(EndCause::Digit) => RunEnd::Good,
            Some(EndCause::HangUp) | None => good_or_bad(status),
        };
        Ran {
            end,
            status: Some(status_number(status)),
        }
    }

    /// Whether it counts as good.
    pub fn is_good(self) -> bool
        ensures { result ≡ is_good self }
    {
        matches!(self.end, RunEnd::Good)
    }
}

// What a command counts as by its status alone.
fn good_or_bad(status: Option<i32>) -> RunEnd
    ensures { result ≡ good_or_bad status }
{
    match status {
        Some(0) => RunEnd::Good,
        Some(_) | None => RunEnd::Bad,
    }
}

// The number of a status.
fn status_number(status: Option<i32>) -> u32
    ensures { result ≡ status_number status }
{
    match status {
        Some(status) if status >= 0 => status as u32,
        _ => 127,
    }
}

impl CallRuns {
    /// Whether there was no memory to start one.
    pub fn is_starved(self) -> bool
        ensures { result ≡ is_starved self }
    {
        matches!(self.greeting.end, RunEnd::Starved) || matches!(self.message.end, RunEnd::Starved)
    }
}
