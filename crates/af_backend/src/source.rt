// The clock that the time of a device goes by.
ghost use Rattle.std.specs.Prelude.{◌≡◌};
ghost use Rattle.std.specs.declared.option.Option.TheVariants.{Some};
ghost use Rattle.af_backend.specs.Rounds.{goes_by_program};

use af_clock::Pace;

/// By which clock the time of a device goes.
#[derive(Drop)]
pub(crate) enum Source {
    /// That of the system, at a pace.
    Clock(Pace),
    /// That of its program.
    Program,
}

impl Source {
    /// Whether it is that of its program.
    pub fn is_program(&self) -> bool
        ensures { result ≡ goes_by_program (Some self.now) }
    {
        matches!(self, Source::Program)
    }
}
