// Which ways bytes go between a program and its user.
ghost use Rattle.std.specs.Prelude.{◌≡◌};
ghost use Rattle.af_program.specs.Sockets.{is_given, is_giving};

/// Which ways bytes go.
#[derive(Clone, Copy, Debug, PartialEq, Eq)]
pub enum Ways {
    /// The program is given bytes. What it writes to its standard output goes nowhere.
    Given,
    /// The program gives bytes. Its standard input is at its end.
    Gives,
    Both,
}

impl Ways {
    pub(crate) fn is_given(self) -> bool
        ensures { result ≡ is_given self }
    {
        matches!(self, Ways::Given | Ways::Both)
    }

    pub(crate) fn is_giving(self) -> bool
        ensures { result ≡ is_giving self }
    {
        matches!(self, Ways::Gives | Ways::Both)
    }
}
