// Why requests are refused.
ghost use Rattle.std.specs.Prelude.{◌≡◌};
ghost use Rattle.af_model.specs.Reply.{code_of_cause};

/// The cause of an error message.
#[derive(Clone, Copy, Debug, PartialEq, Eq)]
pub enum RefusalCause {
    BadSetup,
    BadValue,
    BadDevice,
    BadAc,
    BadIdChoice,
    BadMatch,
    TooManyAcs,
    BadLine,
}

impl RefusalCause {
    /// Its code, 1 to 8.
    pub fn code(self) -> u8
        ensures { result ≡ code_of_cause self }
    {
        match self {
            RefusalCause::BadSetup => 1,
            RefusalCause::BadValue => 2,
            RefusalCause::BadDevice => 3,
            RefusalCause::BadAc => 4,
            RefusalCause::BadIdChoice => 5,
            RefusalCause::BadMatch => 6,
            RefusalCause::TooManyAcs => 7,
            RefusalCause::BadLine => 8,
        }
    }
}

/// Why a request is refused, and which of its values is at fault.
#[derive(Clone, Copy, Debug, PartialEq, Eq)]
pub struct Refusal {
    pub cause: RefusalCause,
    pub value: u32,
}
