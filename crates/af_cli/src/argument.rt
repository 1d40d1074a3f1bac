// An argument of a tool: what it is, what its value may be, and what holds without it.
ghost use Rattle.std.specs.Prelude.{◌≡◌, option_map};
ghost use Rattle.af_cli.specs.Arguments.{default_absent, is_needed_absent};

/// What the value of an argument may be.
#[derive(Clone, Copy)]
pub enum Values {
    /// The address of a server. Such an argument is a word of its own, in its place.
    Address,
    /// The number of a device.
    Device,
    /// A number from the first to the second.
    Number(u32, u32),
    /// A number of decibels from -30 to 30.
    Decibels,
    /// The name of a sample type.
    SampleType,
    /// The name of a form of files.
    Form,
    /// The name of an order of bytes.
    Order,
    /// `on` or `off`.
    Switch,
    /// The number of a device, or `all`.
    DeviceChoice,
    /// Names of kinds of events.
    EventKinds,
    /// Digits of telephones.
    Digits,
    /// A text for a shell.
    Command,
    /// There is none: the argument is a flag.
    Flag,
}

/// What holds where an argument is left out.
#[derive(Clone, Copy)]
pub enum Absent<'a> {
    /// It is missing: it has to be there.
    Missing,
    /// It has to be there, unless this flag is.
    Unless(&'a str),
    /// It is one of two, of which exactly one has to be there.
    Either,
    /// This value stands for it.
    Default(&'a str),
    /// What this text tells a person.
    Otherwise(&'a str),
}

/// An argument of a tool: its name, what its value may be, what holds where it is left out, and what it is for.
#[derive(Clone, Copy)]
pub struct Argument<'a> {
    pub name: &'a str,
    pub values: Values,
    pub absent: Absent<'a>,
    pub what: &'a str,
}

impl<'a> Argument<'a> {
    /// Whether it has to be there.
    pub fn is_needed(&self) -> bool
        ensures { result ≡ is_needed_absent self.now.absent }
    {
        matches!(self.absent, Absent::Missing)
    }

    /// The value that stands for it where it is left out.
    pub fn default(&self) -> Option<&'a str>
        ensures { option_map (λ s. s.now) result ≡ default_absent self.now.absent }
    {
        match self.absent {
            Absent::Default(value) => Some(value),
            Absent::Missing | Absent::Unless(_) | Absent::Either | Absent::Otherwise(_) => None,
        }
    }
}
