// A source of bytes, and a sink for them.
ghost use Rattle.std.specs.Prelude.{◌≡◌, ◌≤◌, ◌<◌, ℕ, List, length};
ghost use Rattle.std.specs.declared.option.Option.{Option};
ghost use Rattle.af_io.specs.declared.flow.Got.{Got};
ghost use Rattle.af_io.specs.declared.flow.Put.{Put};

/// What a read gave: n bytes, the end, or a fault.
#[derive(Clone, Copy, Debug, PartialEq, Eq)]
pub enum Got {
    Bytes(usize),
    Ended,
    Failed,
}

/// How a write went.
#[derive(Clone, Copy, Debug, PartialEq, Eq)]
pub enum Put {
    Done,
    Failed,
}

/// Bytes come from here, in pieces of any size.
pub trait Source {
    ghost use Rattle.af_io.specs.Observed.{Consumed, FaultCounted};
    ghost use Rattle.af_io.specs.Flow.{given_of, GotFits};

    /// The bytes that are left to give, if they are observed.
    ghost left: { Self → Option (List ℕ) };

    /// How often a read has failed.
    ghost faults: { Self → ℕ };

    /// A read with this answer, which left these bytes in its room, leads from the first source to the second. What that says is
    /// for each source to state. One that stands over another has just the reads of that one.
    ghost reads: { Self → Got → List ℕ → Self → Type 0 };

    /// Reads at least one byte, or answers Ended exactly if none is left.
    fn read(&mut self, into: &mut [u8]) -> Got
        requires { 0 < length into.old }
        ensures consumed { Consumed (left self.old) (given_of result into.new) (left self.new) }
        ensures bound { GotFits result (length into.new) (left self.new) }
        ensures count { faults self.old ≤ faults self.new }
        ensures cause { result ≡ Got.Failed → FaultCounted (faults self.old) (faults self.new) }
        ensures step { reads self.old result into.new self.new };
}

/// Bytes go there.
pub trait Sink {
    ghost use Rattle.af_io.specs.Observed.{FaultCounted};
    ghost use Rattle.af_io.specs.Flow.{Written};

    /// The bytes that it holds, if they are observed.
    ghost held: { Self → Option (List ℕ) };

    /// How often a write has failed.
    ghost faults: { Self → ℕ };

    /// A write of this piece, with this answer, leads from the first sink to the second. What that says is for each sink to
    /// state.
    ghost writes: { Self → List ℕ → Put → Self → Type 0 };

    /// Adds the whole piece where it answers Done, and a prefix of it where it answers Failed.
    fn write(&mut self, piece: &[u8]) -> Put
        requires { 0 < length piece.now }
        ensures written { Written result (held self.old) piece.now (held self.new) }
        ensures count { faults self.old ≤ faults self.new }
        ensures cause { result ≡ Put.Failed → FaultCounted (faults self.old) (faults self.new) }
        ensures step { writes self.old piece.now result self.new };
}
