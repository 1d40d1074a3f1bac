// A link to a server, as a client has it.
ghost use Rattle.std.specs.Prelude.{◌≡◌, ◌≤◌, ◌<◌, ℕ, List, length, IsSome};
ghost use Rattle.std.specs.declared.option.Option.{Option};
ghost use Rattle.af_io.specs.declared.flow.Got.{Got};
ghost use Rattle.af_io.specs.declared.flow.Put.{Put};

use crate::{Got, Put};

/// Bytes come and go both ways. A link tells the bytes that it is left to give for good, or never.
pub trait Link {
    ghost use Rattle.af_io.specs.Observed.{Consumed, FaultCounted};
    ghost use Rattle.af_io.specs.Flow.{given_of, GotFits, Written};

    /// The bytes that are left to give, if they are observed.
    ghost left: { Self → Option (List ℕ) };

    /// The bytes that it was sent, if they are observed.
    ghost sent: { Self → Option (List ℕ) };

    /// How often a read or a write has failed.
    ghost faults: { Self → ℕ };

    /// A read with this answer, which left these bytes in its room, leads from the first link to the second. What that says is
    /// for each link to state. One that stands over another has just the reads and the writes of that one.
    ghost reads: { Self → Got → List ℕ → Self → Type 0 };

    /// A write of this piece, with this answer, leads from the first link to the second.
    ghost writes: { Self → List ℕ → Put → Self → Type 0 };

    /// Reads at least one byte, or answers Ended exactly if none is left.
    fn read(&mut self, into: &mut [u8]) -> Got
        requires { 0 < length into.old }
        ensures consumed { Consumed (left self.old) (given_of result into.new) (left self.new) }
        ensures bound { GotFits result (length into.new) (left self.new) }
        ensures tells { IsSome (left self.old) → IsSome (left self.new) }
        ensures sends { sent self.new ≡ sent self.old }
        ensures count { faults self.old ≤ faults self.new }
        ensures cause { result ≡ Got.Failed → FaultCounted (faults self.old) (faults self.new) }
        ensures step { reads self.old result into.new self.new };

    /// Sends the whole piece where it answers Done, and a prefix of it where it answers Failed.
    fn write(&mut self, piece: &[u8]) -> Put
        requires { 0 < length piece.now }
        ensures written { Written result (sent self.old) piece.now (sent self.new) }
        ensures gives { left self.new ≡ left self.old }
        ensures count { faults self.old ≤ faults self.new }
        ensures cause { result ≡ Put.Failed → FaultCounted (faults self.old) (faults self.new) }
        ensures step { writes self.old piece.now result self.new };
}
