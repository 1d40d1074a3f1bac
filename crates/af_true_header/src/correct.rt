// A sink whose bytes can be corrected.
ghost use Rattle.std.specs.Prelude.{◌≡◌, ℕ, List};
ghost use Rattle.af_io.specs.declared.flow.Put.{Put};

use af_io::{Put, Sink};

/// A sink that can write over what it holds. The first byte that was written to it is at place 0.
pub trait Correct: Sink {
    ghost use Rattle.af_true_header.specs.Corrections.{Overwrote};

    /// A correction at this place, by these bytes and with this answer, leads from the first sink to the second. What that says
    /// is for each sink to state.
    ghost corrects: { Self → ℕ → List ℕ → Put → Self → Type 0 };

    /// Writes bytes over those from a place on. Where it answers Failed, nothing has changed that is observed. It is no fault of
    /// the sink.
    fn correct(&mut self, at: u64, bytes: &[u8]) -> Put
        ensures overwrote { Overwrote result (Self.Sink.held self.old) at bytes.now (Self.Sink.held self.new) }
        ensures faults { Self.Sink.faults self.new ≡ Self.Sink.faults self.old }
        ensures step { corrects self.old at bytes.now result self.new };
}
