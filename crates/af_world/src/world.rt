// The world that the server lives in.
ghost use Rattle.std.specs.Prelude.{◌≡◌, ◌≤◌, ◌<◌, ℕ, Bool, List, [], ◌∷◌, length};
ghost use Rattle.std.specs.declared.option.Option.{Option};
ghost use Rattle.af_limits.specs.Limits.{longest_read, output_room};
ghost use Rattle.af_world.specs.declared.happening.Happening.TheVariants.{Woke, Read, Wrote, Closed, Captured, Emitted, Hooked};
ghost use Rattle.af_io.specs.Observed.{Appended, FaultCounted};
ghost use Rattle.af_io.specs.declared.flow.Put.{Put};
ghost use Rattle.af_world.specs.declared.happening.Wake.{Wake};
ghost use Rattle.af_world.specs.declared.happening.Why.{Why};
ghost use Rattle.af_world.specs.declared.world.LinkGot.{LinkGot};
ghost use Rattle.af_world.specs.declared.world.LinkTook.{LinkTook};
ghost use Rattle.af_world.specs.Log.{Log};
ghost use Rattle.af_world.specs.World.{got_of, took_of, captured_of, is_done, LinkGotFits, TookFits};

use crate::{Put, Wake, Why};

/// What a read of a link gave: n bytes, or none so far, or none ever again.
#[derive(Clone, Copy, Debug, PartialEq, Eq)]
pub enum LinkGot {
    Bytes(usize),
    NotYet,
    Ended,
    Failed,
}

/// What a write to a link did: n bytes were taken, or it failed.
#[derive(Clone, Copy, Debug, PartialEq, Eq)]
pub enum LinkTook {
    Took(usize),
    Failed,
}

/// The outside of the server: its links and its devices. Each call adds exactly its one happening to the log, where the
/// log is told. No call moves a count of faults down.
pub trait World {
    /// The log so far, if it is observed.
    ghost log: { Self → Option Log };

    /// How often a link has failed: a read, or a write.
    ghost link_faults: { Self → ℕ };

    /// How often a device has failed: a capture, an emit, or a hook of its line.
    ghost device_faults: { Self → ℕ };

    /// Calls of this trait alone lead from the first world to the second. What they leave as it is, and how their answers
    /// hang together, is for each world to say.
    ghost leads_to: { Self → Self → Type 0 };

    /// Noting this wake leads from the first world to the second. What that says, of this call and of those below, is for each
    /// world to state. A world that stands over another has just the calls of that one.
    ghost wakes: { Self → Wake → Self → Type 0 };

    /// A read of this link, with this answer, which left these bytes in its room, leads from the first world to the second.
    ghost reads: { Self → ℕ → LinkGot → List ℕ → Self → Type 0 };

    /// A write of this piece to this link, with this answer, leads from the first world to the second.
    ghost writes: { Self → ℕ → List ℕ → LinkTook → Self → Type 0 };

    /// Closing this link for this cause leads from the first world to the second.
    ghost closes: { Self → ℕ → Why → Self → Type 0 };

    /// A capture of so many frames of this device, with this answer, which left this sound in its room, leads from the first
    /// world to the second.
    ghost captures: { Self → ℕ → ℕ → Put → List ℕ → Self → Type 0 };

    /// An emit of this sound by this device, with this answer, leads from the first world to the second.
    ghost emits: { Self → ℕ → List ℕ → Put → Self → Type 0 };

    /// A hook call on this device, off or on, with this answer, leads from the first world to the second.
    ghost hooks: { Self → ℕ → Bool → Put → Self → Type 0 };

    /// Notes the wake that begins a turn.
    fn woke(&mut self, wake: Wake)
        ensures log { Appended (log self.old) (Woke wake ∷ []) (log self.new) }
        ensures step { wakes self.old wake self.new }
        ensures leads { leads_to self.old self.new };

    /// Reads at most 16384 bytes of a link.
    fn read(&mut self, link: u8, into: &mut [u8]) -> LinkGot
        requires { length into.old ≡ longest_read }
        ensures log { Appended (log self.old) (Read link (got_of result into.new) ∷ []) (log self.new) }
        ensures bound { LinkGotFits result (length into.new) }
        ensures step { reads self.old link result into.new self.new }
        ensures cause { result ≡ LinkGot.Failed → FaultCounted (link_faults self.old) (link_faults self.new) }
        ensures leads { leads_to self.old self.new };

    /// Offers a piece to a link, which takes its first bytes, or all of it, or none.
    fn write(&mut self, link: u8, piece: &[u8]) -> LinkTook
        requires some { 0 < length piece.now }
        requires bound { length piece.now ≤ output_room }
        ensures log { Appended (log self.old) (Wrote link (length piece.now) (took_of result piece.now) ∷ []) (log self.new) }
        ensures bound { TookFits result (length piece.now) }
        ensures step { writes self.old link piece.now result self.new }
        ensures cause { result ≡ LinkTook.Failed → FaultCounted (link_faults self.old) (link_faults self.new) }
        ensures leads { leads_to self.old self.new };

    /// Closes a link for a cause.
    fn close(&mut self, link: u8, why: Why)
        ensures log { Appended (log self.old) (Closed link why ∷ []) (log self.new) }
        ensures step { closes self.old link why self.new }
        ensures leads { leads_to self.old self.new };

    /// Takes what a device captured in n frames, as many bytes as there is room for.
    fn capture(&mut self, device: u8, frames: u32, into: &mut [u8]) -> Put
        requires { 0 < length into.old }
        ensures log { Appended (log self.old) (Captured device frames (captured_of result into.new) ∷ []) (log self.new) }
        ensures step { captures self.old device frames result into.new self.new }
        ensures cause { result ≡ Put.Failed → FaultCounted (device_faults self.old) (device_faults self.new) }
        ensures leads { leads_to self.old self.new };

    /// Hands a device's sound out.
    fn emit(&mut self, device: u8, sound: &[u8]) -> Put
        requires { 0 < length sound.now }
        ensures log { Appended (log self.old) (Emitted device sound.now (is_done result) ∷ []) (log self.new) }
        ensures step { emits self.old device sound.now result self.new }
        ensures cause { result ≡ Put.Failed → FaultCounted (device_faults self.old) (device_faults self.new) }
        ensures leads { leads_to self.old self.new };

    /// Gives the hook of a device's line, off or on.
    fn hook(&mut self, device: u8, off: bool) -> Put
        ensures log { Appended (log self.old) (Hooked device off (is_done result) ∷ []) (log self.new) }
        ensures step { hooks self.old device off result self.new }
        ensures cause { result ≡ Put.Failed → FaultCounted (device_faults self.old) (device_faults self.new) }
        ensures leads { leads_to self.old self.new };

    ghost leads_to_itself: { (a : Self) → leads_to a a };

    ghost leads_on: { (a b c : Self) → leads_to a b → leads_to b c → leads_to a c };

    ghost link_faults_stay: { (a b : Self) → leads_to a b → link_faults a ≤ link_faults b };

    ghost device_faults_stay: { (a b : Self) → leads_to a b → device_faults a ≤ device_faults b };
}
