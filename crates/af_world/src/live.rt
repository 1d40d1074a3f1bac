// The outside of a server on real time: it accepts connections, opens devices and reports wakes.
ghost use Rattle.std.specs.Prelude.{◌≡◌, ◌≤◌, ℕ, Bool, List, [], IsSome};
ghost use Rattle.std.specs.declared.option.Option.{Option};
ghost use Rattle.af_world.specs.declared.script.DeviceSpec.{DeviceSpec};
ghost use Rattle.af_world.specs.declared.live.Kind.{Kind};
ghost use Rattle.af_world.specs.declared.live.LineProgram.{LineProgram};
ghost use Rattle.af_world.specs.declared.live.Ready.{Ready};
ghost use Rattle.af_world.specs.declared.live.Waited.{Waited};
ghost use Rattle.af_world.specs.declared.lifecycle.Lifecycle.{Lifecycle};
ghost use Rattle.af_io.specs.Observed.{Appended, FaultCounted, Unchanged};
ghost use Rattle.af_world.specs.Kinds.{told_kind};
ghost use Rattle.af_process.specs.Acts.{words_of};
ghost use Rattle.af_world.specs.Lifecycle.{listened, attached, line_attached, waited};

use crate::{CardKind, DeviceSpec, Wake, World};
use af_process::Words;
use std::alloc::Global;

/// What a device captures from and hands its sound out to.
#[derive(Clone, Copy, Debug)]
pub enum Kind<'a> {
    /// It captures silence, and what it hands out is gone.
    Silent,
    /// It captures what the file `input` has, and adds what it hands out to the file `output`.
    Files {
        input: &'a str,
        output: &'a str,
    },
    /// It captures what it handed out a fortieth of a second before.
    Loop,
    /// It captures silence, and gives what it hands out to a child program: one of these words, which is started again so often.
    Codec {
        restarts: u32,
        words: &'a Words,
    },
    /// It has a program, one of these words, which is started again so often. The program gives what it captures, is given what
    /// it hands out, or both. Its time is that of the program, except for an encoder.
    Card {
        card: CardKind,
        restarts: u32,
        words: &'a Words,
    },
}

/// The program that is the exchange of a telephone line: one with this command line, which is started again so often.
#[derive(Clone, Copy, Debug)]
pub struct LineProgram<'a> {
    pub restarts: u32,
    pub words: &'a Words,
}

/// What a listen or an attach did.
#[derive(Clone, Copy, Debug, PartialEq, Eq)]
pub enum Ready {
    Done,
    Failed,
    OutOfMemory,
}

/// What a wait gave.
#[derive(Clone, Copy, Debug, PartialEq, Eq)]
pub enum Waited {
    Woke(Wake),
    Failed,
}

/// A world that gives its own wakes. Each call that is done adds exactly its one entry to the lifecycle log, if that is
/// observable, and adds nothing to the log. No call moves a count of faults down.
pub trait Live: World {
    /// How often a listen has failed.
    ghost listen_faults: { Self → ℕ };

    /// How often a wait has failed.
    ghost wait_faults: { Self → ℕ };

    /// The listens, attaches and waits that were done so far, in order, if they are observable.
    ghost lifecycle: { Self → Option (List Lifecycle) };

    /// A listen at this address, with this answer, leads from the first world to the second. What that says, of this call and of
    /// those below, is for each world to state. A world that stands over another has just the calls of that one.
    ghost listens: { Self → List ℕ → Ready → Self → Type 0 };

    /// Attaching this device, so stated, with this answer, leads from the first world to the second.
    ghost attaches: { Self → ℕ → DeviceSpec → Kind → Ready → Self → Type 0 };

    /// Attaching this program to the line of a device, with this answer, leads from the first world to the second.
    ghost attaches_line: { Self → ℕ → LineProgram → Ready → Self → Type 0 };

    /// A wait, asked with whether there is more to do, with this answer, leads from the first world to the second.
    ghost waits: { Self → Bool → Waited → Self → Type 0 };

    /// Begins to take links at an address.
    fn listen(&mut self, alloc: Global, address: &str) -> Ready
        ensures log { Unchanged (Self.World.log self.old) (Self.World.log self.new) }
        ensures lifecycle { Appended (lifecycle self.old) (listened result address.now) (lifecycle self.new) }
        ensures step { listens self.old address.now result self.new }
        ensures cause { result ≡ Ready.Failed → FaultCounted (listen_faults self.old) (listen_faults self.new) }
        ensures link_count { Self.World.link_faults self.old ≤ Self.World.link_faults self.new }
        ensures device_count { Self.World.device_faults self.old ≤ Self.World.device_faults self.new }
        ensures listen_count { listen_faults self.old ≤ listen_faults self.new }
        ensures wait_count { wait_faults self.old ≤ wait_faults self.new };

    /// Attaches a device, with its backend.
    fn attach(&mut self, alloc: Global, device: u8, spec: &DeviceSpec, kind: Kind<'_>) -> Ready
        ensures log { Unchanged (Self.World.log self.old) (Self.World.log self.new) }
        ensures lifecycle { Appended (lifecycle self.old) (attached result device spec.now (told_kind kind.entry))
            (lifecycle self.new) }
        ensures step { attaches self.old device spec.now kind.entry result self.new }
        ensures cause { result ≡ Ready.Failed →
            FaultCounted (Self.World.device_faults self.old) (Self.World.device_faults self.new) }
        ensures link_count { Self.World.link_faults self.old ≤ Self.World.link_faults self.new }
        ensures device_count { Self.World.device_faults self.old ≤ Self.World.device_faults self.new }
        ensures listen_count { listen_faults self.old ≤ listen_faults self.new }
        ensures wait_count { wait_faults self.old ≤ wait_faults self.new };

    /// Attaches the program that is the exchange of a device's telephone line.
    fn attach_line(&mut self, alloc: Global, device: u8, program: LineProgram<'_>) -> Ready
        ensures log { Unchanged (Self.World.log self.old) (Self.World.log self.new) }
        ensures lifecycle { Appended (lifecycle self.old)
            (line_attached result device program.entry.restarts (words_of program.entry.words.now))
            (lifecycle self.new) }
        ensures step { attaches_line self.old device program.entry result self.new }
        ensures cause { result ≡ Ready.Failed →
            FaultCounted (Self.World.device_faults self.old) (Self.World.device_faults self.new) }
        ensures link_count { Self.World.link_faults self.old ≤ Self.World.link_faults self.new }
        ensures device_count { Self.World.device_faults self.old ≤ Self.World.device_faults self.new }
        ensures listen_count { listen_faults self.old ≤ listen_faults self.new }
        ensures wait_count { wait_faults self.old ≤ wait_faults self.new };

    /// Waits until something happens. The caller says whether there is more to do, so that a world which has no wake to give
    /// does not hold it up. A wake is to be taken as what may be, and not as what is: it should open a link that is not
    /// open, name one that is, or name an attached device, but no clause says so, and who takes it tests it.
    fn wait(&mut self, more: bool) -> Waited
        ensures log { Unchanged (Self.World.log self.old) (Self.World.log self.new) }
        ensures lifecycle { Appended (lifecycle self.old) (waited more result) (lifecycle self.new) }
        ensures step { waits self.old more result self.new }
        ensures cause { result ≡ Waited.Failed → FaultCounted (wait_faults self.old) (wait_faults self.new) }
        ensures link_count { Self.World.link_faults self.old ≤ Self.World.link_faults self.new }
        ensures device_count { Self.World.device_faults self.old ≤ Self.World.device_faults self.new }
        ensures listen_count { listen_faults self.old ≤ listen_faults self.new }
        ensures wait_count { wait_faults self.old ≤ wait_faults self.new };

    /// The calls of the trait below leave these alone.
    ghost listen_faults_apart: { (a b : Self) → Self.World.leads_to a b → listen_faults b ≡ listen_faults a };

    ghost wait_faults_apart: { (a b : Self) → Self.World.leads_to a b → wait_faults b ≡ wait_faults a };

    ghost lifecycle_apart: { (a b : Self) → Self.World.leads_to a b → Unchanged (lifecycle a) (lifecycle b) };

    /// Who tells the log tells the lifecycle log too.
    ghost tells_both: { (a : Self) → IsSome (Self.World.log a) → IsSome (lifecycle a) };
}
