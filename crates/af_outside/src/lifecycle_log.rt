// The listens, attaches and waits that were made of a tape, and which of them fail.
ghost use Rattle.std.specs.Prelude.{◌≡◌, ◌≤◌, ◌∷◌, ◌++◌, [], IfOk};
ghost use Rattle.std.specs.declared.option.Option.TheVariants.{None, Some};
ghost use Rattle.af_world.specs.declared.lifecycle.Lifecycle.TheVariants.{Listened, Attached, LineAttached, Waited};
ghost use Rattle.af_process.specs.Acts.{words_of};
ghost use Rattle.af_world.specs.Kinds.{told_kind};
ghost use Rattle.af_io.specs.Observed.{next_count, faults_after};
ghost use Rattle.af_outside.specs.LifecycleState.{EntryNoted, is_stated, lifecycle_start};

use crate::{
    Bytes, DeviceSpec, Happening, Kind, Lifecycle, LifecycleFaults, LineProgram, ToldKind, Wake,
};
use af_io::{Notes, faults_after};
use af_process::CommandLine;
use af_time::OutOfMemory;
use std::alloc::Global;
use std::marker::Model;

/// The calls that were done, and the counts of those that failed, which stand still at 2^64 - 1.
#[derive(Drop)]
pub(crate) struct LifecycleLog {
    faults: LifecycleFaults,
    entries: Vec<Lifecycle>,
    waits: u64,
    listen_faults: u64,
    wait_faults: u64,
}

impl Model for LifecycleLog {
    ghost use Rattle.af_outside.specs.LifecycleState.{LifecycleState};

    ghost Value = { LifecycleState };

    ghost view = { λ a. record {
      faults = a.faults;
      entries = a.entries.items;
      waits = a.waits;
      listen_faults = a.listen_faults;
      wait_faults = a.wait_faults;
    } };
}

impl LifecycleLog {
    /// No call was made.
    pub(crate) fn new(alloc: Global, faults: LifecycleFaults) -> LifecycleLog
        ensures { result ≡ lifecycle_start faults }
    {
        LifecycleLog {
            faults,
            entries: Vec::new(alloc),
            waits: 0,
            listen_faults: 0,
            wait_faults: 0,
        }
    }

    /// All calls that were done.
    pub(crate) fn entries(&self) -> &[Lifecycle]
        ensures { result.now ≡ self.now.entries }
    {
        self.entries.as_slice()
    }

    /// Counts a listen, and says whether it fails.
    pub(crate) fn listen_fails(&mut self) -> bool
        ensures fails { result ≡ self.old.faults.listen }
        ensures rises { self.old.listen_faults ≤ self.new.listen_faults }
        ensures counts { self.new ≡ record self.old { listen_faults = faults_after self.old.listen_faults result } }
    {
        self.listen_faults = faults_after(self.listen_faults, self.faults.listen);
        self.faults.listen
    }

    /// Whether the attaches of a device fail.
    pub(crate) fn attach_fails(&self, device: u8) -> bool
        ensures { result ≡ is_stated self.now.faults.attach device }
    {
        match self.faults.attach {
            Some(stated) => stated == device,
            None => false,
        }
    }

    /// Counts a wait, and says whether it fails.
    pub(crate) fn wait_fails(&mut self) -> bool
        ensures fails { result ≡ is_stated self.old.faults.wait self.old.waits }
        ensures rises { self.old.wait_faults ≤ self.new.wait_faults }
        ensures counts { self.new
            ≡ record self.old { waits = next_count self.old.waits; wait_faults = faults_after self.old.wait_faults result } }
    {
        let fails = match self.faults.wait {
            Some(stated) => u64::from(stated) == self.waits,
            None => false,
        };
        self.waits = faults_after(self.waits, true);
        self.wait_faults = faults_after(self.wait_faults, fails);
        fails
    }

    /// Adds a call that was done, for which memory may have run out; then nothing is observed any longer.
    pub(crate) fn note(&mut self, entry: Result<Lifecycle, OutOfMemory>, log: &mut Notes<Happening>)
        ensures noted { EntryNoted log.old self.old.entries entry log.new self.new.entries }
        ensures rest { self.new ≡ record self.old { entries = self.new.entries } }
    {
        let kept = match entry {
            Ok(entry) => self.entries.push(entry).is_ok(),
            Err(_) => false,
        };
        if !kept {
            log.fall_silent();
        }
    }
}

// The entry of a listen at an address.
pub(crate) fn listen_of(alloc: Global, address: &str) -> Result<Lifecycle, OutOfMemory>
    ensures { IfOk result (λ entry. entry ≡ Listened address.now) }
{
    Ok(Lifecycle::Listened(Bytes::copied(alloc, address.as_bytes())?))
}

// A copy of what a kind names.
fn kept_kind(alloc: Global, kind: Kind<'_>) -> Result<ToldKind, OutOfMemory>
    ensures { IfOk result (λ told. told ≡ told_kind kind.entry) }
{
    let told = match kind {
        Kind::Silent => ToldKind::Silent,
        Kind::Files { input, output } => ToldKind::Files {
            input: Bytes::copied(alloc, input.as_bytes())?,
            output: Bytes::copied(alloc, output.as_bytes())?,
        },
        Kind::Loop => ToldKind::Loop,
        Kind::Codec { restarts, words } => ToldKind::Codec {
            restarts,
            words: CommandLine::of(words),
        },
        Kind::Card {
            card,
            restarts,
            words,
        } => ToldKind::Card {
            card,
            restarts,
            words: CommandLine::of(words),
        },
    };
    Ok(told)
}

// The entry of an attach.
pub(crate) fn attach_of(
    alloc: Global,
    device: u8,
    spec: &DeviceSpec,
    kind: Kind<'_>,
) -> Result<Lifecycle, OutOfMemory>
    ensures { IfOk result (λ entry. entry ≡ Attached device spec.now (told_kind kind.entry)) }
{
    Ok(Lifecycle::Attached {
        device,
        spec: *spec,
        kind: kept_kind(alloc, kind)?,
    })
}

// The entry of the program of a telephone line.
pub(crate) fn line_attach_of(device: u8, program: LineProgram<'_>) -> Lifecycle
    ensures { result ≡ LineAttached device program.entry.restarts (words_of program.entry.words.now) }
{
    Lifecycle::LineAttached {
        device,
        restarts: program.restarts,
        words: CommandLine::of(program.words),
    }
}

// The entry of a wait.
pub(crate) fn wait_of(more: bool, wake: Wake) -> Lifecycle
    ensures { result ≡ Waited more wake }
{
    Lifecycle::Waited { more, wake }
}
