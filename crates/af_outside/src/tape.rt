// A world in memory: it plays the steps of a script, answers as the script states, and keeps a log.
ghost use Rattle.std.specs.Prelude.{◌≡◌, ◌≢◌, ◌↔◌, ◌≤◌, ◌<◌, ◌∷◌, [], List, IsTrue, true, false, if◌then◌else◌, length, not, slice_get, is_some, IfOk, IfSome};
ghost use Rattle.std.specs.declared.option.Option.TheVariants.{Some};
ghost use Rattle.af_limits.specs.Limits.{longest_read, output_room};
ghost use Rattle.af_world.specs.declared.happening.Happening.TheVariants.{Read, Wrote, Captured, Emitted, Hooked, Woke, Closed};
ghost use Rattle.af_world.specs.declared.script.Step.{Step};
ghost use Rattle.af_io.specs.Observed.{next_count, faults_after, Appended, FaultCounted, Unchanged};
ghost use Rattle.af_world.specs.World.{got_of, took_of, captured_of, is_done, LinkGotFits, TookFits};
ghost use Rattle.af_process.specs.Acts.{words_of};
ghost use Rattle.af_world.specs.Outside.{outside_after_happening, spec_has_line, outside_after_step, wake_of, ScriptedDevice};
ghost use Rattle.af_world.specs.Kinds.{told_kind};
ghost use Rattle.af_world.specs.Lifecycle.{attached, line_attached, listened, waited};
ghost use Rattle.af_outside.specs.TapeState.{new_tape, ChangedByAttach, ChangedByDevice, ChangedByLink, TakesStep, TapeLeadsTo, left_after, lifecycle_told, NoCountFalls, wait_answer, wait_fails, waited_outside};
ghost use Rattle.af_outside.specs.TapeCalls.{CloseAnswers, DeviceAnswers, LinkAnswers, TapeAttaches, TapeAttachesLine, TapeListens, TapeWaits};
ghost use Rattle.af_outside.specs.Tape.{HasRoomForSteps, outside_of, devices_of, read_failed, write_failed};

use crate::happenings::{capture_of, emit_of, hook_of, read_of, write_of};
use crate::lifecycle_log::{LifecycleLog, attach_of, line_attach_of, listen_of, wait_of};
use crate::scripted_device::{self, DeviceCall, KeptScriptedDevice, new_devices};
use crate::scripted_link::ScriptedLink;
use crate::{
    Bytes, Config, DeviceSpec, Happening, Kind, Lifecycle, LifecycleFaults, LineProgram, LinkGot,
    LinkTook, Live, Put, Ready, Step, Waited, Wake, Why, World, links,
};
use af_io::{Notes, faults_after};
use af_time::OutOfMemory;
use af_world::has_line;
use std::alloc::Global;
use std::marker::Model;

/// A world that plays the steps of a script. Its links give what the script sends on them and end where it says so, and take
/// as many bytes as it states, or all. Its devices capture what the script states, or silence, and their lines take each hook.
/// Links and devices fail where it says so: each is a counted fault, and the counts stand still at 2^64 - 1.
#[derive(Drop)]
pub struct Tape {
    alloc: Global,
    config: Config,
    steps: Vec<Step>,
    taken: usize,
    log: Notes<Happening>,
    links: Vec<ScriptedLink>,
    devices: Vec<KeptScriptedDevice>,
    link_faults: u64,
    device_faults: u64,
    lifecycle: LifecycleLog,
}

impl Model for Tape {
    ghost use Rattle.std.specs.Prelude.{◌≡◌, ◌≤◌, length, drop};
    ghost use Rattle.af_outside.specs.TapeState.{TapeState};
    ghost use Rattle.af_world.specs.Kinds.{told_kind};
    ghost use Rattle.af_io.specs.Observed.{next_count};
    ghost use Rattle.af_world.specs.Lifecycle.{attached, listened, waited};
    ghost use Rattle.af_outside.specs.LifecycleState.{is_stated, was_refused};
    ghost use Rattle.af_outside.specs.Tape.{HasRoomForSteps, outside_of, devices_of};

    ghost Value = { TapeState };

    ghost view = { λ a. record {
      config = a.config.items;
      left = drop a.taken a.steps.items;
      log = a.log;
      outside = outside_of a.links.items (devices_of a.steps.items a.devices.items);
      link_faults = a.link_faults;
      device_faults = a.device_faults;
      lifecycle = a.lifecycle;
    } };

    ghost invariant = { λ a. (a.taken ≤ length a.steps.items) × HasRoomForSteps a.links.items (drop a.taken a.steps.items) };
}

impl Tape {
    /// A tape that plays these steps for these devices, and lets these listens, attaches and waits fail. Its log is empty and
    /// told. All the memory for what its links give is taken here.
    pub fn new(
        alloc: Global,
        config: &Config,
        steps: &[Step],
        faults: LifecycleFaults,
    ) -> Result<Tape, OutOfMemory>
        ensures { IfOk result (λ tape. tape ≡ new_tape config.now.items steps.now faults) }
    {
        let links = links::closed_links(alloc, steps)?;
        let devices = new_devices(alloc, config)?;
        Ok(Tape {
            alloc,
            config: config.clone()?,
            steps: copied_steps(alloc, steps)?,
            taken: 0,
            log: Notes::new(alloc),
            links,
            devices,
            link_faults: 0,
            device_faults: 0,
            lifecycle: LifecycleLog::new(alloc, faults),
        })
    }

    /// Takes the next step and gives its wake, or None after the last step. The log stays as it is.
    pub fn step(&mut self) -> Option<Wake>
        ensures { TakesStep self.old self.old.left result self.new }
    {
        let step = self.steps.get(self.taken)?;
        let wake = take_step(&mut self.links, &mut self.devices, step, self.taken);
        self.taken += 1;
        Some(wake)
    }

    /// All that happened so far, if it is observed.
    pub fn log(&self) -> &[Happening]
        ensures { IfSome self.now.log (λ log. log ≡ result.now) }
    {
        self.log.entries()
    }

    /// All listens, attaches and waits that were done so far, in order, if the log is observed.
    pub fn lifecycle(&self) -> &[Lifecycle]
        ensures { result.now ≡ self.now.lifecycle.entries }
    {
        self.lifecycle.entries()
    }

    /// Whether the log is observed, and the list of listens, attaches and waits with it: always, but after memory ran out for
    /// either.
    pub fn tells(&self) -> bool
        ensures { result ≡ is_some self.now.log }
    {
        self.log.tells()
    }
}

fn copied_step(alloc: Global, step: &Step) -> Result<Step, OutOfMemory>
    ensures { IfOk result (λ copy. copy ≡ step.now) }
{
    let copy = match step {
        Step::Open(link) => Step::Open(*link),
        Step::Send(link, bytes) => Step::Send(*link, Bytes::copied(alloc, bytes.as_slice())?),
        Step::End(link) => Step::End(*link),
        Step::Room(link, room) => Step::Room(*link, *room),
        Step::Tick(device, frames, Some(bytes)) => {
            let captured = Bytes::copied(alloc, bytes.as_slice())?;
            Step::Tick(*device, *frames, Some(captured))
        }
        Step::Tick(device, frames, None) => Step::Tick(*device, *frames, None),
        Step::Line(device, change) => Step::Line(*device, *change),
        Step::FailRead(link) => Step::FailRead(*link),
        Step::FailWrite(link) => Step::FailWrite(*link),
        Step::FailCapture(device) => Step::FailCapture(*device),
        Step::FailEmit(device) => Step::FailEmit(*device),
        Step::FailHook(device) => Step::FailHook(*device),
        Step::Idle => Step::Idle,
    };
    Ok(copy)
}

fn copied_steps(alloc: Global, steps: &[Step]) -> Result<Vec<Step>, OutOfMemory>
    ensures { IfOk result (λ copy. copy.items ≡ steps.now) }
{
    let mut copy = Vec::with_capacity(alloc, steps.len())?;
    for step in steps {
        copy.push(copied_step(alloc, step)?)?;
    }
    Ok(copy)
}

// What a step with a number does to the links and devices, and its wake.
fn take_step(
    links: &mut [ScriptedLink],
    devices: &mut [KeptScriptedDevice],
    step: &Step,
    number: usize,
) -> Wake
    requires { HasRoomForSteps links.old (step.now ∷ []) }
    ensures wake { (devices : List ScriptedDevice) → result ≡ wake_of (outside_of links.old devices) step.now }
    ensures outside { (steps : List Step) → slice_get steps number ≡ Some step.now
        → outside_of links.new (devices_of steps devices.new)
        ≡ outside_after_step (outside_of links.old (devices_of steps devices.old)) step.now }
    ensures room { (steps : List Step) → HasRoomForSteps links.old (step.now ∷ steps) → HasRoomForSteps links.new steps }
{
    match step {
        Step::Open(link) => links::open(links, *link),
        Step::Send(link, _) | Step::End(link) => {
            links::adjust(links, *link, step, Wake::Readable(*link))
        }
        Step::Room(link, _) => links::adjust(links, *link, step, Wake::Writable(*link)),
        Step::Tick(device, frames, _) => {
            scripted_device::tick(devices, *device, number);
            Wake::Ticked(*device, *frames)
        }
        Step::Line(device, change) => Wake::Line(*device, *change),
        Step::FailRead(link) | Step::FailWrite(link) => {
            links::adjust(links, *link, step, Wake::Idle)
        }
        Step::FailCapture(device) => {
            scripted_device::fail(devices, *device, DeviceCall::Capture);
            Wake::Idle
        }
        Step::FailEmit(device) => {
            scripted_device::fail(devices, *device, DeviceCall::Emit);
            Wake::Idle
        }
        Step::FailHook(device) => {
            scripted_device::fail(devices, *device, DeviceCall::Hook);
            Wake::Idle
        }
        Step::Idle => Wake::Idle,
    }
}

impl World for Tape {
    ghost use Rattle.af_outside.specs.TapeLaws.{TapeLeadsTo-refl, TapeLeadsTo-trans};

    ghost log = { λ tape. tape.log };

    ghost link_faults = { λ tape. tape.link_faults };

    ghost device_faults = { λ tape. tape.device_faults };

    ghost leads_to = { TapeLeadsTo };

    ghost wakes = { λ before _ after. after ≡ record before { log = after.log } };

    ghost reads = { λ before link answer into after.
        LinkAnswers (Read link (got_of answer into)) (read_failed answer) before after };

    ghost writes = { λ before link piece answer after.
        LinkAnswers (Wrote link (length piece) (took_of answer piece)) (write_failed answer) before after };

    ghost closes = { λ before link why after. CloseAnswers (Closed link why) before after };

    ghost captures = { λ before device frames answer into after.
        DeviceAnswers (Captured device frames (captured_of answer into)) (not (is_done answer)) before after };

    ghost emits = { λ before device sound answer after.
        DeviceAnswers (Emitted device sound (is_done answer)) (not (is_done answer)) before after };

    ghost hooks = { λ before device off answer after.
        DeviceAnswers (Hooked device off (is_done answer)) (not (is_done answer)) before after };

    ghost leads_to_itself = { TapeLeadsTo-refl };

    ghost leads_on = { TapeLeadsTo-trans };

    ghost link_faults_stay = { λ _ _ leads. leads.link_faults };

    ghost device_faults_stay = { λ _ _ leads. leads.device_faults };

    fn woke(&mut self, wake: Wake)
        ensures log { Appended self.old.log (Woke wake ∷ []) self.new.log }
        ensures leads { TapeLeadsTo self.old self.new }
        ensures rest { self.new ≡ record self.old { log = self.new.log } }
    {
        self.log.add(Ok(Happening::Woke(wake)));
    }

    fn read(&mut self, link: u8, into: &mut [u8]) -> LinkGot
        requires { length into.old ≡ longest_read }
        ensures log { Appended self.old.log (Read link (got_of result into.new) ∷ []) self.new.log }
        ensures bound { LinkGotFits result (length into.new) }
        ensures cause { result ≡ LinkGot.Failed → FaultCounted self.old.link_faults self.new.link_faults }
        ensures leads { TapeLeadsTo self.old self.new }
        ensures answered { outside_after_happening self.old.outside (Read link (got_of result into.new)) ≡ Some self.new.outside }
        ensures rest { ChangedByLink (read_failed result) self.old self.new }
    {
        let got = links::read(&mut self.links, link, into);
        self.link_faults = faults_after(self.link_faults, got == LinkGot::Failed);
        self.log.add(read_of(self.alloc, link, got, into));
        got
    }

    fn write(&mut self, link: u8, piece: &[u8]) -> LinkTook
        requires some { 0 < length piece.now }
        requires bound { length piece.now ≤ output_room }
        ensures log { Appended self.old.log (Wrote link (length piece.now) (took_of result piece.now) ∷ []) self.new.log }
        ensures bound { TookFits result (length piece.now) }
        ensures cause { result ≡ LinkTook.Failed → FaultCounted self.old.link_faults self.new.link_faults }
        ensures leads { TapeLeadsTo self.old self.new }
        ensures answered { outside_after_happening self.old.outside (Wrote link (length piece.now) (took_of result piece.now))
            ≡ Some self.new.outside }
        ensures rest { ChangedByLink (write_failed result) self.old self.new }
    {
        let took = links::write(&mut self.links, link, piece);
        self.link_faults = faults_after(self.link_faults, took == LinkTook::Failed);
        self.log.add(write_of(self.alloc, link, took, piece));
        took
    }

    fn close(&mut self, link: u8, why: Why)
        ensures log { Appended self.old.log (Closed link why ∷ []) self.new.log }
        ensures leads { TapeLeadsTo self.old self.new }
        ensures answered { outside_after_happening self.old.outside (Closed link why) ≡ Some self.new.outside }
        ensures rest { self.new ≡ record self.old {
          log = self.new.log;
          outside = self.new.outside;
        } }
    {
        links::close(&mut self.links, link, why);
        self.log.add(Ok(Happening::Closed { link, why }));
    }

    fn capture(&mut self, device: u8, frames: u32, into: &mut [u8]) -> Put
        requires { 0 < length into.old }
        ensures log { Appended self.old.log (Captured device frames (captured_of result into.new) ∷ []) self.new.log }
        ensures cause { result ≡ Put.Failed → FaultCounted self.old.device_faults self.new.device_faults }
        ensures leads { TapeLeadsTo self.old self.new }
        ensures answered { outside_after_happening self.old.outside (Captured device frames (captured_of result into.new))
            ≡ Some self.new.outside }
        ensures rest { ChangedByDevice (not (is_done result)) self.old self.new }
    {
        let put = scripted_device::capture(&mut self.devices, &self.steps, device, into);
        self.device_faults = faults_after(self.device_faults, put == Put::Failed);
        self.log
            .add(capture_of(self.alloc, device, frames, put, into));
        put
    }

    fn emit(&mut self, device: u8, sound: &[u8]) -> Put
        requires { 0 < length sound.now }
        ensures log { Appended self.old.log (Emitted device sound.now (is_done result) ∷ []) self.new.log }
        ensures cause { result ≡ Put.Failed → FaultCounted self.old.device_faults self.new.device_faults }
        ensures leads { TapeLeadsTo self.old self.new }
        ensures answered { outside_after_happening self.old.outside (Emitted device sound.now (is_done result))
            ≡ Some self.new.outside }
        ensures rest { ChangedByDevice (not (is_done result)) self.old self.new }
    {
        let put = scripted_device::answer(&mut self.devices, device, DeviceCall::Emit);
        self.device_faults = faults_after(self.device_faults, put == Put::Failed);
        self.log.add(emit_of(self.alloc, device, sound, put));
        put
    }

    fn hook(&mut self, device: u8, off: bool) -> Put
        ensures log { Appended self.old.log (Hooked device off (is_done result) ∷ []) self.new.log }
        ensures cause { result ≡ Put.Failed → FaultCounted self.old.device_faults self.new.device_faults }
        ensures leads { TapeLeadsTo self.old self.new }
        ensures answered { outside_after_happening self.old.outside (Hooked device off (is_done result)) ≡ Some self.new.outside }
        ensures rest { ChangedByDevice (not (is_done result)) self.old self.new }
    {
        let put = scripted_device::answer(&mut self.devices, device, DeviceCall::Hook);
        self.device_faults = faults_after(self.device_faults, put == Put::Failed);
        self.log.add(Ok(hook_of(device, off, put)));
        put
    }
}

// Whether a device of a configuration is stated like this.
fn is_device(config: &Config, device: u8, spec: &DeviceSpec) -> bool
    ensures { IsTrue result ↔ (slice_get config.now.items device ≡ Some spec.now) }
{
    match config.get(device as usize) {
        Some(stated) => is_same(stated, spec),
        None => false,
    }
}

// Whether two devices are stated alike.
fn is_same(one: &DeviceSpec, other: &DeviceSpec) -> bool
    ensures { IsTrue result ↔ (one.now ≡ other.now) }
{
    one == other
}

impl Live for Tape {
    ghost use Rattle.af_outside.specs.TapeLaws.{TapeLeadsTo-listen_faults, TapeLeadsTo-wait_faults, TapeLeadsTo-lifecycle, Tape-tells_both};

    ghost listens = { λ before _ answer after. TapeListens before answer after };

    ghost attaches = { λ before device spec _ answer after. TapeAttaches before device spec answer after };

    ghost attaches_line = { λ before device _ answer after. TapeAttachesLine before device answer after };

    ghost waits = { λ before _ answer after. TapeWaits before answer after };

    ghost listen_faults = { λ tape. tape.lifecycle.listen_faults };

    ghost wait_faults = { λ tape. tape.lifecycle.wait_faults };

    ghost lifecycle = { lifecycle_told };

    ghost listen_faults_apart = { TapeLeadsTo-listen_faults };

    ghost wait_faults_apart = { TapeLeadsTo-wait_faults };

    ghost lifecycle_apart = { TapeLeadsTo-lifecycle };

    ghost tells_both = { Tape-tells_both };

    fn listen(&mut self, alloc: Global, address: &str) -> Ready
        ensures log { Unchanged self.old.log self.new.log }
        ensures lifecycle { Appended (lifecycle_told self.old) (listened result address.now) (lifecycle_told self.new) }
        ensures cause { result ≡ Ready.Failed → FaultCounted self.old.lifecycle.listen_faults self.new.lifecycle.listen_faults }
        ensures counts { NoCountFalls self.old self.new }
        ensures step { TapeListens self.old result self.new }
    {
        if self.lifecycle.listen_fails() {
            return Ready::Failed;
        }
        self.lifecycle
            .note(listen_of(alloc, address), &mut self.log);
        Ready::Done
    }

    fn attach(&mut self, alloc: Global, device: u8, spec: &DeviceSpec, kind: Kind<'_>) -> Ready
        ensures log { Unchanged self.old.log self.new.log }
        ensures lifecycle { Appended (lifecycle_told self.old) (attached result device spec.now (told_kind kind.entry))
            (lifecycle_told self.new) }
        ensures cause { result ≡ Ready.Failed → FaultCounted self.old.device_faults self.new.device_faults }
        ensures counts { NoCountFalls self.old self.new }
        ensures step { TapeAttaches self.old device spec.now result self.new }
    {
        if !is_device(&self.config, device, spec) || self.lifecycle.attach_fails(device) {
            self.device_faults = faults_after(self.device_faults, true);
            return Ready::Failed;
        }
        self.lifecycle
            .note(attach_of(alloc, device, spec, kind), &mut self.log);
        Ready::Done
    }

    fn attach_line(&mut self, _alloc: Global, device: u8, program: LineProgram<'_>) -> Ready
        ensures log { Unchanged self.old.log self.new.log }
        ensures lifecycle { Appended (lifecycle_told self.old)
            (line_attached result device program.entry.restarts (words_of program.entry.words.now))
            (lifecycle_told self.new) }
        ensures cause { result ≡ Ready.Failed → FaultCounted self.old.device_faults self.new.device_faults }
        ensures counts { NoCountFalls self.old self.new }
        ensures step { TapeAttachesLine self.old device result self.new }
    {
        if !has_line(self.config.as_slice(), device) {
            self.device_faults = faults_after(self.device_faults, true);
            return Ready::Failed;
        }
        self.lifecycle
            .note(Ok(line_attach_of(device, program)), &mut self.log);
        Ready::Done
    }

    fn wait(&mut self, more: bool) -> Waited
        ensures log { Unchanged self.old.log self.new.log }
        ensures lifecycle { Appended (lifecycle_told self.old) (waited more result) (lifecycle_told self.new) }
        ensures cause { result ≡ Waited.Failed → FaultCounted self.old.lifecycle.wait_faults self.new.lifecycle.wait_faults }
        ensures counts { NoCountFalls self.old self.new }
        ensures step { TapeWaits self.old result self.new }
    {
        if self.lifecycle.wait_fails() {
            return Waited::Failed;
        }
        let wake = match self.step() {
            Some(wake) => wake,
            None => Wake::Stop,
        };
        self.lifecycle.note(Ok(wait_of(more, wake)), &mut self.log);
        Waited::Woke(wake)
    }
}
