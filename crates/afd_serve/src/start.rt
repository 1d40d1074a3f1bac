// The start of a server: it reads its configuration, listens, and attaches its devices and the programs of its telephone lines.
ghost use Rattle.std.specs.Prelude.{◌≡◌, ◌≤◌, ◌++◌, length, All, IsTrue, IfOk, IfErr};
ghost use Rattle.std.specs.declared.result.Result.TheVariants.{Err};
ghost use Rattle.af_limits.specs.Limits.{most_devices};
ghost use Rattle.af_sample.specs.Channels.{IsChannelCount};
ghost use Rattle.af_sample.specs.Rates.{IsListedRate};
ghost use Rattle.af_io.specs.Observed.{CountsFault, Appended, Unchanged};
ghost use Rattle.af_model.specs.State.{opening_state};
ghost use Rattle.af_core.specs.Stands.{Stands};
ghost use Rattle.afd_serve.specs.Ends.{CountsFaults, ConfigReadAs};
ghost use Rattle.af_world.specs.Outside.{spec_has_line};
ghost use Rattle.afd_serve.specs.Serving.{all_attached, all_lines, start_entries};
ghost use Rattle.afd_serve.specs.Starting.{AttachedUntil, DevicesUntil, IsReadEnd, IsReadFrom, LinesUntil, StartedUntil};

use crate::LiveEnd;
use af_config::{ConfigFault, Setting, read_config};
use af_core::Core;
use af_io::{Source, TextFault, read_text};
use af_limits::LONGEST_CONFIG;
use af_world::{LineProgram, Live, Ready};
use std::alloc::Global;

/// The configuration that a source gives, or the end that its want makes.
pub(crate) fn read_setting<S: Source>(alloc: Global, source: &mut S) -> Result<Setting, LiveEnd>
    ensures setting { IfOk result (λ s. IsReadFrom (S.left source.old) (S.left source.new) s) }
    ensures devices { IfOk result (λ s. length s.config ≤ most_devices) }
    ensures rates { IfOk result (λ s. All (λ device. IsListedRate device.rate) s.config) }
    ensures channels { IfOk result (λ s. All (λ device. IsChannelCount device.channels) s.config) }
    ensures lines { IfOk result (λ s. All (λ program. IsTrue (spec_has_line s.config program.device)) s.phones) }
    ensures ends { IfErr result (λ end. IsReadEnd end) }
    ensures given { ConfigReadAs (λ end. result ≡ Err end) (S.left source.old) (S.left source.new) }
    ensures source { CountsFault (result ≡ Err LiveEnd.ReadFault) (S.faults source.old) (S.faults source.new) }
{
    let text = match read_text(alloc, source, LONGEST_CONFIG) {
        Ok(text) => text,
        Err(TextFault::ReadFault) => return Err(LiveEnd::ReadFault),
        Err(TextFault::TooLong) => return Err(LiveEnd::TooLong),
        Err(TextFault::OutOfMemory) => return Err(LiveEnd::OutOfMemory),
    };
    match read_config(alloc, &text) {
        Ok(setting) => Ok(setting),
        Err(ConfigFault::Line(line)) => Err(LiveEnd::ConfigFault { line }),
        Err(ConfigFault::OutOfMemory) => Err(LiveEnd::OutOfMemory),
    }
}

// Attaches each device, in the order of their numbers.
fn attach_devices<W: Live>(alloc: Global, setting: &Setting, world: &mut W) -> Result<(), LiveEnd>
    requires { length setting.now.config ≤ most_devices }
    ensures log { Unchanged (W.World.log world.old) (W.World.log world.new) }
    ensures all { IfOk result (λ _. Appended (W.lifecycle world.old) (all_attached setting.now) (W.lifecycle world.new)) }
    ensures some { IfErr result (λ end. DevicesUntil end setting.now (W.lifecycle world.old) (W.lifecycle world.new)) }
    ensures world { CountsFaults W.World.link_faults W.World.device_faults W.listen_faults W.wait_faults
        (λ end. result ≡ Err end) world.old world.new }
{
    let config = setting.config().as_slice();
    for number in 0..config.len() {
        let device = number as u8;
        match world.attach(alloc, device, &config[number], setting.kind(device)) {
            Ready::Done => {}
            Ready::Failed => return Err(LiveEnd::AttachFault { device }),
            Ready::OutOfMemory => return Err(LiveEnd::OutOfMemory),
        }
    }
    Ok(())
}

// Attaches the program of each telephone line, in the order in which they are stated.
fn attach_lines<W: Live>(alloc: Global, setting: &Setting, world: &mut W) -> Result<(), LiveEnd>
    requires { All (λ program. IsTrue (spec_has_line setting.now.config program.device)) setting.now.phones }
    ensures log { Unchanged (W.World.log world.old) (W.World.log world.new) }
    ensures all { IfOk result (λ _. Appended (W.lifecycle world.old) (all_lines setting.now) (W.lifecycle world.new)) }
    ensures some { IfErr result (λ end. LinesUntil end setting.now (W.lifecycle world.old) (W.lifecycle world.new)) }
    ensures world { CountsFaults W.World.link_faults W.World.device_faults W.listen_faults W.wait_faults
        (λ end. result ≡ Err end) world.old world.new }
{
    let programs = setting.line_programs();
    for number in 0..programs.len() {
        let stated = &programs[number];
        let program = LineProgram {
            restarts: stated.restarts,
            words: stated.words.words(),
        };
        match world.attach_line(alloc, stated.device, program) {
            Ready::Done => {}
            Ready::Failed => {
                return Err(LiveEnd::AttachFault {
                    device: stated.device,
                });
            }
            Ready::OutOfMemory => return Err(LiveEnd::OutOfMemory),
        }
    }
    Ok(())
}

// Attaches each device, and then the program of each telephone line.
fn attach_all<W: Live>(alloc: Global, setting: &Setting, world: &mut W) -> Result<(), LiveEnd>
    requires few { length setting.now.config ≤ most_devices }
    requires lines { All (λ program. IsTrue (spec_has_line setting.now.config program.device)) setting.now.phones }
    ensures log { Unchanged (W.World.log world.old) (W.World.log world.new) }
    ensures all { IfOk result
        (λ _. Appended (W.lifecycle world.old) (all_attached setting.now ++ all_lines setting.now) (W.lifecycle world.new)) }
    ensures some { IfErr result (λ end. AttachedUntil end setting.now (W.lifecycle world.old) (W.lifecycle world.new)) }
    ensures world { CountsFaults W.World.link_faults W.World.device_faults W.listen_faults W.wait_faults
        (λ end. result ≡ Err end) world.old world.new }
{
    match attach_devices(alloc, setting, world) {
        Ok(()) => attach_lines(alloc, setting, world),
        Err(end) => Err(end),
    }
}

/// Listens at an address, makes the core of these devices, and attaches each of them by rising number, and the programs of their
/// lines.
pub(crate) fn start<W: Live>(
    alloc: Global,
    address: &str,
    setting: &Setting,
    world: &mut W,
) -> Result<Core, LiveEnd>
    requires few { length setting.now.config ≤ most_devices }
    requires rates { All (λ device. IsListedRate device.rate) setting.now.config }
    requires channels { All (λ device. IsChannelCount device.channels) setting.now.config }
    requires lines { All (λ program. IsTrue (spec_has_line setting.now.config program.device)) setting.now.phones }
    ensures core { IfOk result (λ core. Stands core (opening_state setting.now.config)) }
    ensures log { Unchanged (W.World.log world.old) (W.World.log world.new) }
    ensures whole { IfOk result (λ _. Appended (W.lifecycle world.old) (start_entries address.now setting.now)
        (W.lifecycle world.new)) }
    ensures part { IfErr result (λ end. StartedUntil end address.now setting.now
        (W.lifecycle world.old) (W.lifecycle world.new)) }
    ensures world { CountsFaults W.World.link_faults W.World.device_faults W.listen_faults W.wait_faults
        (λ end. result ≡ Err end) world.old world.new }
{
    match world.listen(alloc, address) {
        Ready::Done => {}
        Ready::Failed => return Err(LiveEnd::ListenFault),
        Ready::OutOfMemory => return Err(LiveEnd::OutOfMemory),
    }
    let Ok(core) = Core::new(alloc, setting.config()) else {
        return Err(LiveEnd::OutOfMemory);
    };
    match attach_all(alloc, setting, world) {
        Ok(()) => Ok(core),
        Err(end) => Err(end),
    }
}
