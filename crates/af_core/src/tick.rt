// Sample periods of a device go by: it captures, hands its sound out, and its time rises.
ghost use Rattle.std.specs.Prelude.{◌≡◌, ◌≤◌, ◌<◌, ◌*◌, [], ◌∷◌, List, length, pos, replicate, if◌then◌else◌, false};
ghost use Rattle.std.specs.declared.option.Option.TheVariants.{None, Some};
ghost use Rattle.af_limits.specs.Limits.{longest_tick, longest_capture};
ghost use Rattle.af_sample.specs.SampleTypes.{frame_bytes, width_of};
ghost use Rattle.af_sample.specs.Samples.{samples as samples_of};
ghost use Rattle.af_world.specs.declared.happening.Happening.TheVariants.{Captured, Emitted};
ghost use Rattle.af_world.specs.declared.happening.Wake.TheVariants.{Ticked};
ghost use Rattle.af_io.specs.Observed.{Appended};
ghost use Rattle.af_model.specs.Turn.{accept, wake_phase};
ghost use Rattle.af_core.specs.Simulates.{Simulates};
ghost use Rattle.af_core.specs.Live.{IsTick, Passes, Ticks, TicksLive};
ghost use Rattle.af_core.specs.Stands.{IsBetweenPhases, StandsFor, WantTheSame, kept_of};

use crate::complete::complete_due;
use crate::slot::Slot;
use af_io::Put;
use af_limits::MOST_TICK_SAMPLES;
use af_sample::{SampleType, convert_in, convert_out};
use af_state::{Device, Scratch, SharedState, Work, silence};
use af_world::World;

/// A tick of a device, by its number: so many sample periods go by.
#[derive(Clone, Copy, Debug)]
pub struct DeviceTick {
    pub device: u8,
    pub frames: u32,
}

// One capture. The answer is whether it was done.
fn capture<W: World>(tick: DeviceTick, bytes: &mut [u8], world: &mut W) -> bool
    requires { 0 < length bytes.old }
    ensures log { Appended (W.log world.old)
        (Captured tick.device tick.frames (if result then Some bytes.new else None) ∷ []) (W.log world.new) }
    ensures leads { W.leads_to world.old world.new }
{
    match world.capture(tick.device, tick.frames, bytes) {
        Put::Done => true,
        Put::Failed => false,
    }
}

// The samples of a capture, or silence if the capture failed.
fn captured(came: bool, ty: SampleType, bytes: &[u8], samples: &mut [i16])
    requires { length bytes.now ≡ length samples.old * width_of ty }
    ensures { samples.new ≡ (if came then samples_of ty bytes.now else replicate (length samples.old) (pos 0)) }
{
    if came {
        convert_in(ty, bytes, samples);
    } else {
        silence(samples);
    }
}

// One emit. The answer is whether it was done.
fn emit<W: World>(number: u8, sound: &[u8], world: &mut W) -> bool
    requires { 0 < length sound.now }
    ensures log { Appended (W.log world.old) (Emitted number sound.now result ∷ []) (W.log world.new) }
    ensures leads { W.leads_to world.old world.new }
{
    match world.emit(number, sound) {
        Put::Done => true,
        Put::Failed => false,
    }
}

// Sample periods of the device go by. It captures what came, and `bytes` receives its sound.
fn pass(came: bool, frames: u32, device: &mut Device, bytes: &mut [u8], work: &mut Work)
    requires bound { frames ≤ longest_tick }
    requires size { length bytes.old ≡ frames * frame_bytes device.old.ty device.old.next.channels }
    ensures passes { Passes device.old device.new frames (if came then Some bytes.old else None) bytes.new }
{
    let ty = device.ty();
    let count = frames as usize * usize::from(device.channels());
    let (before, after) = work.samples.split_at_mut(MOST_TICK_SAMPLES);
    let samples = &mut before[..count];
    let sound = &mut after[..count];
    captured(came, ty, bytes, samples);
    device.pass(samples, sound);
    convert_out(ty, sound, bytes);
}

// A live device makes one capture and, if that was done, one emit of its sound. It is dead after a call that failed.
fn tick_live<W: World>(
    tick: DeviceTick,
    device: &mut Device,
    bytes: &mut [u8],
    work: &mut Work,
    world: &mut W,
)
    requires some { 0 < length bytes.old }
    requires size { length bytes.old ≡ tick.frames * frame_bytes device.old.ty device.old.next.channels }
    requires few { tick.frames ≤ longest_tick }
    requires alive { device.old.is_dead ≡ false }
    ensures ticks { TicksLive tick.device tick.frames device.old device.new (W.log world.old) (W.log world.new) }
    ensures leads { W.leads_to world.old world.new }
{
    let came = capture(tick, bytes, world);
    pass(came, tick.frames, device, bytes, work);
    if !came {
        device.set_dead();
        return;
    }
    if !emit(tick.device, bytes, world) {
        device.set_dead();
    }
}

// Sample periods of a device go by, with room for what it captures.
fn tick_device<W: World>(
    tick: DeviceTick,
    device: &mut Device,
    input: &mut [u8],
    work: &mut Work,
    world: &mut W,
)
    requires tick { IsTick tick }
    requires size { length input.old ≡ longest_capture }
    ensures ticks { Ticks device.old.is_dead tick.device tick.frames device.old device.new (W.log world.old) (W.log world.new) }
    ensures leads { W.leads_to world.old world.new }
{
    let size = tick.frames as usize * device.ty().frame_bytes(device.channels());
    let bytes = &mut input[..size];
    if device.is_dead() {
        pass(false, tick.frames, device, bytes, work);
    } else {
        tick_live(tick, device, bytes, work, world);
    }
}

/// The sample periods of a device go by, and the requests that are due then complete. The answer is whether one did: if not, no
/// link wants anything else than before. It is kept out of the code of a turn, most of which tick no device.
#[inline(never)]
pub fn tick<W: World>(
    tick: DeviceTick,
    shared: &mut SharedState,
    slots: &mut [Slot],
    scratch: &mut Scratch,
    world: &mut W,
) -> bool
    requires there { tick.device < length shared.old.devices }
    requires tick { IsTick tick }
    requires kept { IsBetweenPhases (kept_of shared.old slots.old) }
    ensures simulates { Simulates (W.log world.old) (W.log world.new) (StandsFor (kept_of shared.old slots.old))
        (StandsFor (kept_of shared.new slots.new)) (wake_phase (Ticked tick.device tick.frames)) accept }
    ensures kept { IsBetweenPhases (kept_of shared.new slots.new) }
    ensures same { result ≡ false → WantTheSame shared.old.waits slots.old shared.new.waits slots.new }
    ensures leads { W.leads_to world.old world.new }
{
    let device = &mut shared.devices[tick.device as usize];
    tick_device(tick, device, &mut scratch.input, &mut scratch.work, world);
    shared.waits.pass(tick.device, tick.frames);
    complete_due(tick.device, shared, slots, scratch)
}
