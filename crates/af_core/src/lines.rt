// Telephone lines: they change, and their hooks are moved to the wanted position.
ghost use Rattle.std.specs.Prelude.{◌≡◌, ◌<◌, [], ◌∷◌, length, option_and_then, option_map, slice_get, IsTrue, IsFalse};
ghost use Rattle.std.specs.declared.option.Option.{Option};
ghost use Rattle.std.specs.declared.option.Option.TheVariants.{Some};
ghost use Rattle.af_world.specs.declared.happening.Happening.TheVariants.{Hooked};
ghost use Rattle.af_world.specs.declared.happening.Wake.TheVariants as wake;
ghost use Rattle.af_io.specs.Observed.{Appended};
ghost use Rattle.af_world.specs.Log.{Log};
ghost use Rattle.af_phone.specs.Lines.{line_after_change, flag_value, hook_due, line_after_hook, is_change};
ghost use Rattle.af_model.specs.Turn.{accept, hook_all, hook_at, wake_phase};
ghost use Rattle.af_state.specs.Kept.{KeptDevice};
ghost use Rattle.af_core.specs.Simulates.{Simulates};
ghost use Rattle.af_core.specs.Stands.{IsBetweenPhases, StandsFor, kept_of};

use crate::events::become_line;
use crate::slot::Slot;
use af_io::Put;
use af_phone::{Line, LineChange};
use af_state::{Device, SharedState};
use af_wire::EventKind;
use af_world::World;

// A line that changes.
fn changed(change: LineChange, line: Option<Line>) -> Option<Line>
    requires { IsTrue (is_change change) }
    ensures { result ≡ option_map (line_after_change change) line }
{
    let mut line = line?;
    line.change(change);
    Some(line)
}

/// The line of device `number` changes, and the links that select it are told.
pub fn change_line(number: u8, change: LineChange, shared: &mut SharedState, slots: &mut [Slot])
    requires there { number < length shared.old.devices }
    requires change { IsTrue (is_change change) }
    requires kept { IsBetweenPhases (kept_of shared.old slots.old) }
    ensures simulates { (t : Option Log) → Simulates t t (StandsFor (kept_of shared.old slots.old))
        (StandsFor (kept_of shared.new slots.new)) (wake_phase (wake.Line number change)) accept }
    ensures kept { IsBetweenPhases (kept_of shared.new slots.new) }
{
    let line = changed(change, shared.devices[number as usize].line());
    become_line(number, line, change.event(), shared, slots);
}

// A line after a try to move its hook to the wanted position.
fn hooked(done: bool, line: Option<Line>) -> Option<Line>
    ensures { result ≡ option_map (line_after_hook done) line }
{
    let mut line = line?;
    line.hooked(done);
    Some(line)
}

// The wanted hook of a device's line, if the actual hook is another and the line is live.
fn hook_wanted(device: &Device) -> Option<bool>
    ensures { result ≡ option_and_then hook_due device.now.line }
{
    device.line()?.needs_hook()
}

// A hook that is off or on, as the value of an event.
fn flag_value(off: bool) -> u32
    ensures { result ≡ flag_value off }
{
    u32::from(off)
}

// One hook call. The answer is whether it was done.
fn hook<W: World>(number: u8, off: bool, world: &mut W) -> bool
    ensures log { Appended (W.log world.old) (Hooked number off result ∷ []) (W.log world.new) }
    ensures leads { W.leads_to world.old world.new }
{
    match world.hook(number, off) {
        Put::Done => true,
        Put::Failed => false,
    }
}

// Moves the hook of a device's line. If the call fails, the line is dead. This is kept out of the code that looks at the hooks,
// since they mostly stay.
#[inline(never)]
fn give_wanted<W: World>(
    number: u8,
    off: bool,
    shared: &mut SharedState,
    slots: &mut [Slot],
    world: &mut W,
)
    requires there { number < length shared.old.devices }
    requires wanted { (d : KeptDevice) → slice_get shared.old.devices number ≡ Some d →
        option_and_then hook_due d.line ≡ Some off }
    requires kept { IsBetweenPhases (kept_of shared.old slots.old) }
    ensures simulates { Simulates (W.log world.old) (W.log world.new) (StandsFor (kept_of shared.old slots.old))
        (StandsFor (kept_of shared.new slots.new)) (λ s log. hook_at number (slice_get s.devices number) s log) accept }
    ensures kept { IsBetweenPhases (kept_of shared.new slots.new) }
    ensures count { length shared.new.devices ≡ length shared.old.devices }
    ensures leads { W.leads_to world.old world.new }
{
    let done = hook(number, off, world);
    let line = hooked(done, shared.devices[number as usize].line());
    if done {
        let change = (EventKind::Hook, flag_value(off));
        become_line(number, line, change, shared, slots);
    } else {
        shared.devices[number as usize].set_line(line);
    }
}

// Moves the hook of a device's line, if the line is live and its actual hook is not the wanted one. The answer is whether it made
// the call.
fn give_hook<W: World>(
    number: u8,
    shared: &mut SharedState,
    slots: &mut [Slot],
    world: &mut W,
) -> bool
    requires there { number < length shared.old.devices }
    requires kept { IsBetweenPhases (kept_of shared.old slots.old) }
    ensures simulates { Simulates (W.log world.old) (W.log world.new) (StandsFor (kept_of shared.old slots.old))
        (StandsFor (kept_of shared.new slots.new)) (λ s log. hook_at number (slice_get s.devices number) s log) accept }
    ensures kept { IsBetweenPhases (kept_of shared.new slots.new) }
    ensures count { length shared.new.devices ≡ length shared.old.devices }
    ensures same { IsFalse result → (shared.new ≡ shared.old) × (slots.new ≡ slots.old) }
    ensures leads { W.leads_to world.old world.new }
{
    let Some(off) = hook_wanted(&shared.devices[number as usize]) else {
        return false;
    };
    give_wanted(number, off, shared, slots, world);
    true
}

/// The hooks of all devices, in the order of their numbers. The answer is whether any call was made, since an event for links may
/// follow.
pub fn give_hooks<W: World>(shared: &mut SharedState, slots: &mut [Slot], world: &mut W) -> bool
    requires kept { IsBetweenPhases (kept_of shared.old slots.old) }
    ensures simulates { Simulates (W.log world.old) (W.log world.new) (StandsFor (kept_of shared.old slots.old))
        (StandsFor (kept_of shared.new slots.new)) hook_all accept }
    ensures kept { IsBetweenPhases (kept_of shared.new slots.new) }
    ensures same { IsFalse result → (shared.new ≡ shared.old) × (slots.new ≡ slots.old) }
    ensures leads { W.leads_to world.old world.new }
{
    let mut any = false;
    for number in 0..shared.devices.len() {
        if give_hook(number as u8, shared, slots, world) {
            any = true;
        }
    }
    any
}
