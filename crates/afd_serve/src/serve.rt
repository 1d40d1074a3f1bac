// The server between its first wait and its end.
ghost use Rattle.std.specs.Prelude.{◌≡◌, List, IsTrue, IfSome, if◌then◌else◌};
ghost use Rattle.std.specs.declared.option.Option.TheVariants.{None, Some};
ghost use Rattle.af_world.specs.declared.happening.Wake.TheVariants.{Idle};
ghost use Rattle.af_world.specs.declared.script.DeviceSpec.{DeviceSpec};
ghost use Rattle.af_model.specs.State.{opening_state};
ghost use Rattle.af_model.specs.Turn.{fits};
ghost use Rattle.af_core.specs.Stands.{Stands, Turns, outline_of};
ghost use Rattle.af_io.specs.Observed.{Unchanged};
ghost use Rattle.afd_serve.specs.declared.words.Waits.TheVariants.{Forever, Number};
ghost use Rattle.afd_serve.specs.Rounds.{ServedUntil, TookTurn, WaitEnds};
ghost use Rattle.afd_serve.specs.Ends.{CountsFaults};

use crate::words::Waits;
use crate::{Endless, LiveEnd};
use af_core::Core;
use af_world::{Live, Waited, Wake, World};

// The wake that the core gets: one that does not fit becomes Idle.
fn taken(core: &Core, wake: Wake) -> Wake
    ensures value { result ≡ (if fits (outline_of core.now) wake then wake else Idle) }
    ensures fits { IsTrue (fits (outline_of core.now) result) }
{
    if core.fits(&wake) { wake } else { Wake::Idle }
}

// The turn of a wake.
fn take_turn<W: World>(core: &mut Core, wake: Wake, world: &mut W)
    ensures turns { Turns (W.log world.old) (W.log world.new)
        (if fits (outline_of core.old) wake then wake else Idle) core.old core.new }
    ensures leads { W.leads_to world.old world.new }
{
    let wake = taken(core, wake);
    core.turn(wake, world);
}

// Waits once, and takes the turn of the wake: how the server ends, if the wait gave Stop or failed.
fn serve_once<W: Live>(core: &mut Core, world: &mut W) -> Option<LiveEnd>
    ensures turn { result ≡ None → TookTurn core.old core.new (W.World.log world.old) (W.World.log world.new)
        (W.lifecycle world.old) (W.lifecycle world.new) }
    ensures log { IfSome result (λ _. Unchanged (W.World.log world.old) (W.World.log world.new)) }
    ensures end { IfSome result (λ end. WaitEnds end core.old (W.lifecycle world.old) (W.lifecycle world.new)) }
    ensures world { CountsFaults W.World.link_faults W.World.device_faults W.listen_faults W.wait_faults
        (λ end. result ≡ Some end) world.old world.new }
{
    let more = core.more();
    match world.wait(more) {
        Waited::Failed => Some(LiveEnd::WaitFault),
        Waited::Woke(wake) => match wake {
            Wake::Stop => Some(LiveEnd::Done),
            _ => {
                take_turn(core, wake, world);
                None
            }
        },
    }
}

// Waits and takes turns until a wait gives Stop or fails, or n waits had theirs. It is kept out of the code of what is done once,
// so that the loop has all registers.
#[inline(never)]
fn serve_times<W: Live>(core: &mut Core, waits: u64, world: &mut W) -> LiveEnd
    ensures served { (config : List DeviceSpec) → Stands core.old (opening_state config) →
        ServedUntil config result (Number waits) (W.World.log world.old) (W.World.log world.new)
        (W.lifecycle world.old) (W.lifecycle world.new) }
    ensures world { CountsFaults W.World.link_faults W.World.device_faults W.listen_faults W.wait_faults
        (λ end. result ≡ end) world.old world.new }
{
    for _number in 0..waits {
        if let Some(end) = serve_once(core, world) {
            return end;
        }
    }
    LiveEnd::WaitsSpent
}

// The same until a wait gives Stop or fails.
#[inline(never)]
fn serve_on<W: Live>(endless: &dyn Endless, core: &mut Core, world: &mut W) -> LiveEnd
    ensures served { (config : List DeviceSpec) → Stands core.old (opening_state config) →
        ServedUntil config result Forever (W.World.log world.old) (W.World.log world.new)
        (W.lifecycle world.old) (W.lifecycle world.new) }
    ensures world { CountsFaults W.World.link_faults W.World.device_faults W.listen_faults W.wait_faults
        (λ end. result ≡ end) world.old world.new }
{
    for _ in 0..u64::MAX {
        if let Some(end) = serve_once(core, world) {
            return end;
        }
    }
    match endless.stand_still() {}
}

/// Waits and takes turns until a wait gives Stop or fails, or as many as were asked for had theirs.
pub(crate) fn serve<W: Live>(
    endless: &dyn Endless,
    core: &mut Core,
    waits: Waits,
    world: &mut W,
) -> LiveEnd
    ensures served { (config : List DeviceSpec) → Stands core.old (opening_state config) →
        ServedUntil config result waits (W.World.log world.old) (W.World.log world.new)
        (W.lifecycle world.old) (W.lifecycle world.new) }
    ensures world { CountsFaults W.World.link_faults W.World.device_faults W.listen_faults W.wait_faults
        (λ end. result ≡ end) world.old world.new }
{
    match waits {
        Waits::Number(number) => serve_times(core, number, world),
        Waits::Forever => serve_on(endless, core, world),
    }
}
