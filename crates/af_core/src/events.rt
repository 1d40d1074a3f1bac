// Events of telephone lines are queued for the links that select them.
ghost use Rattle.std.specs.Prelude.{◌≡◌, ◌<◌, length, option_map, slice_get};
ghost use Rattle.std.specs.declared.option.Option.TheVariants.{Some};
ghost use Rattle.af_request.specs.declared.reply.Phone.{Phone};
ghost use Rattle.af_model.specs.State.{State};
ghost use Rattle.af_model.specs.Events.{drop_link, line_becomes, tell, tell_link, tell_selected};
ghost use Rattle.af_state.specs.Deferrals.{has_waiting, kept_without};
ghost use Rattle.af_state.specs.SharedState.{StepsLink};
ghost use Rattle.af_core.specs.Stands.{AreOrderly, IsSettled, StepsAll, OfDevice, OnlyDrops, StandsFor, kept_of, writes_left};

use crate::slot::Slot;
use af_phone::Line;
use af_state::{ServedLink, SharedState};
use af_wire::{Event, EventKind};
use af_world::Why;

/// A link is dropped for a cause: it is to be closed, nothing of it is read or sent any more, and it waits no more. This is kept
/// out of the code that serves links, few of which are dropped.
#[inline(never)]
pub fn drop_link(number: u8, cause: Why, shared: &mut SharedState, link: &mut ServedLink)
    ensures step { StepsLink (drop_link number cause) shared.old link.old shared.new link.new }
    ensures settled { IsSettled (has_waiting shared.new.waits number) link.new }
    ensures without { shared.new ≡ record shared.old { waits = kept_without number shared.old.waits } }
    ensures silent { writes_left link.new ≡ 0 }
{
    link.abort(cause);
    shared.waits.drop_link(number);
}

// Queues an event for a link that selects it. A link that would then have too much to be sent is dropped.
fn tell_selected(number: u8, event: Event, shared: &mut SharedState, link: &mut ServedLink)
    requires settled { IsSettled (has_waiting shared.old.waits number) link.old }
    ensures step { StepsLink (tell_selected number event) shared.old link.old shared.new link.new }
    ensures settled { IsSettled (has_waiting shared.new.waits number) link.new }
    ensures only_drops { OnlyDrops number shared.old shared.new }
{
    if link.has_room() {
        link.tell(event);
    } else {
        drop_link(number, Why::Overrun, shared, link);
    }
}

/// A link is told an event, if it selects it.
pub fn tell_link(number: u8, event: Event, shared: &mut SharedState, link: &mut ServedLink)
    requires settled { IsSettled (has_waiting shared.old.waits number) link.old }
    ensures step { StepsLink (tell_link number event) shared.old link.old shared.new link.new }
    ensures settled { IsSettled (has_waiting shared.new.waits number) link.new }
    ensures only_drops { OnlyDrops number shared.old shared.new }
{
    if link.selects(event.device, event.kind) {
        tell_selected(number, event, shared, link);
    }
}

/// An event is told to all links that select it, by rising number.
pub fn tell(event: Event, shared: &mut SharedState, slots: &mut [Slot])
    requires kept { AreOrderly shared.old.waits slots.old }
    ensures step { StepsAll (tell event) (kept_of shared.old slots.old) (kept_of shared.new slots.new) }
    ensures kept { AreOrderly shared.new.waits slots.new }
    ensures devices { shared.new.devices ≡ shared.old.devices }
{
    for number in 0..slots.len() {
        let slot = &mut slots[number];
        slot.tell(number as u8, event, shared);
    }
}

/// The line of device `number` becomes another, and an event of the kind and value of this change tells it.
pub fn become_line(
    number: u8,
    line: Option<Line>,
    change: (EventKind, u32),
    shared: &mut SharedState,
    slots: &mut [Slot],
)
    requires there { number < length shared.old.devices }
    requires kept { AreOrderly shared.old.waits slots.old }
    ensures step { OfDevice number (kept_of shared.old slots.old) (λ d s. (f : Phone → Phone) → line ≡ option_map f d.line →
        StandsFor (kept_of shared.new slots.new) (line_becomes f change.0 change.1 number d s)) }
    ensures kept { AreOrderly shared.new.waits slots.new }
    ensures count { length shared.new.devices ≡ length shared.old.devices }
{
    let (kind, value) = change;
    let device = &mut shared.devices[number as usize];
    device.set_line(line);
    let event = Event {
        kind,
        device: number,
        time: device.time(),
        value,
    };
    tell(event, shared, slots);
}
