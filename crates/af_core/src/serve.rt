// A link is served: a read, writes, and a close.
ghost use Rattle.std.specs.Prelude.{◌≡◌, ◌<◌, ◌≤◌, IsTrue, if◌then◌else◌, length, [], ◌∷◌};
ghost use Rattle.std.specs.declared.option.Option.TheVariants.{None, Some};
ghost use Rattle.af_limits.specs.Limits.{output_room, longest_capture, longest_read};
ghost use Rattle.af_io.specs.Observed.{Appended};
ghost use Rattle.af_world.specs.World.{got_of, took_of, LinkGotFits, TookFits};
ghost use Rattle.af_world.specs.declared.happening.Happening.TheVariants.{Read, Wrote};
ghost use Rattle.af_model.specs.Turn.{accept, wants_write, read_phase, write_phase, close_phase, serve_link};
ghost use Rattle.af_state.specs.SharedState.{StandsForLink, KeptSharedState};
ghost use Rattle.af_core.specs.Simulates.{Simulates};
ghost use Rattle.af_core.specs.Stands.{StandsForSlot, IsInTurn, LinkServed, writes_left};

use crate::advance::{advance, receive};
use crate::events::drop_link;
use af_limits::LONGEST_READ;
use af_state::{Scratch, ServedLink, SharedState};
use af_world::{LinkGot, LinkTook, Why, World};

// One read, into the first bytes of the room for input.
fn read_input<W: World>(number: u8, input: &mut [u8], world: &mut W) -> LinkGot
    requires size { length input.old ≡ longest_capture }
    ensures log { Appended (W.log world.old) (Read number (got_of result input.new) ∷ []) (W.log world.new) }
    ensures bound { LinkGotFits result longest_read }
    ensures leads { W.leads_to world.old world.new }
{
    let (room, _) = input.split_at_mut(LONGEST_READ);
    world.read(number, room)
}

// One read, if the link is to be read.
fn read_link<W: World>(
    number: u8,
    shared: &mut SharedState,
    link: &mut ServedLink,
    scratch: &mut Scratch,
    world: &mut W,
)
    requires link { IsInTurn number shared.old.waits link.old }
    ensures simulates { Simulates (W.log world.old) (W.log world.new) (StandsForLink shared.old link.old)
        (StandsForLink shared.new link.new) (read_phase number) accept }
    ensures link { LinkServed number shared.old.waits shared.new.waits link.new }
    ensures leads { W.leads_to world.old world.new }
{
    if !link.wants_read(number, &shared.waits) {
        return;
    }
    match read_input(number, &mut scratch.input, world) {
        LinkGot::Bytes(n) => {
            receive(number, shared, link, &scratch.input[..n], &mut scratch.work);
            advance(number, shared, link, scratch)
        }
        LinkGot::NotYet => link.wait_for_bytes(),
        LinkGot::Ended => {
            link.wait_for_bytes();
            link.stop(Why::Ended);
        }
        LinkGot::Failed => drop_link(number, Why::LinkFault, shared, link),
    }
}

// Offers all that waits to be sent. If that wraps round the end of the session's ring, it is copied into one piece first.
fn offer<W: World>(number: u8, link: &mut ServedLink, world: &mut W) -> LinkTook
    requires some { 0 < length link.old.pending }
    requires bound { length link.old.pending ≤ output_room }
    ensures log { Appended (W.log world.old)
        (Wrote number (length link.old.pending) (took_of result link.old.pending) ∷ []) (W.log world.new) }
    ensures bound { TookFits result (length link.old.pending) }
    ensures kept { link.new ≡ link.old }
    ensures leads { W.leads_to world.old world.new }
{
    match link.pending_piece() {
        Some(piece) => world.write(number, piece),
        None => world.write(number, link.pending()),
    }
}

// One write of all that waits to be sent.
fn write_once<W: World>(
    number: u8,
    shared: &mut SharedState,
    link: &mut ServedLink,
    scratch: &mut Scratch,
    world: &mut W,
)
    requires link { IsInTurn number shared.old.waits link.old }
    requires wants { IsTrue (wants_write link.old) }
    ensures simulates { Simulates (W.log world.old) (W.log world.new) (StandsForLink shared.old link.old)
        (StandsForLink shared.new link.new) (write_phase number) (write_phase number) }
    ensures link { LinkServed number shared.old.waits shared.new.waits link.new }
    ensures fewer { writes_left link.new < writes_left link.old }
    ensures leads { W.leads_to world.old world.new }
{
    match offer(number, link, world) {
        LinkTook::Took(n) => {
            link.took(n);
            advance(number, shared, link, scratch);
        }
        LinkTook::Failed => drop_link(number, Why::LinkFault, shared, link),
    }
}

// Writes until nothing waits to be sent, or the link is blocked.
fn write_link<W: World>(
    number: u8,
    shared: &mut SharedState,
    link: &mut ServedLink,
    scratch: &mut Scratch,
    world: &mut W,
)
    requires link { IsInTurn number shared.old.waits link.old }
    ensures simulates { Simulates (W.log world.old) (W.log world.new) (StandsForLink shared.old link.old)
        (StandsForLink shared.new link.new) (write_phase number) accept }
    ensures link { LinkServed number shared.old.waits shared.new.waits link.new }
    ensures leads { W.leads_to world.old world.new }
{
    while link.wants_write() {
        write_once(number, shared, link, scratch, world);
    }
}

// Closes the link, if it is closing and nothing waits to be sent. The answer is whether it was closed.
fn close_link<W: World>(number: u8, link: &ServedLink, world: &mut W) -> bool
    ensures simulates { (e : KeptSharedState) → Simulates (W.log world.old) (W.log world.new) (StandsForLink e link.now)
        (StandsForSlot e (if result then None else Some link.now)) (close_phase number) accept }
    ensures leads { W.leads_to world.old world.new }
{
    match link.close_due() {
        Some(cause) => {
            world.close(number, cause);
            true
        }
        None => false,
    }
}

/// A link's part of a turn. The answer is whether it was closed.
pub fn serve_link<W: World>(
    number: u8,
    shared: &mut SharedState,
    link: &mut ServedLink,
    scratch: &mut Scratch,
    world: &mut W,
) -> bool
    requires link { IsInTurn number shared.old.waits link.old }
    ensures simulates { Simulates (W.log world.old) (W.log world.new) (StandsForLink shared.old link.old)
        (StandsForSlot shared.new (if result then None else Some link.new)) (serve_link number) accept }
    ensures link { LinkServed number shared.old.waits shared.new.waits link.new }
    ensures leads { W.leads_to world.old world.new }
{
    read_link(number, shared, link, scratch, world);
    write_link(number, shared, link, scratch, world);
    close_link(number, link, world)
}
