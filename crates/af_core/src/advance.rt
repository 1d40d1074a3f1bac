// Advancing a link: a complete setup or frame at the front of its input is taken off and answered.
ghost use Rattle.std.specs.Prelude.{◌≡◌, ◌+◌, ◌≤◌, ◌<◌, [], ◌++◌, length, map, IfSome, IsTrue, IsFalse, true};
ghost use Rattle.af_limits.specs.Limits.{most_links, most_devices, most_unread, longest_capture, longest_frame, longest_message, perform_limit, event_limit};
ghost use Rattle.af_world.specs.declared.happening.Why.TheVariants as why;
ghost use Rattle.af_wire.specs.declared.front.Front.TheVariants.{Frame};
ghost use Rattle.af_wire.specs.Front.{setup_front, frame_front};
ghost use Rattle.af_wire.specs.Message.{error};
ghost use Rattle.af_request.specs.Answer.{setup};
ghost use Rattle.af_request.specs.Opcodes as opcodes;
ghost use Rattle.af_model.specs.State.{closing_link};
ghost use Rattle.af_model.specs.Reply.{reply_message};
ghost use Rattle.af_model.specs.Advance.{after_setup, after_frame, advance_step, takes_more};
ghost use Rattle.af_state.specs.Kept.{kept_info, IsBounded};
ghost use Rattle.af_state.specs.Deferrals.{has_waiting, OnlyQueues};
ghost use Rattle.af_state.specs.SharedState.{MayAsk};
ghost use Rattle.af_core.specs.Stands.{Advances, AdvancesOn, LinkAdvanced};

use af_perform::perform;
use af_request::{Devices, Reply, opcode, read_request, write_reply};
use af_state::{Device, Scratch, ServedLink, SharedState, Work};
use af_wire::{Front, Order, SetupFront, frame_at, setup_of, write_error};
use af_world::Why;

const BAD_SETUP: u8 = 1;

// What the reply to a setup says of the devices.
fn infos_of(devices: &[Device]) -> Devices
    requires { length devices.now ≤ most_devices }
    ensures { result.items ≡ map kept_info devices.now }
{
    let mut infos = Devices::new();
    for device in devices {
        infos.push(device.info());
    }
    infos
}

// The reply to a setup, in the order of the link.
fn reply_setup(devices: &[Device], link: &mut ServedLink, message: &mut [u8])
    requires count { length devices.now ≤ most_devices }
    requires room { length link.old.pending ≤ perform_limit }
    requires size { length message.old ≡ longest_message }
    ensures { link.new ≡ record link.old {
      pending = link.old.pending ++ reply_message link.old.order opcodes.setup (setup (map kept_info devices.now)) 0;
    } }
{
    let reply = Reply::Setup {
        devices: infos_of(devices),
    };
    let n = write_reply(link.order(), opcode::SETUP, &reply, 0, message);
    link.push(&message[..n]);
}

// A bad setup is answered in a byte order, and closes the link.
fn refuse_setup(order: Order, value: u32, link: &mut ServedLink)
    requires room { length link.old.pending ≤ perform_limit }
    ensures { link.new ≡
        record (closing_link why.BadSetup link.old) { pending = link.old.pending ++ error order 1 value opcodes.setup 0 } }
{
    let mut message = [0; 16];
    write_error(order, BAD_SETUP, value, opcode::SETUP, 0, &mut message);
    link.push(&message);
    link.stop(Why::BadSetup);
}

// Takes a setup off, if one is complete. This is kept out of the code that takes frames: a link has one setup.
#[inline(never)]
fn setup_once(shared: &SharedState, link: &mut ServedLink, work: &mut Work) -> bool
    requires room { length link.old.pending ≤ perform_limit }
    ensures step { Advances result (after_setup (setup_front link.old.rest)) shared.now link.old shared.now link.new }
    ensures same { IsFalse result → link.new ≡ link.old }
    ensures shorter { IsTrue result → length link.new.rest < length link.old.rest }
    ensures short { IsFalse result → length link.new.rest < longest_frame }
{
    match setup_of(link.rest()) {
        SetupFront::NeedMore => false,
        SetupFront::BadSetup { order, value } => {
            refuse_setup(order, value, link);
            true
        }
        SetupFront::Setup(order) => {
            link.set_up(order);
            reply_setup(&shared.devices, link, &mut work.message);
            true
        }
    }
}

// Performs a frame that the link's input began with, and has no more.
fn perform_frame(
    number: u8,
    shared: &mut SharedState,
    link: &mut ServedLink,
    frame: &[u8],
    work: &mut Work,
)
    requires asks { MayAsk number shared.old link.old }
    requires few { length frame.now ≤ longest_frame }
    ensures step { Advances true (after_frame number (Frame (length frame.now)))
        shared.old (record link.old { rest = frame.now ++ link.old.rest }) shared.new link.new }
    ensures no_more { length link.new.rest ≤ length link.old.rest }
    ensures only_queues { OnlyQueues number shared.old.waits shared.new.waits }
    ensures small_pending { IsTrue (has_waiting shared.new.waits number) → length link.new.pending ≤ perform_limit }
{
    match read_request(link.order(), frame) {
        Some(request) => perform(number, &request, shared, link, work),
        None => link.stop(Why::Malformed),
    }
}

// Takes the first frame off and performs it. `frame` receives a copy of it.
fn perform_front(
    number: u8,
    shared: &mut SharedState,
    link: &mut ServedLink,
    frame: &mut [u8],
    work: &mut Work,
)
    requires asks { MayAsk number shared.old link.old }
    requires there { length frame.old ≤ length link.old.rest }
    requires some { 0 < length frame.old }
    requires few { length frame.old ≤ longest_frame }
    ensures step { Advances true (after_frame number (Frame (length frame.old))) shared.old link.old shared.new link.new }
    ensures shorter { length link.new.rest < length link.old.rest }
    ensures only_queues { OnlyQueues number shared.old.waits shared.new.waits }
    ensures small_pending { IsTrue (has_waiting shared.new.waits number) → length link.new.pending ≤ perform_limit }
{
    link.take_front(frame);
    perform_frame(number, shared, link, frame, work)
}

// Takes a frame off, if one is complete.
fn frame_once(
    number: u8,
    shared: &mut SharedState,
    link: &mut ServedLink,
    input: &mut [u8],
    work: &mut Work,
) -> bool
    requires asks { MayAsk number shared.old link.old }
    requires size { length input.old ≡ longest_capture }
    ensures step { Advances result (after_frame number (frame_front link.old.order link.old.rest))
        shared.old link.old shared.new link.new }
    ensures same { IsFalse result → (shared.new ≡ shared.old) × (link.new ≡ link.old) }
    ensures shorter { IsTrue result → length link.new.rest < length link.old.rest }
    ensures short { IsFalse result → length link.new.rest < longest_frame }
    ensures only_queues { OnlyQueues number shared.old.waits shared.new.waits }
    ensures small_pending { IsTrue (has_waiting shared.new.waits number) → length link.new.pending ≤ perform_limit }
{
    match frame_at(link.order(), link.rest()) {
        Front::NeedMore => false,
        Front::Malformed => {
            link.stop(Why::Malformed);
            true
        }
        Front::Frame(n) => {
            perform_front(number, shared, link, &mut input[..n], work);
            true
        }
    }
}

// Takes one setup or frame off, if one is complete and the link takes more.
fn advance_once(
    number: u8,
    shared: &mut SharedState,
    link: &mut ServedLink,
    scratch: &mut Scratch,
) -> bool
    requires number { number < most_links }
    ensures step { Advances result (advance_step number) shared.old link.old shared.new link.new }
    ensures same { IsFalse result → (shared.new ≡ shared.old) × (link.new ≡ link.old) }
    ensures shorter { IsTrue result → length link.new.rest < length link.old.rest }
    ensures short { IsFalse result → IsTrue (takes_more (has_waiting shared.new.waits number) link.new) →
        length link.new.rest < longest_frame }
    ensures bounds { IsFalse result → IsBounded link.new }
    ensures only_queues { OnlyQueues number shared.old.waits shared.new.waits }
    ensures small_pending { IsTrue result → IsTrue (has_waiting shared.new.waits number) →
        length link.new.pending ≤ perform_limit }
{
    if !link.takes_more(shared.waits.is_waiting(number)) {
        return false;
    }
    if link.is_set_up() {
        frame_once(number, shared, link, &mut scratch.input, &mut scratch.work)
    } else {
        setup_once(shared, link, &mut scratch.work)
    }
}

// Takes off and answers what is there, one after the other, as far as the link takes more.
fn advance_all(number: u8, shared: &mut SharedState, link: &mut ServedLink, scratch: &mut Scratch)
    requires number { number < most_links }
    requires room { IsTrue (has_waiting shared.old.waits number) → length link.old.pending ≤ event_limit }
    ensures { LinkAdvanced number shared.old link.old shared.new link.new }
{
    while link.has_input() {
        if !advance_once(number, shared, link, scratch) {
            return;
        }
    }
}

/// Takes off and answers what is there, as far as the link takes more. After its replies a link mostly has no more input, so that
/// is looked at in line.
#[inline(always)]
pub fn advance(number: u8, shared: &mut SharedState, link: &mut ServedLink, scratch: &mut Scratch)
    requires number { number < most_links }
    requires room { IsTrue (has_waiting shared.old.waits number) → length link.old.pending ≤ event_limit }
    ensures { LinkAdvanced number shared.old link.old shared.new link.new }
{
    if link.has_input() {
        advance_all(number, shared, link, scratch);
    }
}

// The length of the frame that these bytes begin with, if nothing is unread before them and the frame is whole.
fn frame_in_place(link: &ServedLink, bytes: &[u8]) -> Option<usize>
    ensures { IfSome result (λ n. IsTrue link.now.is_set_up × (link.now.rest ≡ [])
        × (frame_front link.now.order bytes.now ≡ Frame n)) }
{
    if !link.is_set_up() || link.has_input() {
        return None;
    }
    match frame_at(link.order(), bytes) {
        Front::Frame(n) => Some(n),
        Front::NeedMore | Front::Malformed => None,
    }
}

/// Takes in what was read. Mostly that is one frame, or begins with one, and nothing is unread before it. Then the frame is
/// performed where it was read. What comes after it is taken in first, since a malformed frame ends with nothing unread.
pub fn receive(
    number: u8,
    shared: &mut SharedState,
    link: &mut ServedLink,
    bytes: &[u8],
    work: &mut Work,
)
    requires number { number < most_links }
    requires takes { IsTrue (takes_more (has_waiting shared.old.waits number) link.old) }
    requires room { length link.old.rest + length bytes.now ≤ most_unread }
    ensures on { AdvancesOn number shared.old (record link.old { rest = link.old.rest ++ bytes.now }) shared.new link.new }
    ensures only_queues { OnlyQueues number shared.old.waits shared.new.waits }
    ensures small_pending { IsTrue (has_waiting shared.new.waits number) → length link.new.pending ≤ perform_limit }
{
    match frame_in_place(link, bytes) {
        Some(n) => {
            let (frame, after) = bytes.split_at(n);
            if !after.is_empty() {
                link.take_in(after);
            }
            perform_frame(number, shared, link, frame, work);
        }
        None => link.take_in(bytes),
    }
}
