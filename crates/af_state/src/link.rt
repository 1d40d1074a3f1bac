// A link, as the core keeps it. Each method is one thing that may happen to a link.
// Layout: the bytes are a session, whose memory is taken once. All else is in the struct itself, and the next link of the same
// number uses it again. The 16 contexts are in order of creation. The masks of selected events are by the numbers of the devices.
// Whether the link has a deferred request is noted only in the list of those, so `wants_read` and `takes_more` are told of it.
// Contracts see the link of the abstract server, field by field.
ghost use Rattle.std.specs.Prelude.{◌≡◌, ◌+◌, ◌==◌, ◌≤◌, nat_le, not, [], ◌∷◌, ◌++◌, length, drop, take, slice_set, true, false, IfOk, IfSome, OnOk, OnErr};
ghost use Rattle.std.specs.declared.option.Option.TheVariants.{Some};
ghost use Rattle.std.specs.Borrow.{sem};
ghost use Rattle.af_limits.specs.Limits.{longest_record, longest_message, most_unread, event_limit};
ghost use Rattle.af_context.specs.Contexts.{context_of, creation, is_in_use, reference, with_changed, with_settings, without_context};
ghost use Rattle.af_request.specs.Answer.{recorded, reply_meaning};
ghost use Rattle.af_request.specs.Replies.{FitsMessage};
ghost use Rattle.af_request.specs.Opcodes as opcodes;
ghost use Rattle.af_wire.specs.Message.{error};
ghost use Rattle.af_wire.specs.Event.{event_bytes};
ghost use Rattle.af_phone.specs.Lines.{selects};
ghost use Rattle.af_model.specs.State.{none_selected, new_link_state, closing_link};
ghost use Rattle.af_model.specs.Events.{mask_of};
ghost use Rattle.af_model.specs.Reply.{code_of_cause, reply_message};
ghost use Rattle.af_model.specs.Perform.{count_request};
ghost use Rattle.af_model.specs.Advance.{takes_more, without_front};
ghost use Rattle.af_model.specs.More.{wants_turn};
ghost use Rattle.af_model.specs.Turn.{wants_read, wants_write, close_due, mark_readable, send_pending, mark_writable};
ghost use Rattle.af_state.specs.Deferrals.{has_waiting};
ghost use Rattle.af_state.specs.Kept.{IsBounded};

use crate::DeferredRequests;
use af_context::{Context, ContextFault, Contexts};
use af_limits::{EVENT_LIMIT, MOST_DEVICES, PERFORM_LIMIT};
use af_model::Refusal;
use af_phone::event_for;
use af_request::{Reply, write_recorded, write_reply};
use af_sample::Gain;
use af_session::Session;
use af_time::{DevTime, OutOfMemory};
use af_wire::{Event, EventKind, Order, write_error, write_event};
use af_world::Why;
use std::alloc::Global;
use std::marker::Model;

/// The length of an event.
const EVENT: usize = 20;

/// A link: its bytes, its flags, its contexts and what it selects. Its memory is taken when it is made.
#[derive(Drop)]
pub struct ServedLink {
    is_set_up: bool,
    order: Order,
    session: Session,
    is_ready: bool,
    is_stuck: bool,
    closing: Option<Why>,
    sequence: u16,
    contexts: Contexts,
    // the masks of the events that it selects, by the numbers of the devices
    selections: [u32; MOST_DEVICES],
}

impl Model for ServedLink {
    ghost use Rattle.std.specs.Prelude.{◌≤◌, length};
    ghost use Rattle.af_limits.specs.Limits.{most_pending};
    ghost use Rattle.af_model.specs.State.{LinkState};

    ghost Value = { LinkState };

    ghost invariant = { λ a. length a.session.pending ≤ most_pending };

    ghost view = { λ a.
        record {
          is_set_up = a.is_set_up;
          order = a.order;
          rest = a.session.rest;
          pending = a.session.pending;
          is_ready = a.is_ready;
          is_stuck = a.is_stuck;
          closing = a.closing;
          sequence = a.sequence;
          contexts = a.contexts;
          selections = a.selections;
        } };
}

impl ServedLink {
    ghost use Rattle.af_state.specs.Lending.{unchanged_after_loan};

    pub fn new(alloc: Global) -> Result<ServedLink, OutOfMemory>
        ensures { IfOk result (λ l. l ≡ new_link_state) }
    {
        let session = Session::new(alloc)?;
        Ok(ServedLink {
            is_set_up: false,
            order: Order::Big,
            session,
            is_ready: false,
            is_stuck: false,
            closing: None,
            sequence: 0,
            contexts: Contexts::new(),
            selections: [0; MOST_DEVICES],
        })
    }

    pub fn is_set_up(&self) -> bool
        ensures { result ≡ self.now.is_set_up }
    {
        self.is_set_up
    }

    /// The input that was not read yet.
    pub fn rest(&self) -> &[u8]
        ensures bytes { result.now ≡ self.now.rest }
        ensures bound { length self.now.rest ≤ most_unread }
    {
        self.session.rest()
    }

    /// Whether it has input that was not read yet.
    pub fn has_input(&self) -> bool
        ensures input { result ≡ not (length self.now.rest == 0) }
        ensures bounds { IsBounded self.now }
    {
        !self.session.rest().is_empty()
    }

    /// The session: the input that was not read yet, and the output that was not sent yet.
    pub fn session(&self) -> &Session
        ensures { (result.now.rest ≡ self.now.rest) × (result.now.pending ≡ self.now.pending) }
    {
        &self.session
    }

    /// Whether it is to be read, as the link of this number, which may wait. That is looked up of a link that is ready alone.
    pub fn wants_read(&self, number: u8, waits: &DeferredRequests) -> bool
        ensures { result ≡ wants_read (has_waiting waits.now number) self.now }
    {
        self.is_ready && self.takes_more(waits.is_waiting(number))
    }

    pub fn wants_write(&self) -> bool
        ensures { result ≡ wants_write self.now }
    {
        self.session.pending_len() != 0 && !self.is_stuck
    }

    /// Whether more of its input is taken off, where it waits or not.
    pub fn takes_more(&self, waits: bool) -> bool
        ensures takes { result ≡ takes_more waits self.now }
        ensures bounds { IsBounded self.now }
    {
        let pending = self.session.pending_len();
        !waits && self.closing.is_none() && pending <= PERFORM_LIMIT
    }

    /// The cause of a link that is to be closed now.
    pub fn close_due(&self) -> Option<Why>
        ensures { result ≡ close_due self.now }
    {
        if self.session.pending_len() == 0 {
            self.closing
        } else {
            None
        }
    }

    /// Whether it is to be read, written or closed, as the link of this number.
    pub fn wants_turn(&self, number: u8, waits: &DeferredRequests) -> bool
        ensures { result ≡ wants_turn (has_waiting waits.now number) self.now }
    {
        self.wants_read(number, waits) || self.wants_write() || self.close_due().is_some()
    }

    /// The link is to be closed.
    pub fn stop(&mut self, cause: Why)
        ensures { self.new ≡ closing_link cause self.old }
    {
        self.session.drop_front(self.session.rest().len());
        self.closing = Some(cause);
        self.selections = [0; MOST_DEVICES];
    }

    /// The order of the bytes of its numbers: Big before its setup.
    pub fn order(&self) -> Order
        ensures { result ≡ self.now.order }
    {
        self.order
    }

    /// The setup of an order at the front of the input is taken off.
    pub fn set_up(&mut self, order: Order)
        requires { 8 ≤ length self.old.rest }
        ensures { self.new ≡ record (without_front 8 self.old) { is_set_up = true; order = order } }
    {
        self.session.drop_front(8);
        self.is_set_up = true;
        self.order = order;
    }

    /// Takes the first bytes off the input, and copies them into `front`.
    pub fn take_front(&mut self, front: &mut [u8])
        requires { length front.old ≤ length self.old.rest }
        ensures link { self.new ≡ without_front (length front.old) self.old }
        ensures front { front.new ≡ take (length front.old) self.old.rest }
    {
        let n = front.len();
        front.copy_from_slice(&self.session.rest()[..n]);
        self.session.drop_front(n);
    }

    /// More input comes.
    pub fn take_in(&mut self, bytes: &[u8])
        requires { length self.old.rest + length bytes.now ≤ most_unread }
        ensures { self.new ≡ record self.old { rest = self.old.rest ++ bytes.now } }
    {
        self.session.take_in(bytes);
    }

    /// Bytes are to be sent.
    pub fn push(&mut self, bytes: &[u8])
        requires { length self.old.pending + length bytes.now ≤ event_limit + longest_message }
        ensures { self.new ≡ record self.old { pending = self.old.pending ++ bytes.now } }
    {
        self.session.push_out(bytes);
    }

    /// One more request is made.
    pub fn count(&mut self)
        ensures { self.new ≡ count_request self.old }
    {
        self.sequence = self.sequence.wrapping_add(1);
    }

    /// Replies to the request with this opcode. The message is built in `message`.
    pub fn reply(&mut self, opcode: u8, reply: &Reply<'_>, message: &mut [u8])
        requires room { length self.old.pending ≤ event_limit }
        requires samples { FitsMessage (reply_meaning reply.now) }
        requires size { length message.old ≡ longest_message }
        ensures { self.new ≡
            record self.old {
              pending = self.old.pending
                  ++ reply_message self.old.order opcode (reply_meaning reply.now) self.old.sequence;
            } }
    {
        let n = write_reply(self.order, opcode, reply, self.sequence, message);
        self.session.push_out(&message[..n]);
    }

    /// Replies to a Record. So many bytes of its samples are in `message` already, from `RECORDED_AT` on; the rest is built
    /// around them.
    pub fn reply_recorded(&mut self, time: DevTime, n: usize, message: &mut [u8])
        requires room { length self.old.pending ≤ event_limit }
        requires samples { n ≤ longest_record }
        requires size { length message.old ≡ longest_message }
        ensures { self.new ≡ record self.old {
          pending = self.old.pending
              ++ reply_message self.old.order opcodes.record (recorded time.0 (take n (drop 16 message.old))) self.old.sequence;
        } }
    {
        let size = write_recorded(self.order, time, n, self.sequence, message);
        self.session.push_out(&message[..size]);
    }

    /// The request with this opcode is refused.
    pub fn refuse(&mut self, opcode: u8, refusal: Refusal)
        requires { length self.old.pending ≤ event_limit }
        ensures { self.new ≡
            record self.old {
              pending = self.old.pending
                  ++ error self.old.order (code_of_cause refusal.cause) refusal.value opcode self.old.sequence;
            } }
    {
        let mut message = [0; 16];
        write_error(
            self.order,
            refusal.cause.code(),
            refusal.value,
            opcode,
            self.sequence,
            &mut message,
        );
        self.session.push_out(&message);
    }

    /// The contexts.
    pub fn contexts(&self) -> &Contexts
        ensures { result.now ≡ self.now.contexts }
    {
        &self.contexts
    }

    /// The context of a number, if it is in use.
    pub fn context(&self, ac: u32) -> Option<Context>
        ensures { result ≡ context_of self.now.contexts ac }
    {
        self.contexts.get(ac)
    }

    /// Whether a context has this number.
    pub fn has_context(&self, ac: u32) -> bool
        ensures { result ≡ is_in_use self.now.contexts ac }
    {
        self.contexts.get(ac).is_some()
    }

    /// One context more.
    pub fn create(&mut self, context: Context) -> Result<(), ContextFault>
        ensures answer { result ≡ creation self.old.contexts context.ac }
        ensures done { OnOk result (self.new ≡ record self.old { contexts = self.old.contexts ++ context ∷ [] }) }
        ensures refused { OnErr result (self.new ≡ self.old) }
    {
        self.contexts.create(context)
    }

    /// Changes the settings that are stated of the context of a number.
    pub fn change(
        &mut self,
        ac: u32,
        play: Option<Gain>,
        record_to: Option<Gain>,
        preempt: Option<bool>,
    ) -> Result<(), ContextFault>
        ensures answer { result ≡ reference self.old.contexts ac }
        ensures done { OnOk result (self.new ≡
            record self.old { contexts = with_changed self.old.contexts ac (with_settings play record_to preempt) }) }
        ensures refused { OnErr result (self.new ≡ self.old) }
    {
        self.contexts.change(ac, play, record_to, preempt)
    }

    /// The context of a number is no more.
    pub fn free(&mut self, ac: u32) -> Result<(), ContextFault>
        ensures answer { result ≡ reference self.old.contexts ac }
        ensures done { OnOk result (self.new ≡ record self.old { contexts = without_context self.old.contexts ac }) }
        ensures refused { OnErr result (self.new ≡ self.old) }
    {
        self.contexts.free(ac)
    }

    /// The mask of the events of a device that it selects is replaced.
    pub fn select(&mut self, device: u8, mask: u32)
        ensures { self.new ≡ record self.old { selections = slice_set self.old.selections device mask } }
    {
        if usize::from(device) < MOST_DEVICES {
            self.selections[usize::from(device)] = mask;
        }
    }

    /// Whether it selects events of a kind of a device.
    pub fn selects(&self, device: u8, kind: EventKind) -> bool
        ensures { result ≡ selects (mask_of self.now device) kind }
    {
        match self.selections.get(usize::from(device)) {
            Some(mask) => event_for(*mask, kind),
            None => false,
        }
    }

    /// Whether an event still fits after what waits to be sent.
    pub fn has_room(&self) -> bool
        ensures { result ≡ nat_le (length self.now.pending + 20) event_limit }
    {
        self.session.pending_len() + EVENT <= EVENT_LIMIT
    }

    /// An event is told.
    pub fn tell(&mut self, event: Event)
        requires { length self.old.pending ≤ event_limit }
        ensures told { self.new
            ≡ record self.old { pending = self.old.pending ++ event_bytes self.old.order event self.old.sequence } }
        ensures size { length self.new.pending ≡ length self.old.pending + 20 }
    {
        let mut message = [0; 20];
        write_event(self.order, event, self.sequence, &mut message);
        self.session.push_out(&message);
    }

    /// The link is dropped: it is to be closed, and nothing of it is read or sent any more.
    pub fn abort(&mut self, cause: Why)
        ensures { self.new ≡ record self.old { rest = []; pending = []; closing = Some cause; selections = none_selected } }
    {
        self.stop(cause);
        self.session.took(self.session.pending_len());
    }

    /// There is nothing to read.
    pub fn wait_for_bytes(&mut self)
        ensures { self.new ≡ record self.old { is_ready = false } }
    {
        self.is_ready = false;
    }

    /// There may be something to read.
    pub fn set_ready(&mut self)
        ensures { self.new ≡ mark_readable self.old }
    {
        self.is_ready = true;
    }

    /// All of its output, in place, if it is one piece.
    pub fn pending_piece(&self) -> Option<&[u8]>
        ensures { IfSome result (λ piece. piece.now ≡ self.now.pending) }
    {
        self.session.pending_piece()
    }

    /// All of its output, copied into one piece.
    pub fn pending(&mut self) -> &[u8]
        ensures* kept { sem 𝓛 (unchanged_after_loan self.entry) }
        ensures pending { result.now ≡ self.old.pending }
    {
        self.session.pending()
    }

    /// The first n bytes of the output were sent. If they were not all, the link is blocked.
    pub fn took(&mut self, n: usize)
        requires { n ≤ length self.old.pending }
        ensures { self.new ≡ send_pending n self.old }
    {
        self.is_stuck = n < self.session.pending_len();
        self.session.took(n);
    }

    /// It may take something again.
    pub fn set_writable(&mut self)
        ensures { self.new ≡ mark_writable self.old }
    {
        self.is_stuck = false;
    }

    /// The link is opened again.
    pub fn reset(&mut self)
        ensures { self.new ≡ new_link_state }
    {
        self.is_set_up = false;
        self.order = Order::Big;
        self.session.clear();
        self.is_ready = false;
        self.is_stuck = false;
        self.closing = None;
        self.sequence = 0;
        self.contexts.clear();
        self.selections = [0; MOST_DEVICES];
    }
}
