//! Laws of connections, each the contract of a function that does nothing.
ghost use Rattle.std.specs.Prelude.{◌≡◌, ◌<◌, ◌+◌, ◌*◌, ◌^◌, ◌++◌, Bool, ℕ, List, Result};
ghost use Rattle.af_wire.specs.declared.order.Order.{Order};
ghost use Rattle.af_wire.specs.declared.message_front.MessageFront.TheVariants.{Message};
ghost use Rattle.af_wire.specs.MessageFront.{message_front};
ghost use Rattle.af_request.specs.Answer.{Answer};
ghost use Rattle.af_request.specs.Replies.{body_words, reply_bytes, IsReplyTo};
ghost use Rattle.af_request.specs.Asked.{Asked};
ghost use Rattle.af_time.specs.declared.DevTime.{DevTime};
ghost use Rattle.af_request.specs.declared.reply.Controls.{Controls};
ghost use Rattle.af_request.specs.declared.reply.Phone.{Phone};
ghost use Rattle.af_lib.specs.declared.fault.ConnFault.{ConnFault};
ghost use Rattle.af_lib.specs.Calls.{as_controls, as_done, as_phone, as_recorded, as_time, IsOkWhereAwaited};

use af_io::Link;

/// With the awaited reply, and where the link's count of faults does not rise, each call of a connection is Ok.
pub fn awaited_replies_are_ok<L: Link>()
    ensures done { IsOkWhereAwaited L.left L.sent L.faults as_done }
    ensures times { IsOkWhereAwaited L.left L.sent L.faults as_time }
    ensures controls { IsOkWhereAwaited L.left L.sent L.faults as_controls }
    ensures phones { IsOkWhereAwaited L.left L.sent L.faults as_phone }
    ensures records { (blocking : Bool) (room : ℕ) → IsOkWhereAwaited L.left L.sent L.faults (as_recorded blocking room) }
{}

/// A reply that is written is one message to a client, whatever follows it.
pub fn replies_are_messages()
    ensures { (order : Order) (opcode : ℕ) (a : Answer) (sequence : ℕ) (rest : List ℕ) → IsReplyTo opcode a → sequence < 2 ^ 16
        → message_front order (reply_bytes order opcode a sequence ++ rest) ≡ Message 1 opcode sequence (8 + 4 * body_words a) }
{}
