// What the bytes that a server sends begin with.
ghost use Rattle.std.specs.Prelude.{◌≡◌, ◌↔◌, ◌≤◌, true, length};
ghost use Rattle.af_wire.specs.declared.message_front.MessageFront.{MessageFront};
ghost use Rattle.af_wire.specs.Begins.{HasMessageFront};
ghost use Rattle.af_wire.specs.MessageFront.{is_head, message_front, IsMessageWithin};

use crate::Order;

/// What the bytes that a server sends begin with.
#[derive(Clone, Copy, Debug, PartialEq, Eq)]
pub enum MessageFront {
    /// Part of a header, or of a message: the length in bytes to which the input must grow.
    NeedMore(usize),
    /// A whole message: the fields of its header, and the length of all of it in bytes.
    Message {
        kind: u8,
        detail: u8,
        sequence: u16,
        length: usize,
    },
    /// 8 bytes that are no header of a message.
    BadMessage,
}

/// Reads the front of a message. It needs more exactly if fewer than 8 bytes are there, or fewer than a good header states.
#[tactic(auto, using(crate::proofs::MessageFrontLemmas::message_exactly))]
pub fn message_at(order: Order, input: &[u8]) -> MessageFront
    ensures value { result ≡ message_front order input.now }
    ensures within { IsMessageWithin result (length input.now) }
    ensures exactly { (front : MessageFront) → (result ≡ front) ↔ HasMessageFront order input.now front }
{
    let [kind, detail, s0, s1, w0, w1, w2, w3, ..] = input else {
        return MessageFront::NeedMore(8);
    };
    let sequence = order.u16([*s0, *s1]);
    let words = order.u32([*w0, *w1, *w2, *w3]);
    if !is_head(*kind, *detail, words) {
        return MessageFront::BadMessage;
    }
    let length = 8 + 4 * words as usize;
    if input.len() < length {
        MessageFront::NeedMore(length)
    } else {
        MessageFront::Message {
            kind: *kind,
            detail: *detail,
            sequence,
            length,
        }
    }
}

// Whether a client accepts this as the header of a message.
fn is_head(kind: u8, detail: u8, words: u32) -> bool
    ensures value { result ≡ is_head kind detail words }
    ensures most { result ≡ true → words ≤ 4002 }
{
    match kind {
        0 => 1 <= detail && detail <= 8 && words == 2,
        1 => (detail == 0 || 2 <= detail && detail <= 12) && words <= 4002,
        2 => (detail == 1 || detail == 2 || detail == 4 || detail == 8) && words == 3,
        _ => false,
    }
}
