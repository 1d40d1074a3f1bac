// Parts of the server's messages, written in a byte order into a slice of exactly their length.
ghost use Rattle.std.specs.Prelude.{◌≡◌, ◌≤◌, ◌*◌, ◌++◌, ℕ, List, IsTrue, drop, length};
ghost use Rattle.af_wire.specs.Begins.{StatesError};
ghost use Rattle.af_wire.specs.Message.{head, error};
ghost use Rattle.af_wire.specs.MessageFront.{is_head, IsOneMessage};

use crate::Order;

/// Writes the header of a message: kind 0 (an error), 1 (a reply) or 2 (an event), its detail, the sequence number of the
/// request that it answers, and how many words of 4 bytes follow.
#[tactic(auto, using(crate::proofs::MessageRoundTrips::head_one), unfolding(crate::specs::Message::head))]
pub fn write_head(order: Order, kind: u8, detail: u8, sequence: u16, words: u32, out: &mut [u8])
    requires { length out.old ≡ 8 }
    ensures bytes { out.new ≡ head order kind detail sequence words }
    ensures one { (body : List ℕ) → IsTrue (is_head kind detail words) → length body ≡ 4 * words →
        IsOneMessage order kind detail sequence (out.new ++ body) }
{
    let [s0, s1] = order.u16_bytes(sequence);
    let (front, back) = out.split_at_mut(4);
    front.copy_from_slice(&[kind, detail, s0, s1]);
    back.copy_from_slice(&order.u32_bytes(words));
}

/// Writes an error: its code, the value that was refused, the opcode of the request (0 for a setup) and its sequence
/// number.
#[tactic(auto, using(crate::proofs::MessageRoundTrips::error_one), unfolding(crate::specs::Message::error))]
pub fn write_error(order: Order, code: u8, value: u32, opcode: u8, sequence: u16, out: &mut [u8])
    requires { length out.old ≡ 16 }
    ensures bytes { out.new ≡ error order code value opcode sequence }
    ensures one { 1 ≤ code → code ≤ 8 → IsOneMessage order 0 code sequence out.new }
    ensures again { StatesError order value opcode (drop 8 out.new) }
{
    let [v0, v1, v2, v3] = order.u32_bytes(value);
    let (front, back) = out.split_at_mut(8);
    write_head(order, 0, code, sequence, 2, front);
    back.copy_from_slice(&[v0, v1, v2, v3, opcode, 0, 0, 0]);
}
