//! Laws of requests and replies, each the contract of a function that does nothing.
ghost use Rattle.std.specs.Prelude.{◌≡◌, ◌++◌, ◌*◌, ℕ, List, length};
ghost use Rattle.af_wire.specs.declared.order.Order.{Order};
ghost use Rattle.af_wire.specs.Front.{frame_front};
ghost use Rattle.af_wire.specs.declared.front.Front.TheVariants.{Frame};
ghost use Rattle.af_request.specs.Asked.{Asked};
ghost use Rattle.af_request.specs.Opcodes as opcodes;
ghost use Rattle.af_request.specs.Requests.{asked_in, request_bytes, IsWritable};
ghost use Rattle.af_request.specs.declared.reply.DeviceInfo.{DeviceInfo};
ghost use Rattle.af_request.specs.Answer.{Answer, setup};
ghost use Rattle.af_request.specs.Replies.{answer_in, body_bytes, body_words, reply_bytes, IsReplyTo};
ghost use Rattle.af_wire.specs.declared.order.Order.TheVariants.{Big};
ghost use Rattle.af_request.specs.big as big;

use crate::opcode::{
    CHANGE_AC, CREATE_AC, FREE_AC, GET_TIME, HOOK_SWITCH, NO_OP, PLAY, QUERY_CONTROLS, QUERY_PHONE,
    RECORD, SELECT_EVENTS, SET_CONTROLS, SETUP,
};

/// The opcodes that the code reads and writes are those of the definitions.
pub fn opcodes_are_as_defined()
    ensures setup { SETUP ≡ opcodes.setup }
    ensures no_op { NO_OP ≡ opcodes.no_op }
    ensures get_time { GET_TIME ≡ opcodes.get_time }
    ensures create_ac { CREATE_AC ≡ opcodes.create_ac }
    ensures change_ac { CHANGE_AC ≡ opcodes.change_ac }
    ensures free_ac { FREE_AC ≡ opcodes.free_ac }
    ensures play { PLAY ≡ opcodes.play }
    ensures record { RECORD ≡ opcodes.record }
    ensures select_events { SELECT_EVENTS ≡ opcodes.select_events }
    ensures set_controls { SET_CONTROLS ≡ opcodes.set_controls }
    ensures query_controls { QUERY_CONTROLS ≡ opcodes.query_controls }
    ensures hook_switch { HOOK_SWITCH ≡ opcodes.hook_switch }
    ensures query_phone { QUERY_PHONE ≡ opcodes.query_phone }
{}

/// A request that is written is one frame, whatever follows it, and is read again as the same request.
pub fn requests_round_trip()
    ensures again { (order : Order) (a : Asked) → IsWritable a → asked_in order (request_bytes order a) ≡ Some a }
    ensures frame { (order : Order) (a : Asked) (rest : List ℕ) → IsWritable a →
        frame_front order (request_bytes order a ++ rest) ≡ Frame (length (request_bytes order a)) }
{}

/// A reply that is written has a body of the length that its header states, which is read again as the same reply. The devices
/// that the reply to a setup is read as are such as it may state.
pub fn replies_round_trip()
    ensures again { (order : Order) (opcode : ℕ) (a : Answer) → IsReplyTo opcode a →
        answer_in order opcode (body_bytes order a) ≡ Some a }
    ensures words { (order : Order) (a : Answer) → length (body_bytes order a) ≡ 4 * body_words a }
    ensures stated { (order : Order) (body : List ℕ) (devices : List DeviceInfo) →
        answer_in order opcodes.setup body ≡ Some (setup devices) → IsReplyTo opcodes.setup (setup devices) }
{}

/// What requests and replies were before a client chose its order, they are in Big: frames ask, bodies answer, and both are
/// spelled as they were.
pub fn big_is_as_before()
    ensures asks { (frame : List ℕ) → asked_in Big frame ≡ big.asked_in frame }
    ensures requests { (a : Asked) → request_bytes Big a ≡ big.request_bytes a }
    ensures answers { (opcode : ℕ) (body : List ℕ) → answer_in Big opcode body ≡ big.answer_in opcode body }
    ensures replies { (opcode : ℕ) (a : Answer) (sequence : ℕ) →
        reply_bytes Big opcode a sequence ≡ big.reply_bytes opcode a sequence }
{}
