//! Laws of messages, each the contract of a function that does nothing.
ghost use Rattle.std.specs.Prelude.{◌≡◌, ◌↔◌, ◌<◌, ◌+◌, ◌*◌, ◌^◌, ◌++◌, ℕ, List, IsTrue, drop, length};
ghost use Rattle.af_wire.specs.declared.order.Order.{Order};
ghost use Rattle.af_wire.specs.declared.event.Event.{Event};
ghost use Rattle.af_wire.specs.declared.message_front.MessageFront.TheVariants.{Message};
ghost use Rattle.af_wire.specs.Event.{detail_of, event_bytes, event_in, IsEvent};
ghost use Rattle.af_wire.specs.declared.front.SetupFront.TheVariants.{Setup};
ghost use Rattle.af_wire.specs.Front.{setup_bytes, setup_front};
ghost use Rattle.af_wire.specs.Message.{head};
ghost use Rattle.af_wire.specs.MessageFront.{is_head, message_front};
ghost use Rattle.af_wire.specs.declared.order.Order.TheVariants.{Big, Little};
ghost use Rattle.af_wire.specs.declared.front.Front.{Front};
ghost use Rattle.af_wire.specs.declared.message_front.MessageFront.{MessageFront};
ghost use Rattle.af_wire.specs.Begins.{HasSetupFront, HasFront, HasMessageFront, StatesSetup};
ghost use Rattle.af_wire.specs.Message.{error};
ghost use Rattle.af_wire.specs.Order.{magic};
ghost use Rattle.af_wire.specs.big as big;

/// A good head with the body that it states is one message, whatever follows it; so is an event, which is read again as
/// the same event.
pub fn messages_round_trip()
    ensures heads { (order : Order) (kind detail sequence words : ℕ) (body rest : List ℕ) → IsTrue (is_head kind detail words)
        → sequence < 2 ^ 16 → words < 2 ^ 32 → length body ≡ 4 * words
        → message_front order (head order kind detail sequence words ++ body ++ rest)
        ≡ Message kind detail sequence (8 + 4 * words) }
    ensures events { (order : Order) (e : Event) (sequence : ℕ) (rest : List ℕ) → sequence < 2 ^ 16
        → message_front order (event_bytes order e sequence ++ rest) ≡ Message 2 (detail_of e.kind) sequence 20 }
    ensures again { (order : Order) (e : Event) (sequence : ℕ) → IsEvent e →
        event_in order (detail_of e.kind) (drop 8 (event_bytes order e sequence)) ≡ Some e }
{}

/// The setup of an order that a client sends is a good one to a server, whatever follows it.
pub fn setup_is_good()
    ensures { (order : Order) (rest : List ℕ) → setup_front (setup_bytes order ++ rest) ≡ Setup order }
{}

/// What the wire was before a client chose its order, it is in Big: a setup that does not begin with the name of Little, frames,
/// and messages begin where they did, and messages are spelled and events read as they were.
pub fn big_is_as_before()
    ensures setups { (bytes : List ℕ) (front : big.Setup) → ((major : ℕ) → StatesSetup Big (magic Little) major bytes → ⊥)
        → big.HasSetupFront bytes front ↔ HasSetupFront bytes (big.front_now front) }
    ensures frames { (bytes : List ℕ) (front : Front) → big.HasFront bytes front ↔ HasFront Big bytes front }
    ensures messages { (bytes : List ℕ) (front : MessageFront) →
        big.HasMessageFront bytes front ↔ HasMessageFront Big bytes front }
    ensures heads { (kind detail sequence words : ℕ) → head Big kind detail sequence words ≡ big.head kind detail sequence words }
    ensures errors { (code value opcode sequence : ℕ) →
        error Big code value opcode sequence ≡ big.error code value opcode sequence }
    ensures events { (e : Event) (sequence : ℕ) → event_bytes Big e sequence ≡ big.event_bytes e sequence }
    ensures again { (detail : ℕ) (body : List ℕ) → event_in Big detail body ≡ big.event_in detail body }
{}
