// What the bytes of a link begin with: a setup, a frame, too little, or nothing that can be read.
ghost use Rattle.std.specs.Prelude.{◌≡◌, ◌↔◌, ◌<◌, length};
ghost use Rattle.af_limits.specs.Limits.{longest_frame};
ghost use Rattle.af_wire.specs.declared.front.SetupFront.TheVariants as setup;
ghost use Rattle.af_wire.specs.declared.front.Front.TheVariants as frame;
ghost use Rattle.af_wire.specs.declared.front.SetupFront.{SetupFront};
ghost use Rattle.af_wire.specs.declared.front.Front.{Front};
ghost use Rattle.af_wire.specs.Begins.{HasSetupFront, HasFront};
ghost use Rattle.af_wire.specs.Front.{setup_front, setup_of_version, frame_front, IsFrameWithin, IsSetupWithin};
ghost use Rattle.af_wire.specs.Order.{u16_of};

use crate::Order;
use af_limits::MOST_WORDS;

/// What the bytes of a link that is not set up begin with.
#[derive(Clone, Copy, Debug, PartialEq, Eq)]
pub enum SetupFront {
    NeedMore,
    /// A good setup of an order, of 8 bytes.
    Setup(Order),
    /// A bad setup, with the order of its answer and the value that is wrong: the first four bytes, or the major version of
    /// an order.
    BadSetup { order: Order, value: u32 },
}

/// What the bytes of a link that is set up begin with.
#[derive(Clone, Copy, Debug, PartialEq, Eq)]
pub enum Front {
    NeedMore,
    /// A frame of n bytes, which are all there.
    Frame(usize),
    /// A stated length of 0 or of more than 4096 words.
    Malformed,
}

/// Reads a setup. It needs more exactly if fewer than 8 bytes are there.
#[tactic(auto, using(crate::proofs::SetupFrontLemmas::setup_exactly))]
pub fn setup_of(input: &[u8]) -> SetupFront
    ensures value { result ≡ setup_front input.now }
    ensures more { result ≡ setup.NeedMore → length input.now < 8 }
    ensures within { IsSetupWithin result (length input.now) }
    ensures exactly { (front : SetupFront) → (result ≡ front) ↔ HasSetupFront input.now front }
{
    let [a, b, c, d, e, f, _, _, ..] = input else {
        return SetupFront::NeedMore;
    };
    let version = [*e, *f];
    match Order::Big.u32([*a, *b, *c, *d]) {
        0x4146_4200 => versioned(Order::Big, version),
        0x4146_6c00 => versioned(Order::Little, version),
        value => SetupFront::BadSetup {
            order: Order::Big,
            value,
        },
    }
}

// The setup of a byte order, by its major version.
fn versioned(order: Order, version: [u8; 2]) -> SetupFront
    ensures { result ≡ setup_of_version order (u16_of order version) }
{
    match order.u16(version) {
        1 => SetupFront::Setup(order),
        major => SetupFront::BadSetup {
            order,
            value: u32::from(major),
        },
    }
}

/// Reads the length of a frame. It needs more exactly if fewer than 4 bytes are there, or fewer than a good stated length.
#[tactic(auto, using(crate::proofs::FrameFrontLemmas::frame_exactly))]
pub fn frame_at(order: Order, input: &[u8]) -> Front
    ensures value { result ≡ frame_front order input.now }
    ensures more { result ≡ frame.NeedMore → length input.now < longest_frame }
    ensures within { IsFrameWithin result (length input.now) }
    ensures exactly { (front : Front) → (result ≡ front) ↔ HasFront order input.now front }
{
    let [_, _, w0, w1, ..] = input else {
        return Front::NeedMore;
    };
    let words = usize::from(order.u16([*w0, *w1]));
    if words == 0 || words > MOST_WORDS {
        Front::Malformed
    } else if input.len() < 4 * words {
        Front::NeedMore
    } else {
        Front::Frame(4 * words)
    }
}
