// The messages of a server, found in the bytes of its link.
use af_wire::Order;
use arrayvec::ArrayVec;

// The longest message whose body is kept whole: the reply to a setup, of eight devices.
const LONGEST_KEPT: usize = 112;

/// A message that comes: its first bytes, how many have come of it, and how many it has, once its header is there.
#[derive(Drop)]
pub struct Incoming {
    kept: ArrayVec<u8, LONGEST_KEPT>,
    came: u64,
    length: u64,
}

impl Incoming {
    /// Nothing has come.
    pub fn new() -> Incoming {
        Incoming {
            kept: ArrayVec::new(),
            came: 0,
            length: 8,
        }
    }

    /// Takes one more byte. Whether the message is whole with it.
    pub fn take(&mut self, order: Order, byte: u8) -> bool {
        let _ = self.kept.try_push(byte);
        self.came = self.came.saturating_add(1);
        if self.came == 8
            && let [_, _, _, _, a, b, c, d] = self.kept.as_slice()
        {
            self.length = 8 + 4 * u64::from(order.u32([*a, *b, *c, *d]));
        }
        self.came >= self.length
    }

    /// The first bytes of the message.
    pub fn bytes(&self) -> &[u8] {
        self.kept.as_slice()
    }

    /// Begins the next message.
    pub fn begin(&mut self) {
        self.kept.clear();
        self.came = 0;
        self.length = 8;
    }
}
