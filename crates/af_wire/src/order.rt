// The byte order of a link, which its setup chooses.
ghost use Rattle.std.specs.Prelude.{◌≡◌};
ghost use Rattle.std.specs.Int.{w16, w32, from_be_bytes};
ghost use Rattle.af_wire.specs.Order.{i16_bytes, i16_of, u16_bytes, u16_of, u32_bytes, u32_of};
ghost use Rattle.af_wire.specs.Front.{setup_bytes};

/// The order of the bytes of a link's numbers: the most significant byte comes first, or it comes last.
#[derive(Clone, Copy, Debug, PartialEq, Eq)]
pub enum Order {
    Big,
    Little,
}

impl Order {
    /// The number that two bytes are.
    pub fn u16(self, bytes: [u8; 2]) -> u16
        ensures { result ≡ u16_of self bytes }
    {
        self.turned_u16(u16::from_be_bytes(bytes))
    }

    /// The number that two bytes are in two's complement.
    pub fn i16(self, bytes: [u8; 2]) -> i16
        ensures { result ≡ i16_of self bytes }
    {
        self.u16(bytes).cast_signed()
    }

    /// The number that four bytes are.
    pub fn u32(self, bytes: [u8; 4]) -> u32
        ensures { result ≡ u32_of self bytes }
    {
        self.turned_u32(u32::from_be_bytes(bytes))
    }

    /// The bytes of a number of two bytes.
    pub fn u16_bytes(self, number: u16) -> [u8; 2]
        ensures { result ≡ u16_bytes self number }
    {
        self.turned_u16(number).to_be_bytes()
    }

    /// The bytes of a number of two bytes in two's complement.
    pub fn i16_bytes(self, number: i16) -> [u8; 2]
        ensures { result ≡ i16_bytes self number }
    {
        self.u16_bytes(number.cast_unsigned())
    }

    /// The bytes of a number of four bytes.
    pub fn u32_bytes(self, number: u32) -> [u8; 4]
        ensures { result ≡ u32_bytes self number }
    {
        self.turned_u32(number).to_be_bytes()
    }

    /// The setup of this order that a client sends, of version 1.0.
    pub fn setup(self) -> [u8; 8]
        ensures { result ≡ setup_bytes self }
    {
        match self {
            Order::Big => [0x41, 0x46, 0x42, 0, 0, 1, 0, 0],
            Order::Little => [0x41, 0x46, 0x6c, 0, 1, 0, 0, 0],
        }
    }

    // The number whose bytes, the most significant first, are those of this one in the order. The number is swapped, and not its
    // bytes, since that takes one instruction and no branch.
    fn turned_u16(self, number: u16) -> u16
        ensures { result ≡ from_be_bytes w16 (u16_bytes self number) }
    {
        match self {
            Order::Big => number,
            Order::Little => number.swap_bytes(),
        }
    }

    // The same for a number of four bytes.
    fn turned_u32(self, number: u32) -> u32
        ensures { result ≡ from_be_bytes w32 (u32_bytes self number) }
    {
        match self {
            Order::Big => number,
            Order::Little => number.swap_bytes(),
        }
    }
}
