// The kinds of devices that have a program for themselves.

/// How often the program of such a device may be started again.
pub const MOST_CARD_RESTARTS: u32 = 1_000_000;

/// What the program of a device does. While it runs, the time of the device is that of the program, except for an encoder.
#[derive(Clone, Copy, Debug, PartialEq, Eq)]
pub enum CardKind {
    /// It is given the sound of the device, which captures silence.
    Speaker,
    /// It gives the sound that the device captures. What the device hands out is lost.
    Microphone,
    /// Both.
    Card,
    /// It is given the sound of the device, which captures silence and goes by the system's clock.
    Encoder,
}
