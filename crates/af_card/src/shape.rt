// The kind of a device, and the frames of its sound.
ghost use Rattle.std.specs.Prelude.{◌≡◌, ◌≤◌};
ghost use Rattle.af_card.specs.Fed.{piece_frames, piece_of};
ghost use Rattle.af_card.specs.Between.{gives_sound, goes_by_clock, hands_frames};

use af_limits::LONGEST_TICK;
use af_world::CardKind;

/// What kind of device it is; how many bytes a frame has, 1 to 8; the byte that silence has; and how many frames a second it has.
#[derive(Clone, Copy, Debug, PartialEq, Eq)]
pub struct Shape {
    pub kind: CardKind,
    pub frame_bytes: usize,
    pub silence: u8,
    pub rate: u32,
}

impl Shape {
    /// Whether the program of the device gives sound.
    pub(crate) fn gives_sound(&self) -> bool
        ensures { result ≡ gives_sound self.now.kind }
    {
        match self.kind {
            CardKind::Speaker | CardKind::Encoder => false,
            CardKind::Microphone | CardKind::Card => true,
        }
    }

    /// Whether each sound is handed on in whole frames, as far as the program has room, and the rest is lost.
    pub(crate) fn hands_frames(&self) -> bool
        ensures { result ≡ hands_frames self.now.kind }
    {
        match self.kind {
            CardKind::Speaker | CardKind::Microphone => false,
            CardKind::Card | CardKind::Encoder => true,
        }
    }

    /// Whether the device goes by the system's clock, also while its program runs.
    pub(crate) fn goes_by_clock(&self) -> bool
        ensures { result ≡ goes_by_clock self.now.kind }
    {
        match self.kind {
            CardKind::Speaker | CardKind::Microphone | CardKind::Card => false,
            CardKind::Encoder => true,
        }
    }

    /// The frames of a piece of sound: those of a hundredth of a second.
    pub(crate) fn piece_frames(&self) -> u32
        ensures { result ≡ piece_frames self.now }
    {
        (self.rate / 100).min(LONGEST_TICK)
    }

    /// The bytes of a piece of sound.
    pub(crate) fn piece(&self) -> usize
        requires { self.now.frame_bytes ≤ 8 }
        ensures { result ≡ piece_of self.now }
    {
        self.piece_frames() as usize * self.frame_bytes
    }
}
