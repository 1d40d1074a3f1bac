// What happens to the server: the wakes that begin its turns, and the answers of the outside to its calls.
use crate::Bytes;
use af_phone::LineChange;

/// What begins a turn.
#[derive(Clone, Copy, Debug, PartialEq, Eq)]
pub enum Wake {
    /// A link is new.
    Opened(u8),
    /// A link may have something to read.
    Readable(u8),
    /// A link may take something again.
    Writable(u8),
    /// So many sample periods of a device went by.
    Ticked(u8, u32),
    /// The line of a device changes.
    Line(u8, LineChange),
    Idle,
    Stop,
}

/// Why a link is closed.
#[derive(Clone, Copy, Debug, PartialEq, Eq)]
pub enum Why {
    /// Its first eight bytes are no setup.
    BadSetup,
    /// A front came to be read that is no request.
    Malformed,
    /// A read met the end of what it gives.
    Ended,
    /// A read of it, or a write to it, failed.
    LinkFault,
    /// An event met more bytes to send than there may be.
    Overrun,
}

/// What a read gave.
#[derive(Drop)]
pub enum ReadGot {
    Given(Bytes),
    NotYet,
    Ended,
    Failed,
}

/// A wake, or a call of the server with what the outside answered.
#[derive(Drop)]
pub enum Happening {
    Woke(Wake),
    Read {
        link: u8,
        got: ReadGot,
    },
    /// So many bytes were offered to a link, and these were taken. None stands for a failed write.
    Wrote {
        link: u8,
        offered: u32,
        took: Option<Bytes>,
    },
    Closed {
        link: u8,
        why: Why,
    },
    /// A device was asked for n frames, and gave these bytes. None stands for a failed capture.
    Captured {
        device: u8,
        frames: u32,
        got: Option<Bytes>,
    },
    Emitted {
        device: u8,
        sound: Bytes,
        done: bool,
    },
    /// The hook of a device's line was to be off, or on.
    Hooked {
        device: u8,
        off: bool,
        done: bool,
    },
}
