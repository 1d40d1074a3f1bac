// An act: what was done with a program in memory.
use crate::{Gave, Launched, Took};
use af_io::Bytes;
use af_process::Words;

/// A call of a program with what came of it, or a sound of the device before it. Moments are nanoseconds.
#[derive(Drop)]
pub enum Act {
    Launched {
        at: u64,
        words: Words,
        came_to: Launched,
    },
    /// A take with room for so many bytes.
    Asked {
        room: usize,
        came: Gave,
    },
    /// The program gave these bytes.
    Gave {
        bytes: Bytes,
    },
    /// A give of these bytes.
    Offered {
        bytes: Bytes,
        answer: Took,
    },
    /// The program took these bytes.
    Took {
        bytes: Bytes,
    },
    Ended {
        at: u64,
    },
    /// The device captured this sound in a tick.
    Captured {
        sound: Bytes,
    },
    /// The device emitted this sound in a tick.
    Emitted {
        sound: Bytes,
    },
}
