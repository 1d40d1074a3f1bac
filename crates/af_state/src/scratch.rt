// The room in which a turn works, taken once.

use af_limits::{LONGEST_CAPTURE, LONGEST_FRAME, LONGEST_MESSAGE};
use af_time::OutOfMemory;
use std::alloc::Global;
use std::marker::Model;

/// Room for the samples of a request or a tick, for bytes of samples that are sent, and for a message.
#[derive(Drop)]
pub struct Work {
    pub samples: Vec<i16>,
    pub bytes: Vec<u8>,
    pub message: Vec<u8>,
}

impl Model for Work {
    ghost use Rattle.std.specs.Prelude.{◌≡◌, length};
    ghost use Rattle.af_limits.specs.Limits.{longest_frame, longest_message};

    // its content means nothing from one use to the next
    ghost Value = { Unit {0} };

    ghost view = { λ a. tt };

    ghost invariant = { λ a. (length a.samples.items ≡ longest_frame) × (length a.bytes.items ≡ longest_frame)
        × (length a.message.items ≡ longest_message) };
}

/// Room for input, from a link or a device, and for the work on it.
#[derive(Drop)]
pub struct Scratch {
    pub input: Vec<u8>,
    pub work: Work,
}

impl Model for Scratch {
    ghost use Rattle.std.specs.Prelude.{◌≡◌, length};
    ghost use Rattle.af_limits.specs.Limits.{longest_capture};

    ghost Value = { Unit {0} };

    ghost view = { λ a. tt };

    ghost invariant = { λ a. length a.input.items ≡ longest_capture };
}

impl Scratch {
    pub fn new(alloc: Global) -> Result<Scratch, OutOfMemory> {
        let input = vec![in alloc; 0; LONGEST_CAPTURE]?;
        let samples = vec![in alloc; 0; LONGEST_FRAME]?;
        let bytes = vec![in alloc; 0; LONGEST_FRAME]?;
        let message = vec![in alloc; 0; LONGEST_MESSAGE]?;
        Ok(Scratch {
            input,
            work: Work {
                samples,
                bytes,
                message,
            },
        })
    }
}
