// What the outside of a server does before and between its turns.
use crate::{Bytes, CardKind, DeviceSpec, Wake};
use af_process::CommandLine;

/// The backend of a device, with the names and words that it was stated by.
#[derive(Drop)]
pub enum ToldKind {
    Silent,
    Files {
        input: Bytes,
        output: Bytes,
    },
    Loop,
    Codec {
        restarts: u32,
        words: CommandLine,
    },
    Card {
        card: CardKind,
        restarts: u32,
        words: CommandLine,
    },
}

/// A listen, an attach or a wait that was done.
#[derive(Drop)]
pub enum Lifecycle {
    /// It was listened at an address.
    Listened(Bytes),
    /// A device was attached, with its backend.
    Attached {
        device: u8,
        spec: DeviceSpec,
        kind: ToldKind,
    },
    /// The telephone line of a device got a program, which stands for its exchange.
    LineAttached {
        device: u8,
        restarts: u32,
        words: CommandLine,
    },
    /// A wait, asked with whether there was more to do, gave a wake.
    Waited {
        more: bool,
        wake: Wake,
    },
}
