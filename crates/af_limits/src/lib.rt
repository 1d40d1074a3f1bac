//! The limits of the server and of its clients: how many, how long, how much. Each stands here once: a constant for code, and a
//! word of the same name in `specs/Limits.antt` for contracts.
#![tactic(auto)]

pub mod laws;

/// The most links of a server at a time. They are numbered from 0.
pub const MOST_LINKS: usize = 32;

/// The most devices of a server. They are numbered from 0.
pub const MOST_DEVICES: usize = 8;

/// The most audio contexts of a link.
pub const MOST_CONTEXTS: usize = 16;

/// The most frames of a tick.
pub const LONGEST_TICK: u32 = 4096;

/// The most samples of a tick: a frame has two at most.
pub const MOST_TICK_SAMPLES: usize = 2 * LONGEST_TICK as usize;

/// The most bytes that a device captures at once: a sample has four at most.
pub const LONGEST_CAPTURE: usize = 4 * MOST_TICK_SAMPLES;

/// The most words of four bytes that a request has, its header among them.
pub const MOST_WORDS: usize = 4096;

/// The most bytes of a request, which goes over the link as one frame.
pub const LONGEST_FRAME: usize = 4 * MOST_WORDS;

/// The most bytes of the samples of a Play.
pub const LONGEST_PLAY: usize = LONGEST_FRAME - 16;

/// The most bytes of the samples that a Record asks for.
pub const LONGEST_RECORD: usize = 16000;

/// The most bytes of a message, with its header: the reply to the longest Record.
pub const LONGEST_MESSAGE: usize = 16 + LONGEST_RECORD;

/// The most bytes of one read of a link.
pub const LONGEST_READ: usize = 16384;

/// The most bytes that one step of a script sends.
pub const LONGEST_SEND: usize = LONGEST_READ;

/// The room for the unread input of a link, in bytes.
pub const MOST_UNREAD: usize = LONGEST_FRAME + LONGEST_READ;

/// The most bytes that wait to be sent to a link while its requests are performed.
pub const PERFORM_LIMIT: usize = 16384;

/// The most bytes that wait to be sent to a link, together with an event that it is told.
pub const EVENT_LIMIT: usize = 49152;

/// The room for the unsent output of a link, in bytes.
pub const OUTPUT_ROOM: usize = 65536;

/// The most bytes of a script.
pub const LONGEST_SCRIPT: usize = 1048576;

/// The most bytes of a configuration.
pub const LONGEST_CONFIG: usize = 65536;

/// The most bytes of the address of a server.
pub const LONGEST_ADDRESS: usize = 64;

/// The most bytes that aplay reads of its source.
pub const LONGEST_SOURCE: u64 = 1 << 40;

/// The most events that come before an awaited reply.
pub const MOST_EVENTS: u32 = 4096;

/// The most events that a connection keeps: of more, the oldest are lost.
pub const MOST_KEPT_EVENTS: usize = 64;
