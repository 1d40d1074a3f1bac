// How a tool ended.
ghost use Rattle.std.specs.Prelude.{◌≡◌};
ghost use Rattle.af_toolkit.specs.Trace.{fault_end};

use af_lib::ConnFault;
use af_sound::SoundFault;

/// How a tool ended.
#[derive(Clone, Copy, Debug, PartialEq, Eq)]
pub enum ToolEnd {
    Done,
    /// The words are none of a tool's, or a value is outside its range. Nothing was dialled, read or written.
    Usage,
    /// The server could not be dialled.
    DialFault,
    /// A read or a write of the link failed.
    LinkFault,
    /// The link ended before a reply was whole.
    LinkEnded,
    /// The server has n devices, and not the one that was named.
    NoDevice { devices: u8 },
    /// Two devices, or a file and a device, have these different rates.
    RateMismatch { from: u32, to: u32 },
    /// Two devices, or a file and a device, have one rate, and these different numbers of channels.
    ChannelMismatch { from: u8, to: u8 },
    /// The source does not begin with the header of a sound file.
    BadSound { fault: SoundFault },
    /// The source ended inside of the header of a sound file.
    SoundCut,
    /// The tool is strict. It did all, and some of the sound was lost: frames that it played came too late to be heard, or frames
    /// that it recorded had left the server.
    SoundLost,
    /// The server refused a request, for this value.
    Refused { code: u8, value: u32 },
    /// What came is no message, or not the awaited one: its header, and the first bytes of its body, filled with zeros.
    BadReply { header: [u8; 8], first: [u8; 8] },
    /// 4096 events came, and not the awaited message.
    EventFlood,
    /// A read of the source failed.
    ReadFault,
    /// The source gave more than 2^40 bytes.
    TooLong,
    /// A write to the sink failed.
    SinkFault,
    /// Memory ran out, before anything was sent but, by a relay, the setup of its first link.
    OutOfMemory,
}

impl From<ConnFault> for ToolEnd {
    ghost from_gives = { λ fault end. end ≡ fault_end fault };

    /// The end of a tool at a fault of its connection. A tool sends nothing more on a connection that is spent.
    fn from(fault: ConnFault) -> ToolEnd {
        match fault {
            ConnFault::LinkFault | ConnFault::Spent { .. } => ToolEnd::LinkFault,
            ConnFault::LinkEnded => ToolEnd::LinkEnded,
            ConnFault::ServerError { code, value } => ToolEnd::Refused { code, value },
            ConnFault::BadReply { header, first } => ToolEnd::BadReply { header, first },
            ConnFault::OutOfMemory => ToolEnd::OutOfMemory,
            ConnFault::EventFlood => ToolEnd::EventFlood,
        }
    }
}
