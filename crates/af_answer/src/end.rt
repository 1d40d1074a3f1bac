// How an answering machine ended.
ghost use Rattle.std.specs.Prelude.{◌≡◌};
ghost use Rattle.af_answer.specs.AnswerTrace.{connection_end};

use af_lib::ConnFault;

/// How an answering machine ended.
#[derive(Clone, Copy, Debug, PartialEq, Eq)]
pub enum AnswerEnd {
    /// All calls were answered, and the line that counts them was written.
    Done,
    /// The words are none of an answering machine's, or a value is outside its range. Nothing was dialled or written.
    Usage,
    /// The server could not be dialled.
    DialFault,
    /// A read or a write of the link failed.
    LinkFault,
    /// The link ended before a message was whole.
    LinkEnded,
    /// The server has n devices, and not the one that was named.
    NoDevice { devices: u8 },
    /// The device that was named has no telephone line.
    NoLine { device: u8 },
    /// The server refused a request, for this value.
    Refused { code: u8, value: u32 },
    /// What came is no message, or not the awaited one: its header, and the first bytes of its body, filled with zeros.
    BadReply { header: [u8; 8], first: [u8; 8] },
    /// 4096 events came, and not the awaited reply; or 1000000 events, and no call was taken.
    EventFlood,
    /// A write to the sink failed.
    SinkFault,
    /// Memory ran out: before the first request after the setup, or for a child, and then the hook was put on.
    OutOfMemory,
}

impl From<ConnFault> for AnswerEnd {
    ghost from_gives = { λ fault end. end ≡ connection_end fault };

    /// The end of a machine at a fault of its connection. It sends nothing more on a connection that is spent.
    fn from(fault: ConnFault) -> AnswerEnd {
        match fault {
            ConnFault::LinkFault | ConnFault::Spent { .. } => AnswerEnd::LinkFault,
            ConnFault::LinkEnded => AnswerEnd::LinkEnded,
            ConnFault::ServerError { code, value } => AnswerEnd::Refused { code, value },
            ConnFault::BadReply { header, first } => AnswerEnd::BadReply { header, first },
            ConnFault::OutOfMemory => AnswerEnd::OutOfMemory,
            ConnFault::EventFlood => AnswerEnd::EventFlood,
        }
    }
}
