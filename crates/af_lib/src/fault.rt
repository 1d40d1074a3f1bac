// Why a call of a client gives no answer.

use thiserror::Error;

/// Why a connection can be used no more.
#[derive(Clone, Copy, Debug, PartialEq, Eq)]
pub enum Cause {
    LinkFault,
    LinkEnded,
    BadReply,
    EventFlood,
}

/// Why a call of a client gives no answer. After a LinkFault, a LinkEnded, a BadReply or an EventFlood the connection can
/// be used no more.
#[derive(Clone, Copy, Debug, PartialEq, Eq, Error)]
pub enum ConnFault {
    /// A read or a write of the link failed.
    #[error("link failed")]
    LinkFault,
    /// The link ended before the awaited message was whole.
    #[error("link ended")]
    LinkEnded,
    /// The server refused the request, for this value.
    #[error("refused {code} value {value}")]
    ServerError { code: u8, value: u32 },
    /// What came is no message, or not the awaited one: its header, and the first bytes of its body, filled with zeros.
    #[error("bad reply")]
    BadReply { header: [u8; 8], first: [u8; 8] },
    /// Memory ran out, before anything was sent.
    #[error("out of memory")]
    OutOfMemory,
    /// 4096 events came, and not the awaited message.
    #[error("too many events")]
    EventFlood,
    /// An earlier call of this connection answered this, and the connection can be used no more.
    #[error("the connection is spent")]
    Spent { first: Cause },
}
