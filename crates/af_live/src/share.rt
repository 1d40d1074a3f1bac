// What a link is given between two polls.
ghost use Rattle.std.specs.Prelude.{◌≡◌};
ghost use Rattle.af_live.specs.LinkTable.{whole_share, write_share};

/// How many bytes are written to a link between two polls, at most. So a round of 32 links is short.
pub(crate) const WRITE_SHARE: usize = 65_536;

/// What a link may still be given until the next poll, and whether it asked for more than that. Then it is cut, and is ready for
/// it after the next poll.
#[derive(Clone, Copy)]
pub(crate) struct Share {
    /// Whether a read may be made.
    pub may_read: bool,
    /// How many bytes may be written.
    pub room: usize,
    pub read_cut: bool,
    pub write_cut: bool,
}

impl Share {
    /// The share of a link from a poll on.
    pub fn whole() -> Share
        ensures { result ≡ whole_share }
    {
        Share {
            may_read: true,
            room: WRITE_SHARE,
            read_cut: false,
            write_cut: false,
        }
    }
}
