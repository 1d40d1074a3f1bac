// A source whose first bytes are kept.
ghost use Rattle.std.specs.Prelude.{◌≡◌};

use af_io::{Got, Source};
use arrayvec::ArrayVec;

/// So many bytes are kept: enough to see what kind of file it is.
pub const MOST_KEPT: usize = 64;

// What a source gave: its first bytes, how many it gave, and whether it has ended.
#[derive(Drop)]
struct Given {
    first: ArrayVec<u8, MOST_KEPT>,
    count: u64,
    ended: bool,
}

impl Given {
    fn note(&mut self, bytes: &[u8]) {
        self.count = self.count.saturating_add(bytes.len() as u64);
        for byte in bytes {
            if self.first.try_push(*byte).is_err() {
                return;
            }
        }
    }
}

/// A source that is watched: it keeps the first bytes of the source below it, and counts all of them. Each of its reads is that
/// read of the source below.
#[derive(Drop)]
pub struct WatchedSource<S: Source + Drop> {
    source: S,
    given: Given,
}

impl<S: Source + Drop> WatchedSource<S> {
    /// A source over another.
    pub fn new(source: S) -> WatchedSource<S>
        ensures { result.source ≡ source }
    {
        WatchedSource {
            source,
            given: Given {
                first: ArrayVec::new(),
                count: 0,
                ended: false,
            },
        }
    }

    /// The source below it.
    pub fn source(&self) -> &S
        ensures { result.now ≡ self.now.source }
    {
        &self.source
    }

    /// The first bytes that it gave.
    pub fn first(&self) -> &[u8] {
        self.given.first.as_slice()
    }

    /// How many bytes it gave.
    pub fn count(&self) -> u64 {
        self.given.count
    }

    /// Whether it gives another byte, which is read.
    pub fn gives_more(&mut self) -> bool {
        let mut byte = [0];
        !self.given.ended && matches!(self.read(&mut byte), Got::Bytes(_))
    }
}

impl<S: Source + Drop> Source for WatchedSource<S> {
    ghost left = { λ watched. S.left watched.source };

    ghost faults = { λ watched. S.faults watched.source };

    ghost reads = { λ before answer into after. S.reads before.source answer into after.source };

    fn read(&mut self, into: &mut [u8]) -> Got {
        let got = self.source.read(into);
        match got {
            Got::Bytes(count) => self.given.note(&into[..count]),
            Got::Ended => self.given.ended = true,
            Got::Failed => {}
        }
        got
    }
}
