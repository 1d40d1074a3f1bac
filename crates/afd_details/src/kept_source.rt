// A source that keeps what it gave, so that it can be looked at again.
ghost use Rattle.std.specs.Prelude.{◌≡◌};

use af_io::{Got, Source};
use af_limits::LONGEST_SCRIPT;
use std::alloc::Global;

/// A source that keeps what it gave, up to 1048576 bytes. Each of its reads is that read of the source below it.
#[derive(Drop)]
pub struct KeptSource<S: Source + Drop> {
    source: S,
    kept: Vec<u8>,
    /// Whether all that was given is kept.
    whole: bool,
}

impl<S: Source + Drop> KeptSource<S> {
    /// A source over another. It keeps nothing where nothing is to be kept.
    pub fn new(alloc: Global, source: S, keeps: bool) -> KeptSource<S>
        ensures { result.source ≡ source }
    {
        KeptSource {
            source,
            kept: Vec::new(alloc),
            whole: keeps,
        }
    }

    /// All that was given, if it was kept.
    pub fn kept(&self) -> Option<&[u8]> {
        if self.whole {
            Some(self.kept.as_slice())
        } else {
            None
        }
    }

    /// The beginning of what was given, as far as it was kept.
    pub fn first(&self) -> &[u8] {
        self.kept.as_slice()
    }

    /// The source below it.
    pub fn source(&self) -> &S {
        &self.source
    }
}

impl<S: Source + Drop> Source for KeptSource<S> {
    ghost left = { λ kept. S.left kept.source };

    ghost faults = { λ kept. S.faults kept.source };

    ghost reads = { λ before answer into after. S.reads before.source answer into after.source };

    fn read(&mut self, into: &mut [u8]) -> Got {
        let got = self.source.read(into);
        if let Got::Bytes(count) = got {
            keep(&mut self.kept, &mut self.whole, &into[..count]);
        }
        got
    }
}

/// Keeps a piece beside what was kept before it, if that was all.
fn keep(kept: &mut Vec<u8>, whole: &mut bool, piece: &[u8]) {
    if !*whole {
        return;
    }
    let room = LONGEST_SCRIPT.saturating_sub(kept.len());
    *whole = piece.len() <= room && kept.extend_from_slice(piece).is_ok();
}
