// A source is read to its end.
ghost use Rattle.std.specs.Prelude.{◌≡◌, IfOk, OnErr, IsErrOf};
ghost use Rattle.af_io.specs.Observed.{CountsFault};
ghost use Rattle.af_io.specs.Flow.{ConsumedWhole, ConsumedWithin, ConsumedTooMuch};

use crate::{Got, Source};
use std::alloc::Global;

/// Why a source gave no text.
#[derive(Clone, Copy, Debug, PartialEq, Eq)]
pub enum TextFault {
    ReadFault,
    TooLong,
    OutOfMemory,
}

/// All bytes of a source, where these are at most so many.
pub fn read_text<S: Source>(
    alloc: Global,
    source: &mut S,
    most: usize,
) -> Result<Vec<u8>, TextFault>
    ensures whole { IfOk result (λ text. ConsumedWhole most (S.left source.old) (S.left source.new) text.items) }
    ensures long { IsErrOf result TextFault.TooLong → ConsumedTooMuch most (S.left source.old) (S.left source.new) }
    ensures within { (result ≡ Err TextFault.TooLong → ⊥) → ConsumedWithin most (S.left source.old) (S.left source.new) }
    ensures fault { CountsFault (IsErrOf result TextFault.ReadFault) (S.faults source.old) (S.faults source.new) }
{
    let mut text = Vec::new(alloc);
    let mut piece = [0; 4096];
    loop {
        match source.read(&mut piece) {
            Got::Bytes(n) => {
                if n > most - text.len() {
                    return Err(TextFault::TooLong);
                }
                if text.extend_from_slice(&piece[..n]).is_err() {
                    return Err(TextFault::OutOfMemory);
                }
            }
            Got::Ended => return Ok(text),
            Got::Failed => return Err(TextFault::ReadFault),
        }
    }
}
