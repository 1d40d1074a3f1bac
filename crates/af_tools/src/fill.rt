// Blocks of a source's bytes.
ghost use Rattle.std.specs.Prelude.{◌≡◌, ◌<◌, ◌≤◌, length, take, Err, IfOk, IsErrOf};
ghost use Rattle.std.specs.declared.option.Option.TheVariants.{Some};
ghost use Rattle.af_io.specs.Observed.{CountsFault, Consumed};
ghost use Rattle.af_io.specs.Flow.{ConsumedWithin, IsSpent};
ghost use Rattle.af_tools.specs.Reading.{fill_end, ConsumedAbove, FillsBlock};
ghost use Rattle.af_tools.specs.Sounds.{stated_after, FitsStated};

use af_io::{Got, Source};
use af_toolkit::ToolEnd;

/// Why a source gave no block.
#[derive(Clone, Copy, Debug, PartialEq, Eq)]
pub enum FillFault {
    ReadFault,
    /// More came than was allowed.
    TooLong,
}

impl From<FillFault> for ToolEnd {
    ghost from_gives = { λ fault end. end ≡ fill_end fault };

    /// The end of a tool whose source gave no block.
    fn from(fault: FillFault) -> ToolEnd {
        match fault {
            FillFault::ReadFault => ToolEnd::ReadFault,
            FillFault::TooLong => ToolEnd::TooLong,
        }
    }
}

// How many bytes of a sound are left after `count` more.
pub fn still_left(left: Option<u32>, count: usize) -> Option<u32>
    requires { FitsStated left count }
    ensures { result ≡ stated_after left count }
{
    match left {
        Some(left) => Some(left - count as u32),
        None => None,
    }
}

/// Reads the next block of a sound of which so many bytes are left, if that is stated: how many bytes the block has. At most n
/// bytes are allowed.
pub fn fill_stated<S: Source>(
    source: &mut S,
    block: &mut [u8],
    left: Option<u32>,
    allowed: u64,
) -> Result<usize, FillFault>
    ensures room { length block.new ≡ length block.old }
    ensures fills { FillsBlock (length block.new) allowed left result block.new (S.left source.old) (S.left source.new) }
    ensures fault { CountsFault (IsErrOf result FillFault.ReadFault) (S.faults source.old) (S.faults source.new) }
{
    let room = match left {
        Some(left) => block.len().min(left as usize),
        None => block.len(),
    };
    fill_block(source, &mut block[..room], allowed)
}

// Reads until the block is full or the source has ended, and answers how many bytes the block has. More than `allowed` are
// refused.
fn fill_block<S: Source>(source: &mut S, block: &mut [u8], allowed: u64) -> Result<usize, FillFault>
    ensures given { IfOk result (λ n. Consumed (S.left source.old) (take n block.new) (S.left source.new)) }
    ensures within { IfOk result (λ n. (n ≤ length block.new) × (n ≤ allowed)) }
    ensures ended { IfOk result (λ n. n < length block.new → IsSpent (S.left source.new)) }
    ensures long { IsErrOf result FillFault.TooLong →
        ConsumedAbove allowed (length block.new) (S.left source.old) (S.left source.new) }
    ensures cut { IsErrOf result FillFault.ReadFault → ConsumedWithin allowed (S.left source.old) (S.left source.new) }
    ensures part { IsErrOf result FillFault.ReadFault →
        ConsumedWithin (length block.new) (S.left source.old) (S.left source.new) }
    ensures fault { CountsFault (IsErrOf result FillFault.ReadFault) (S.faults source.old) (S.faults source.new) }
{
    let mut filled = 0;
    while filled < block.len() {
        match source.read(&mut block[filled..]) {
            Got::Bytes(count) => {
                filled += count;
                if filled as u64 > allowed {
                    return Err(FillFault::TooLong);
                }
            }
            Got::Ended => return Ok(filled),
            Got::Failed => return Err(FillFault::ReadFault),
        }
    }
    Ok(filled)
}
