// Why a text gives no script.
use thiserror::Error;

/// Why a text gives no script.
#[derive(Clone, Copy, Debug, PartialEq, Eq, Error)]
pub enum ScriptFault {
    /// The number of the first line that is not allowed where it stands. Lines count from 1, and those that are skipped count
    /// too. If no device is stated it is the first line of another kind, or else the number after the last line.
    #[error("line {0} is not allowed where it stands")]
    Line(u32),
    #[error("out of memory")]
    OutOfMemory,
}
