// Why a text gives no configuration.
use thiserror::Error;

/// Why a text gives no configuration.
#[derive(Clone, Copy, Debug, PartialEq, Eq, Error)]
pub enum ConfigFault {
    /// The number of the first line that may not stand where it stands. Lines count from 1, and those that are skipped count too.
    /// If no device is stated and each line is good, it is the number after the last line.
    #[error("line {0} is not allowed where it stands")]
    Line(u32),
    #[error("out of memory")]
    OutOfMemory,
}
