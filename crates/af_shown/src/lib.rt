//! Text that others gave, as it is shown on a terminal: nothing in it steers the terminal, and a long text is cut.
#![tactic(auto)]

mod piece;
mod plain;
mod shown;

pub use plain::is_plain;
pub use shown::Shown;
