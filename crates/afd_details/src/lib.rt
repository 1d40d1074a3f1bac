//! What the server's program says after the line with its end, where details are wanted: which word is wrong, and what may stand
//! there.
#![tactic(auto)]

mod config_line;
mod finding;
mod kept_source;
mod line_words;
mod page;
mod script_line;
mod slot;
mod stated;
mod tell;
mod usage;
mod wanted;

pub use kept_source::KeptSource;
pub use page::{Page, page_asked};
pub use tell::{tell_config_fault, tell_long_config, tell_reason, tell_script_fault};
pub use usage::{tell_not_text, tell_usage};
pub use wanted::wants_log;
