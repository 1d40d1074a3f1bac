//! What both programs tell of themselves: the version, the words that ask for it and for help, and how such a page is written.
#![tactic(auto)]

mod about;
mod page;
mod stamp;

pub use about::{About, asked_about};
pub use page::{PageFault, page_text, write_page};
pub use stamp::write_version;

/// The version of both programs, which is that of the package too.
pub const VERSION: &str = "0.4";
