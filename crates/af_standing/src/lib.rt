//! How the devices of a server stand: what is asked for it, its text, and the tool that lists all devices.
#![tactic(auto)]

mod ask;
mod controls_report;
mod line;
mod lister;

pub use ask::controls_report_of;
pub use controls_report::{ControlsReport, write_controls_report};
pub use lister::list;
