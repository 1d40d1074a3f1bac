//! The tool `meter`: it writes how loud the sound of a device is, interval after interval, or when it becomes quiet.
#![tactic(auto)]

mod interval;
mod job;
mod level;
mod line;
mod metering;
mod options;
mod plan;
mod row;
mod run;
mod tell;

pub use job::{MeterJob, Quiet};
pub use metering::meter;
pub use options::{MeterCall, call_of, meter_arguments, names_meter};
pub use run::meter_run;
