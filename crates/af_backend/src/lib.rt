//! The devices of a server on real time, each with its backend: silence, two files, a delay line by which it hears itself, the
//! codec, or a program that the device goes by; and rounds over all of them.
#![tactic(auto)]

mod attached_device;
mod card_device;
mod codec_device;
mod devices;
mod file_device;
pub mod laws;
mod round;
mod source;

pub use devices::{Devices, NewDevice, refusal};
pub use round::{LONGEST_STEP_NANOS, Round};
