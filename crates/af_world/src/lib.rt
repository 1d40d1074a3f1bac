//! What a server lives in: its world of links and devices, what happens there, the devices and steps of a script, and how the
//! outside that a script states answers.
#![tactic(auto)]

mod card_kind;
mod happening;
pub mod laws;
mod lifecycle;
mod live;
mod script;
mod silence;
mod world;

pub use af_io::{Bytes, Put};
pub use card_kind::{CardKind, MOST_CARD_RESTARTS};
pub use happening::{Happening, ReadGot, Wake, Why};
pub use lifecycle::{Lifecycle, ToldKind};
pub use live::{Kind, LineProgram, Live, Ready, Waited};
pub use script::{Config, DeviceSpec, Step, has_line};
pub use silence::silent_byte;
pub use world::{LinkGot, LinkTook, World};
