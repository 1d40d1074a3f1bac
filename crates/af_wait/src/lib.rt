//! Requests that wait until a device's time has come, in the order in which they began to wait.
#![tactic(auto)]

mod list;

pub use list::Waiting;

/// A request that waits. A link has at most one.
#[derive(Clone, Copy, Debug, Default, PartialEq, Eq)]
pub struct Wait {
    /// The link whose request it is.
    pub link: u8,
    /// The device whose time it waits for.
    pub device: u8,
    /// The frames that are left until it is due: 32 bits without a sign, since a record may be due
    /// 2^31 frames or more from now.
    pub left: u32,
}
