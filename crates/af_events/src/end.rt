// How the tool events ended.
use af_toolkit::ToolEnd;

/// How the tool events ended.
#[derive(Clone, Copy, Debug, PartialEq, Eq)]
pub enum EventsEnd {
    /// The device that was named has no telephone line, or none of all devices has one; then this is 0.
    NoLine { device: u8 },
    /// As another tool may end.
    Tool(ToolEnd),
}
