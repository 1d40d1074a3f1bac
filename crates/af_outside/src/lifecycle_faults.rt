// Which of the listens, attaches and waits of a tape are to fail.

/// What is to fail: every listen or none, the attaches of one device or none, and the wait with a number, counted from 0, or
/// none.
#[derive(Clone, Copy, Debug, PartialEq, Eq, Default)]
pub struct LifecycleFaults {
    pub listen: bool,
    pub attach: Option<u8>,
    pub wait: Option<u32>,
}
