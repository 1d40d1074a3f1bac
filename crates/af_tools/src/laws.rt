//! Laws of the tools, each the contract of a function that does nothing.
ghost use Rattle.af_tools.specs.Pacing.{StaysNear};
ghost use Rattle.af_tools.specs.Play.{HeardAsIntended};

/// What is played is heard as it was intended. Suppose that each block of a source has an entry of its own among the plays that a
/// device accepted, by its start, and that no other entry covers these times. Then the device plays the samples of the
/// source's whole frames, under the gain.
pub fn heard_as_intended_law()
    ensures { HeardAsIntended }
{}

/// With a bound on how far ahead it is sent, a block is near to what the device told. Suppose that the block has this time, and
/// the last reply told that one. Where no frame is waited for, the block begins less than so many frames after the told time; and
/// a frame that is waited for is exactly so many before the block.
pub fn stays_near_law()
    ensures { StaysNear }
{}
