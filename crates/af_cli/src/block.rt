// The blocks in which a tool plays, records and passes.
ghost use Rattle.std.specs.Prelude.{◌≡◌, ◌<◌, ◌≤◌, ◌*◌};
ghost use Rattle.af_cli.specs.Sizes.{block_frames, greatest_block};

/// The greatest block, in bytes: 4000 frames of 4 bytes.
pub const GREATEST_BLOCK: usize = 16000;

/// The greatest play, in bytes: the greatest block, and one frame more, of two samples of 4 bytes.
pub const GREATEST_PLAY: usize = GREATEST_BLOCK + 8;

/// How many frames a block has, each of so many bytes: as many as are asked for, or else as many as the greatest block has.
pub fn block_frames(asked: u32, frame: usize) -> u32
    requires { 0 < frame }
    ensures value { result ≡ block_frames asked frame }
    ensures few { result ≤ asked }
    ensures fits { result * frame ≤ greatest_block }
{
    asked.min((GREATEST_BLOCK / frame) as u32)
}
