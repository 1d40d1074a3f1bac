// The memory of a run.
ghost use Rattle.std.specs.Prelude.{◌≡◌, length, IfOk};
ghost use Rattle.af_cli.specs.Sizes.{greatest_play};

use af_cli::GREATEST_PLAY;
use af_time::OutOfMemory;
use std::alloc::Global;

/// What a run takes its memory from: where each connection takes its own, and room for the greatest play.
#[derive(Drop)]
pub struct Memory {
    pub alloc: Global,
    pub room: Vec<u8>,
}

impl Memory {
    pub fn new(alloc: Global) -> Result<Memory, OutOfMemory>
        ensures { IfOk result (λ memory. length memory.room.items ≡ greatest_play) }
    {
        let room = vec![in alloc; 0u8; GREATEST_PLAY]?;
        Ok(Memory { alloc, room })
    }
}
