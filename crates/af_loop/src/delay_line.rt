// The delay line of a device that hears itself.
// Layout: a ring of bytes. What is emitted goes in at its back, and what is captured comes out at its front. Between two ticks it
// is full.
ghost use Rattle.std.specs.Prelude.{◌≡◌, IfOk};
ghost use Rattle.af_loop.specs.DelayLine.{delay_frames, silent_line, Captures, Emits};

use af_io::Put;
use af_time::OutOfMemory;
use circular_buffer::HeapCircularBuffer;
use std::alloc::Global;
use std::marker::Model;

/// So many times in a second the sound of such a device comes back.
const DELAYS_A_SECOND: u32 = 40;

/// The frames from an emit to the capture of the same sound, at this rate.
pub fn delay_frames(rate: u32) -> u32
    ensures { result ≡ delay_frames rate }
{
    rate / DELAYS_A_SECOND
}

/// What was emitted and is not captured yet. All its memory is taken when it is made.
#[derive(Drop)]
pub struct DelayLine {
    held: HeapCircularBuffer<u8>,
}

impl Model for DelayLine {
    ghost use Rattle.af_loop.specs.DelayLine.{DelayState};

    ghost Value = { DelayState };

    ghost view = { λ line. record { held = line.held.items; delay = line.held.capacity } };
}

impl DelayLine {
    /// A delay of so many bytes, which are silence at first.
    pub fn new(alloc: Global, delay: usize, silent: u8) -> Result<DelayLine, OutOfMemory>
        ensures { IfOk result (λ line. line ≡ silent_line delay silent) }
    {
        let mut held = HeapCircularBuffer::with_capacity(alloc, delay)?;
        let silence = vec![in alloc; silent; delay]?;
        held.fill_from_slice(silence.as_slice());
        Ok(DelayLine { held })
    }

    /// Captures as many bytes as there is room for, the oldest first.
    pub fn capture(&mut self, into: &mut [u8]) -> Put
        ensures { Captures result self.old into.new self.new }
    {
        if into.len() > self.held.len() {
            return Put::Failed;
        }
        self.held.read_into(into);
        Put::Done
    }

    /// Takes all of its sound.
    pub fn emit(&mut self, sound: &[u8]) -> Put
        ensures { Emits result self.old sound.now self.new }
    {
        if sound.len() > self.held.capacity() - self.held.len() {
            return Put::Failed;
        }
        self.held.fill_from_slice(sound);
        Put::Done
    }
}
