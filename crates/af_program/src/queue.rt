// A queue of bytes.
// Layout: one vector, whose room is taken once. Its first byte is the next to leave, and the bytes that stay move to the front.
ghost use Rattle.std.specs.Prelude.{◌≡◌, ◌+◌, ◌≤◌, [], ◌++◌, length, drop, IfOk};

use af_time::OutOfMemory;
use std::alloc::Global;
use std::marker::Model;

/// Bytes in order, at most `ROOM` of them: those that a program gave, until they are used, or those that it is owed, until it
/// takes them.
#[derive(Drop)]
pub struct Queue<const ROOM: usize> {
    bytes: Vec<u8>,
}

impl<const ROOM: usize> Model for Queue<ROOM> {
    ghost use Rattle.std.specs.Prelude.{List, ℕ, ◌≤◌, vec_len, vec_capacity};

    ghost Value = { List ℕ };

    ghost view = { λ q. q.bytes.items };

    ghost invariant = { λ q. (vec_len q.bytes ≤ ROOM) × (ROOM ≤ vec_capacity q.bytes) };
}

impl<const ROOM: usize> Queue<ROOM> {
    /// No bytes yet. All room is taken here: no other call takes memory.
    pub fn new(alloc: Global) -> Result<Queue<ROOM>, OutOfMemory>
        ensures { IfOk result (λ queue. queue ≡ []) }
    {
        Ok(Queue {
            bytes: Vec::with_capacity(alloc, ROOM)?,
        })
    }

    /// All bytes, in order.
    pub fn as_slice(&self) -> &[u8]
        ensures bytes { result.now ≡ self.now }
        ensures bound { length self.now ≤ ROOM }
    {
        self.bytes.as_slice()
    }

    /// Puts more bytes at the end, for which there is room.
    pub fn append(&mut self, more: &[u8])
        requires { length self.old + length more.now ≤ ROOM }
        ensures { self.new ≡ self.old ++ more.now }
    {
        let _ = self.bytes.extend_from_slice(more);
    }

    /// Takes so many bytes from the front, at most as many as there are.
    pub fn drop_front(&mut self, count: usize)
        requires { count ≤ length self.old }
        ensures { self.new ≡ drop count self.old }
    {
        self.bytes.drain(..count);
    }

    /// Takes all bytes from it.
    pub fn clear(&mut self)
        ensures { self.new ≡ [] }
    {
        self.bytes.clear();
    }
}
