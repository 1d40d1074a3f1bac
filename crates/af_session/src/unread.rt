// The input of a link: bytes come in at the end and are used from the front.
// Layout: one vector, with room for 32768 bytes that is taken once. The first `start` bytes are used. They leave it when room
// is needed, or all are used.
ghost use Rattle.std.specs.Prelude.{◌≡◌, ◌+◌, ◌≤◌, [], ◌++◌, length, drop, vec_capacity, IfOk};
ghost use Rattle.af_limits.specs.Limits.{most_unread};

use af_limits::MOST_UNREAD;
use af_time::OutOfMemory;
use std::alloc::Global;
use std::marker::Model;

#[derive(Drop)]
pub struct Unread {
    bytes: Vec<u8>,
    // how many bytes at the front are used
    start: usize,
}

impl Model for Unread {
    ghost use Rattle.std.specs.Prelude.{List, ℕ, ◌≤◌, vec_len, vec_capacity, drop};
    ghost use Rattle.af_limits.specs.Limits.{most_unread};

    ghost Value = { List ℕ };

    ghost view = { λ u. drop u.start u.bytes.items };

    ghost invariant = { λ u. (u.start ≤ vec_len u.bytes) × (vec_len u.bytes ≤ most_unread)
        × (most_unread ≤ vec_capacity u.bytes) };
}

impl Unread {
    pub fn new(alloc: Global) -> Result<Unread, OutOfMemory>
        ensures { IfOk result (λ u. u ≡ []) }
    {
        let bytes = Vec::with_capacity(alloc, MOST_UNREAD)?;
        Ok(Unread { bytes, start: 0 })
    }

    pub fn as_slice(&self) -> &[u8]
        ensures bytes { result.now ≡ self.now }
        ensures bound { length self.now ≤ most_unread }
    {
        &self.bytes.as_slice()[self.start..]
    }

    pub fn append(&mut self, more: &[u8])
        requires { length self.old + length more.now ≤ most_unread }
        ensures { self.new ≡ self.old ++ more.now }
    {
        if self.bytes.len() + more.len() > MOST_UNREAD {
            make_room(&mut self.bytes, &mut self.start);
        }
        let _ = self.bytes.extend_from_slice(more);
    }

    pub fn drop_front(&mut self, n: usize)
        requires { n ≤ length self.old }
        ensures { self.new ≡ drop n self.old }
    {
        self.start += n;
        // The next bytes stand at the front again, so a link that is read in time touches little of its memory.
        if self.start == self.bytes.len() {
            self.clear();
        }
    }

    pub fn clear(&mut self)
        ensures { self.new ≡ [] }
    {
        self.bytes.clear();
        self.start = 0;
    }
}

// Moves what is unread to the front. It is kept out of the code of an append, which mostly finds room.
#[inline(never)]
fn make_room(bytes: &mut Vec<u8>, start: &mut usize)
    requires { start.old ≤ length bytes.old.items }
    ensures unread { bytes.new.items ≡ drop start.old bytes.old.items }
    ensures start { start.new ≡ 0 }
    ensures capacity { vec_capacity bytes.old ≤ vec_capacity bytes.new }
{
    bytes.drain(..*start);
    *start = 0;
}
