// Bytes on the heap, which contracts see as a list.
ghost use Rattle.std.specs.Prelude.{◌≡◌, length, take, IfOk};

use af_time::OutOfMemory;
use std::alloc::Global;
use std::marker::Model;

/// A list of bytes.
#[derive(Drop)]
pub struct Bytes {
    kept: Vec<u8>,
}

impl Model for Bytes {
    ghost use Rattle.std.specs.Prelude.{List, ℕ};

    ghost Value = { List ℕ };

    ghost view = { λ b. b.kept.items };
}

impl Bytes {
    /// A copy of these bytes.
    pub fn copied(alloc: Global, bytes: &[u8]) -> Result<Bytes, OutOfMemory>
        ensures { IfOk result (λ copy. copy ≡ bytes.now) }
    {
        let kept = Vec::from_slice(alloc, bytes)?;
        Ok(Bytes { kept })
    }

    /// The bytes.
    pub fn as_slice(&self) -> &[u8]
        ensures { result.now ≡ self.now }
    {
        self.kept.as_slice()
    }
}

/// Copies the first of these bytes, as many as there are and fit, and gives their number.
pub fn copy_first(bytes: &[u8], into: &mut [u8]) -> usize
    ensures count { result ≡ length (take (length into.old) bytes.now) }
    ensures copied { take result into.new ≡ take (length into.old) bytes.now }
{
    let count = bytes.len().min(into.len());
    into[..count].copy_from_slice(&bytes[..count]);
    count
}
