// Writing a message piece by piece, each after the one before it.
ghost use Rattle.std.specs.Prelude.{◌≡◌, ◌≤◌, ◌+◌, ◌++◌, length, take, replicate};

/// Writes a piece at `at`, and answers where it ends.
pub fn put(out: &mut [u8], at: usize, piece: &[u8]) -> usize
    requires { at + length piece.now ≤ length out.old }
    ensures end { result ≡ at + length piece.now }
    ensures bytes { take result out.new ≡ take at out.old ++ piece.now }
{
    let end = at + piece.len();
    out[at..end].copy_from_slice(piece);
    end
}

/// Writes n zeros at `at`, and answers where they end.
pub fn put_zeros(out: &mut [u8], at: usize, count: usize) -> usize
    requires { at + count ≤ length out.old }
    ensures end { result ≡ at + count }
    ensures bytes { take result out.new ≡ take at out.old ++ replicate count 0 }
{
    let end = at + count;
    out[at..end].fill(0);
    end
}
