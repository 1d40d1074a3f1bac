// The session of a link.
// Layout: three blocks, taken once. Input is a vector whose first bytes may be used already (`unread.rt`). They go when room is
// needed or all are used, so what is unread is one piece, and read in place. Output is a ring, which takes bytes at its end,
// gives up those that went at its front, moves none, and may wrap. Once all went, its front stays where it was. A world is
// offered one piece, so what wraps is copied into the third block, once for as long as nothing is pushed. Contracts see two
// lists, the rest and what is pending, and not where a byte is.
ghost use Rattle.std.specs.Prelude.{◌≡◌, ◌+◌, ◌≤◌, [], ◌++◌, length, drop, vec_capacity, IfOk, IfSome};
ghost use Rattle.std.specs.Borrow.{sem};
ghost use Rattle.af_limits.specs.Limits.{most_unread, output_room};
ghost use Rattle.af_session.specs.Flows.{no_flow, IsFlow};

use crate::unread::Unread;
use af_limits::OUTPUT_ROOM;
use af_time::OutOfMemory;
use circular_buffer::HeapCircularBuffer;
use std::alloc::Global;
use std::marker::Model;

/// The bytes of a link. Clauses see two lists: the rest, at most 32768 bytes that came in and are not used yet, and what
/// is pending, at most 65536 bytes that are to go out. All its memory is taken when it is made.
#[derive(Drop)]
pub struct Session {
    input: Unread,
    output: HeapCircularBuffer<u8>,
    // what was pending when it was copied, in one piece
    piece: Vec<u8>,
    // how many bytes of the piece went since, if the rest of it is what is pending
    gone: Option<usize>,
}

impl Model for Session {
    ghost use Rattle.std.specs.Prelude.{◌≡◌, ◌≤◌, drop, length, vec_capacity, IfSome};
    ghost use Rattle.af_limits.specs.Limits.{output_room};
    ghost use Rattle.af_session.specs.Flows.{flow, Flow, IsFlow};

    ghost Value = { Flow };

    ghost view = { λ s. flow s.input s.output.items };

    ghost invariant = { λ s. IsFlow (flow s.input s.output.items) × (s.output.capacity ≡ output_room)
        × (output_room ≤ vec_capacity s.piece)
        × IfSome s.gone (λ gone. (gone ≤ length s.piece.items) × (drop gone s.piece.items ≡ s.output.items)) };
}

impl Session {
    ghost use Rattle.af_session.specs.Lending.{keeps};

    /// No bytes.
    pub fn new(alloc: Global) -> Result<Session, OutOfMemory>
        ensures { IfOk result (λ session. session ≡ no_flow) }
    {
        let input = Unread::new(alloc)?;
        let output = HeapCircularBuffer::with_capacity(alloc, OUTPUT_ROOM)?;
        let piece = Vec::with_capacity(alloc, OUTPUT_ROOM)?;
        Ok(Session {
            input,
            output,
            piece,
            gone: None,
        })
    }

    /// Bytes came in, after those that are not used yet. There has to be room for them.
    pub fn take_in(&mut self, bytes: &[u8])
        requires { length self.old.rest + length bytes.now ≤ most_unread }
        ensures taken { self.new ≡ record self.old { rest = self.old.rest ++ bytes.now } }
        ensures bounds { IsFlow self.new }
    {
        self.input.append(bytes);
    }

    /// The bytes that came in and are not used yet.
    pub fn rest(&self) -> &[u8]
        ensures rest { result.now ≡ self.now.rest }
        ensures bounds { IsFlow self.now }
    {
        self.input.as_slice()
    }

    /// The first n of the bytes that came in are used.
    pub fn drop_front(&mut self, n: usize)
        requires { n ≤ length self.old.rest }
        ensures dropped { self.new ≡ record self.old { rest = drop n self.old.rest } }
        ensures bounds { IsFlow self.new }
    {
        self.input.drop_front(n);
    }

    /// More bytes are to go out, after those that are. There has to be room for them.
    pub fn push_out(&mut self, bytes: &[u8])
        requires { length self.old.pending + length bytes.now ≤ output_room }
        ensures pushed { self.new ≡ record self.old { pending = self.old.pending ++ bytes.now } }
        ensures bounds { IsFlow self.new }
    {
        self.output.fill_from_slice(bytes);
        self.gone = None;
    }

    /// How many bytes are to go out.
    pub fn pending_len(&self) -> usize
        ensures len { result ≡ length self.now.pending }
        ensures bounds { IsFlow self.now }
    {
        self.output.len()
    }

    /// The bytes that are to go out, in place, if they are one piece: a ring that wraps has two.
    pub fn pending_piece(&self) -> Option<&[u8]>
        ensures piece { IfSome result (λ piece. piece.now ≡ self.now.pending) }
        ensures bounds { IsFlow self.now }
    {
        let (first, second) = self.output.as_slices();
        if second.is_empty() { Some(first) } else { None }
    }

    /// The bytes that are to go out, in one piece. It copies them, unless it did so already and none were pushed since, and
    /// changes nothing.
    pub fn pending(&mut self) -> &[u8]
        ensures* kept { sem 𝓛 (keeps self.entry) }
        ensures pending { result.now ≡ self.old.pending }
        ensures bounds { IsFlow self.old }
    {
        let gone = match self.gone {
            Some(gone) => gone,
            None => {
                copy_all(&self.output, &mut self.piece);
                self.gone = Some(0);
                0
            }
        };
        &self.piece[gone..]
    }

    /// The first n of the bytes that are to go out went.
    pub fn took(&mut self, n: usize)
        requires { n ≤ length self.old.pending }
        ensures went { self.new ≡ record self.old { pending = drop n self.old.pending } }
        ensures bounds { IsFlow self.new }
    {
        let left = self.output.len() - n;
        if left == 0 {
            // The front of the ring stays where it is, so a link whose client keeps up touches little of its memory.
            self.output.truncate_back(0);
            self.gone = None;
            return;
        }
        self.output.truncate_front(left);
        self.gone = match self.gone {
            Some(gone) => Some(gone + n),
            None => None,
        };
    }

    /// No bytes any more, as of a link that is dropped or opened again.
    pub fn clear(&mut self)
        ensures { self.new ≡ no_flow }
    {
        self.input.clear();
        self.output.clear();
        self.gone = None;
    }
}

// Appends bytes. There is room for them.
fn append(onto: &mut Vec<u8>, bytes: &[u8])
    requires { length onto.old.items + length bytes.now ≤ vec_capacity onto.old }
    ensures items { onto.new.items ≡ onto.old.items ++ bytes.now }
    ensures capacity { vec_capacity onto.old ≤ vec_capacity onto.new }
{
    let _ = onto.extend_from_slice(bytes);
}

// Copies the bytes of a ring into one piece. There is room for them.
fn copy_all(from: &HeapCircularBuffer<u8>, to: &mut Vec<u8>)
    requires { length from.now.items ≤ vec_capacity to.old }
    ensures items { to.new.items ≡ from.now.items }
    ensures capacity { vec_capacity to.old ≤ vec_capacity to.new }
{
    to.clear();
    let (first, second) = from.as_slices();
    append(to, first);
    append(to, second);
}
