// The acts of a spawner, made of what its calls were handed.
ghost use Rattle.std.specs.Prelude.{◌≡◌, IfOk};
ghost use Rattle.af_process.specs.Acts.{told_of, noted, began, given, words_of};

use crate::{Act, BeganGot, Words, copied_words};
use af_io::Bytes;
use af_time::OutOfMemory;
use std::alloc::Global;

// The act of a sound that is noted.
pub(crate) fn noted(alloc: Global, sound: &[u8]) -> Result<Act, OutOfMemory>
    ensures { IfOk result (λ act. told_of act ≡ noted sound.now) }
{
    Ok(Act::Noted {
        sound: Bytes::copied(alloc, sound)?,
    })
}

// The act of a piece that a child was offered.
pub(crate) fn given(alloc: Global, child: u32, bytes: &[u8], done: bool) -> Result<Act, OutOfMemory>
    ensures { IfOk result (λ act. told_of act ≡ given child bytes.now done) }
{
    Ok(Act::Given {
        child,
        offered: Bytes::copied(alloc, bytes)?,
        done,
    })
}

// The act of a start.
pub(crate) fn began(words: &Words, got: BeganGot) -> Act
    ensures { told_of result ≡ began (words_of words.now) got }
{
    Act::Began {
        words: copied_words(words),
        got,
    }
}
