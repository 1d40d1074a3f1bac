// The acts of a program, made of what its calls were handed.
ghost use Rattle.std.specs.Prelude.{◌≡◌, length, IfOk};
ghost use Rattle.af_io.specs.Observed.{Appended};
ghost use Rattle.af_program.specs.Acts.{launched, gave, offered, took, captured, emitted, gave_acts, took_acts, GaveFits, TookFits};
ghost use Rattle.af_program.specs.Notes.{told_acts, told_of};
ghost use Rattle.af_process.specs.Acts.{words_of};

use crate::{Act, Gave, Launched, Took};
use af_io::{Bytes, Notes};
use af_process::{Words, copied_words};
use af_time::OutOfMemory;
use std::alloc::Global;

// The act of a start.
pub(crate) fn launched(at: u64, words: &Words, came_to: Launched) -> Act
    ensures { told_of result ≡ launched at (words_of words.now) came_to }
{
    Act::Launched {
        at,
        words: copied_words(words),
        came_to,
    }
}

// Notes a take that left these bytes in its room.
pub(crate) fn note_take(notes: &mut Notes<Act>, into: &[u8], came: Gave)
    requires bound { GaveFits came (length into.now) }
    ensures acts { Appended (told_acts notes.old) (gave_acts came into.now) (told_acts notes.new) }
{
    notes.add(Ok(Act::Asked {
        room: into.len(),
        came,
    }));
    if let Gave::Bytes(count) = came {
        let act = gave(notes.allocator(), &into[..count]);
        notes.add(act);
    }
}

// Notes a give of these bytes.
pub(crate) fn note_give(notes: &mut Notes<Act>, bytes: &[u8], answer: Took)
    requires bound { TookFits answer (length bytes.now) }
    ensures acts { Appended (told_acts notes.old) (took_acts answer bytes.now) (told_acts notes.new) }
{
    let act = offered(notes.allocator(), bytes, answer);
    notes.add(act);
    if let Took::Bytes(count) = answer {
        let act = took(notes.allocator(), &bytes[..count]);
        notes.add(act);
    }
}

// The act of bytes that the program gave.
fn gave(alloc: Global, bytes: &[u8]) -> Result<Act, OutOfMemory>
    ensures { IfOk result (λ act. told_of act ≡ gave bytes.now) }
{
    Ok(Act::Gave {
        bytes: Bytes::copied(alloc, bytes)?,
    })
}

// The act of a give of these bytes.
fn offered(alloc: Global, bytes: &[u8], answer: Took) -> Result<Act, OutOfMemory>
    ensures { IfOk result (λ act. told_of act ≡ offered bytes.now answer) }
{
    Ok(Act::Offered {
        bytes: Bytes::copied(alloc, bytes)?,
        answer,
    })
}

// The act of bytes that the program took.
fn took(alloc: Global, bytes: &[u8]) -> Result<Act, OutOfMemory>
    ensures { IfOk result (λ act. told_of act ≡ took bytes.now) }
{
    Ok(Act::Took {
        bytes: Bytes::copied(alloc, bytes)?,
    })
}

// The act of a sound that was captured.
pub(crate) fn captured(alloc: Global, sound: &[u8]) -> Result<Act, OutOfMemory>
    ensures { IfOk result (λ act. told_of act ≡ captured sound.now) }
{
    Ok(Act::Captured {
        sound: Bytes::copied(alloc, sound)?,
    })
}

// The act of a sound that was emitted.
pub(crate) fn emitted(alloc: Global, sound: &[u8]) -> Result<Act, OutOfMemory>
    ensures { IfOk result (λ act. told_of act ≡ emitted sound.now) }
{
    Ok(Act::Emitted {
        sound: Bytes::copied(alloc, sound)?,
    })
}
