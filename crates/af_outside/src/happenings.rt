// The happenings of a tape's calls, for its log: copies of the bytes that they moved, with the answer.
ghost use Rattle.std.specs.Prelude.{◌≡◌, ◌≤◌, length, IfOk};
ghost use Rattle.af_limits.specs.Limits.{output_room};
ghost use Rattle.af_world.specs.declared.happening.Happening.TheVariants.{Read, Wrote, Captured, Emitted, Hooked};
ghost use Rattle.af_world.specs.World.{got_of, took_of, captured_of, is_done, LinkGotFits, TookFits};

use crate::{Bytes, Happening, LinkGot, LinkTook, Put, ReadGot};
use af_time::OutOfMemory;
use std::alloc::Global;

// What a read of a link did, of the slice that was read into.
pub(crate) fn read_of(
    alloc: Global,
    link: u8,
    got: LinkGot,
    into: &[u8],
) -> Result<Happening, OutOfMemory>
    requires { LinkGotFits got (length into.now) }
    ensures { IfOk result (λ happening. happening ≡ Read link (got_of got into.now)) }
{
    let got = match got {
        LinkGot::Bytes(count) => ReadGot::Given(Bytes::copied(alloc, &into[..count])?),
        LinkGot::NotYet => ReadGot::NotYet,
        LinkGot::Ended => ReadGot::Ended,
        LinkGot::Failed => ReadGot::Failed,
    };
    Ok(Happening::Read { link, got })
}

// What a write to a link did, of the piece that was offered.
pub(crate) fn write_of(
    alloc: Global,
    link: u8,
    took: LinkTook,
    piece: &[u8],
) -> Result<Happening, OutOfMemory>
    requires bound { length piece.now ≤ output_room }
    requires fits { TookFits took (length piece.now) }
    ensures { IfOk result (λ happening. happening ≡ Wrote link (length piece.now) (took_of took piece.now)) }
{
    let taken = match took {
        LinkTook::Took(count) => Some(Bytes::copied(alloc, &piece[..count])?),
        LinkTook::Failed => None,
    };
    Ok(Happening::Wrote {
        link,
        offered: piece.len() as u32,
        took: taken,
    })
}

// What a capture did, of the slice that was captured into.
pub(crate) fn capture_of(
    alloc: Global,
    device: u8,
    frames: u32,
    put: Put,
    into: &[u8],
) -> Result<Happening, OutOfMemory>
    ensures { IfOk result (λ happening. happening ≡ Captured device frames (captured_of put into.now)) }
{
    let got = match put {
        Put::Done => Some(Bytes::copied(alloc, into)?),
        Put::Failed => None,
    };
    Ok(Happening::Captured {
        device,
        frames,
        got,
    })
}

// What an emit of a sound did.
pub(crate) fn emit_of(
    alloc: Global,
    device: u8,
    sound: &[u8],
    put: Put,
) -> Result<Happening, OutOfMemory>
    ensures { IfOk result (λ happening. happening ≡ Emitted device sound.now (is_done put)) }
{
    Ok(Happening::Emitted {
        device,
        sound: Bytes::copied(alloc, sound)?,
        done: put == Put::Done,
    })
}

// What a hook call did.
pub(crate) fn hook_of(device: u8, off: bool, put: Put) -> Happening
    ensures { result ≡ Hooked device off (is_done put) }
{
    Happening::Hooked {
        device,
        off,
        done: put == Put::Done,
    }
}
