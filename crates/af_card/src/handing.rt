// The sound of a tick goes on to a program in whole frames.
ghost use Rattle.std.specs.Prelude.{◌≡◌, ◌≤◌, ◌<◌, ◌+◌, [], length};
ghost use Rattle.af_limits.specs.Limits.{longest_capture};
ghost use Rattle.af_program.specs.Acts.{RunsWhereTold};
ghost use Rattle.af_card.specs.Between.{IsWhole, PassesOn};
ghost use Rattle.af_card.specs.Lost.{without_room};

use af_limits::LONGEST_CAPTURE;
use af_program::{Program, Queue, Took};

/// Gives a program a sound, as far as it takes it. If it took a part of a frame, it is owed the rest.
pub(crate) fn pass_on<P: Program>(
    program: &mut P,
    sound: &[u8],
    frame_bytes: usize,
    owed: &mut Queue<LONGEST_CAPTURE>,
) -> Took
    requires some { 0 < length sound.now }
    requires bound { length sound.now ≤ longest_capture }
    requires frames { 1 ≤ frame_bytes }
    requires none { owed.old ≡ [] }
    requires runs { RunsWhereTold (P.acts program.old) }
    ensures { PassesOn result sound.now frame_bytes owed.new (P.acts program.old) (P.acts program.new) }
{
    let took = program.give(sound);
    if let Took::Bytes(count) = took {
        let rest = rest_of_frame(count, frame_bytes).min(sound.len() - count);
        owed.append(&sound[count..count + rest]);
    }
    took
}

/// How many bytes of a sound found no room: all but those that were taken and those that are owed.
pub(crate) fn without_room(took: Took, sound: usize, owed: usize) -> usize
    ensures { result ≡ without_room took sound owed }
{
    match took {
        Took::Bytes(count) => sound.saturating_sub(count).saturating_sub(owed),
        Took::NoRoom | Took::Ended => sound,
    }
}

/// How many bytes are missing to whole frames.
fn rest_of_frame(count: usize, frame_bytes: usize) -> usize
    requires { 1 ≤ frame_bytes }
    ensures less { result < frame_bytes }
    ensures whole { IsWhole frame_bytes (count + result) }
{
    let part = count % frame_bytes;
    if part == 0 { 0 } else { frame_bytes - part }
}
