// A program in memory: what it answers by its plan, and which acts it keeps.
ghost use Rattle.std.specs.Prelude.{◌≤◌};
ghost use Rattle.arrayvec.specs.ArrayVec.{array_vec_len};

use af_process::Words;
use af_program::{Act, Gave, Launched, MemProgram, Plan, Program, Took};
use arrayvec::ArrayString;
use std::alloc::Global;
use std::process::Abort;
use std::test::Fail;

// A call, and what it answers.
#[derive(Clone, Copy)]
enum Call {
    Start(u64, Launched),
    // With room for so many bytes, and the bytes that come.
    Take(usize, Gave, &'static [u8]),
    Give(&'static [u8], Took),
    End(u64),
    Tend,
    Captures(&'static [u8]),
    Emits(&'static [u8]),
}

// An act that is kept, without the words of a start.
#[derive(Clone, Copy)]
enum Kept {
    Launched(u64, Launched),
    Asked(usize, Gave),
    Gave(&'static [u8]),
    Offered(&'static [u8], Took),
    Took(&'static [u8]),
    Ended(u64),
    Captured(&'static [u8]),
    Emitted(&'static [u8]),
}

fn one_word() -> Words
    ensures { 1 ≤ array_vec_len result }
{
    let mut word = ArrayString::new();
    let _ = word.try_push_str("cat");
    let mut words = Words::new();
    words.push(word);
    words
}

fn takes_so(program: &mut MemProgram, room: usize, gave: Gave, bytes: &[u8]) -> bool {
    let mut all = [0; 8];
    if !program.runs() || room == 0 || room > 8 {
        return false;
    }
    program.take(&mut all[..room]) == gave && all.starts_with(bytes)
}

fn is_answered(alloc: Global, program: &mut MemProgram, call: &Call) -> bool {
    match call {
        Call::Start(at, launched) => {
            !program.runs() && program.start(alloc, *at, &one_word()) == *launched
        }
        Call::Take(room, gave, bytes) => takes_so(program, *room, *gave, bytes),
        Call::Give(bytes, took) => {
            program.runs() && !bytes.is_empty() && program.give(bytes) == *took
        }
        Call::End(at) => {
            let runs = program.runs();
            if runs {
                program.end(*at);
            }
            runs
        }
        Call::Tend => {
            program.tend(0);
            true
        }
        Call::Captures(sound) => {
            program.note_captured(sound);
            true
        }
        Call::Emits(sound) => {
            program.note_emitted(sound);
            true
        }
    }
}

fn is_kept(act: &Act, wanted: &Kept) -> bool {
    match (act, wanted) {
        (Act::Launched { at, came_to, .. }, Kept::Launched(moment, launched)) => {
            at == moment && came_to == launched
        }
        (Act::Asked { room, came }, Kept::Asked(wanted, gave)) => room == wanted && came == gave,
        (Act::Gave { bytes }, Kept::Gave(wanted)) => bytes.as_slice() == *wanted,
        (Act::Offered { bytes, answer }, Kept::Offered(wanted, took)) => {
            bytes.as_slice() == *wanted && answer == took
        }
        (Act::Took { bytes }, Kept::Took(wanted)) => bytes.as_slice() == *wanted,
        (Act::Ended { at }, Kept::Ended(moment)) => at == moment,
        (Act::Captured { sound }, Kept::Captured(wanted)) => sound.as_slice() == *wanted,
        (Act::Emitted { sound }, Kept::Emitted(wanted)) => sound.as_slice() == *wanted,
        _ => false,
    }
}

fn assert_played(
    rt: &impl Abort,
    alloc: Global,
    calls: &[Call],
    acts: &[Kept],
) -> Result<(), Fail> {
    let plan = Plan {
        fails: &[1],
        output: b"abcdefg",
        gives: &[Some(3), Some(0), Some(9), None, Some(9), Some(9)],
        takes: &[Some(2), Some(0), None],
    };
    let mut program = MemProgram::new(alloc, &plan)?;
    for (at, call) in calls.iter().enumerate() {
        let is_wanted = is_answered(alloc, &mut program, call);
        assert!(rt; is_wanted, "at {at}");
    }
    assert!(rt; program.tells() && program.acts().len() == acts.len());
    for (act, wanted) in program.acts().iter().zip(acts) {
        assert!(rt; is_kept(act, wanted));
    }
    Ok(())
}

#[test]
fn a_program_in_memory_plays_its_plan(rt: HostRuntime) -> Result<(), Fail> {
    let calls = [
        Call::Start(5, Launched::Runs),
        // as much as is stated, as there is room for, and as is left
        Call::Take(2, Gave::Bytes(2), b"ab"),
        Call::Take(4, Gave::NotYet, b""),
        Call::Take(4, Gave::Bytes(4), b"cdef"),
        Call::Take(4, Gave::Ended, b""),
        Call::Captures(b"c"),
        Call::Give(b"xyz", Took::Bytes(2)),
        Call::Give(b"z", Took::NoRoom),
        Call::Give(b"z", Took::Ended),
        Call::Emits(b"e"),
        Call::End(6),
        Call::Tend,
        Call::Start(7, Launched::Failed),
        Call::Start(8, Launched::Runs),
        Call::Take(4, Gave::Bytes(1), b"g"),
        Call::Take(4, Gave::NotYet, b""),
        // after all that is stated
        Call::Take(4, Gave::NotYet, b""),
        Call::Give(b"uvw", Took::Bytes(3)),
    ];
    let acts = [
        Kept::Launched(5, Launched::Runs),
        Kept::Asked(2, Gave::Bytes(2)),
        Kept::Gave(b"ab"),
        Kept::Asked(4, Gave::NotYet),
        Kept::Asked(4, Gave::Bytes(4)),
        Kept::Gave(b"cdef"),
        Kept::Asked(4, Gave::Ended),
        Kept::Captured(b"c"),
        Kept::Offered(b"xyz", Took::Bytes(2)),
        Kept::Took(b"xy"),
        Kept::Offered(b"z", Took::NoRoom),
        Kept::Offered(b"z", Took::Ended),
        Kept::Emitted(b"e"),
        Kept::Ended(6),
        Kept::Launched(7, Launched::Failed),
        Kept::Launched(8, Launched::Runs),
        Kept::Asked(4, Gave::Bytes(1)),
        Kept::Gave(b"g"),
        Kept::Asked(4, Gave::NotYet),
        Kept::Asked(4, Gave::NotYet),
        Kept::Offered(b"uvw", Took::Bytes(3)),
        Kept::Took(b"uvw"),
    ];
    assert_played(&rt, rt.alloc(), &calls, &acts)
}
