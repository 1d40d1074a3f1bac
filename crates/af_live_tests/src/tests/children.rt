// Child programs of the system. No contract says what they got or how they ended.
ghost use Rattle.std.specs.Prelude.{◌≤◌};
ghost use Rattle.arrayvec.specs.ArrayVec.{array_vec_len};

use af_deadline::DeadlineRuntime;
use af_io::Put;
use af_process::{Finished, Spawner, Started, StdSpawner, Word, Words};
use std::alloc::Global;
use std::cell::Cell;
use std::process::{Abort, Processes};

// A call of a spawner, and what it answers.
#[derive(Drop)]
enum Call<'a> {
    // a program with no arguments
    Run(&'a str, Started),
    // `sh`, `-c` and a script
    Start(&'a str, Started),
    Give(u32, &'a [u8], Put),
    // more than there is room for between two programs, and what the last give answers
    GiveMuch(u32, Put),
    Finish(u32, Finished),
}

const PIECE: [u8; 4096] = [7; 4096];

fn give_much<R: Processes + Drop>(spawner: &mut StdSpawner<R>, child: u32) -> Put {
    let mut last = Put::Done;
    for _ in 0..200 {
        last = spawner.give(child, &PIECE);
    }
    last
}

fn word(text: &str) -> Word {
    let mut word = Word::new();
    let _ = word.try_push_str(text);
    word
}

fn program(name: &str) -> Words
    ensures { 1 ≤ array_vec_len result }
{
    let mut words = Words::new();
    words.push(word(name));
    words
}

fn script(text: &str) -> Words
    ensures { 1 ≤ array_vec_len result }
{
    let mut words = program("sh");
    let _ = words.try_push(word("-c"));
    let _ = words.try_push(word(text));
    words
}

fn is_answered<R: Processes + Drop>(
    alloc: Global,
    spawner: &mut StdSpawner<R>,
    call: &Call<'_>,
) -> bool {
    match call {
        Call::Run(name, started) => spawner.start(alloc, &program(name)) == *started,
        Call::Start(text, started) => spawner.start(alloc, &script(text)) == *started,
        Call::Give(child, bytes, put) => spawner.give(*child, bytes) == *put,
        Call::GiveMuch(child, put) => give_much(spawner, *child) == *put,
        Call::Finish(child, finished) => spawner.finish(*child) == *finished,
    }
}

fn assert_calls<R: Processes + Drop>(
    rt: &impl Abort,
    alloc: Global,
    spawner: &mut StdSpawner<R>,
    calls: &[Call<'_>],
) {
    for (at, call) in calls.iter().enumerate() {
        let is_wanted = is_answered(alloc, spawner, call);
        assert!(rt; is_wanted, "at {at}");
    }
}

#[test]
fn a_child_takes_what_it_is_given_and_ends(rt: HostRuntime) {
    let mut spawner = StdSpawner::new(&rt);
    let calls = [
        Call::Run("cat", Started::Child(0)),
        Call::Give(0, b"abcd", Put::Done),
        Call::Finish(0, Finished::Ended(0)),
        Call::Give(0, b"abcd", Put::Failed),
        Call::Finish(0, Finished::Failed),
        Call::Run("no-such-program", Started::Failed),
    ];
    assert_calls(&rt, rt.alloc(), &mut spawner, &calls);
}

#[test]
fn children_that_run_at_once_are_told_apart(rt: HostRuntime) {
    let mut spawner = StdSpawner::new(&rt);
    let calls = [
        Call::Start("test \"$(cat)\" = abcdef", Started::Child(0)),
        Call::Start("test \"$(cat)\" = ghij", Started::Child(1)),
        Call::Start("cat > /dev/null; exit 3", Started::Child(2)),
        Call::Start("kill -9 $$", Started::Child(3)),
        Call::Give(1, b"gh", Put::Done),
        Call::Give(0, b"abcdef", Put::Done),
        Call::Give(1, b"ij", Put::Done),
        Call::Give(2, b"abcdef", Put::Done),
        Call::Finish(2, Finished::Ended(3)),
        Call::Finish(1, Finished::Ended(0)),
        Call::Finish(3, Finished::Ended(137)),
        Call::Finish(0, Finished::Ended(0)),
    ];
    assert_calls(&rt, rt.alloc(), &mut spawner, &calls);
}

#[test]
fn children_with_deadlines_hold_nobody_up(rt: HostRuntime) {
    let late = Cell::new(0);
    let mut spawner = StdSpawner::new(DeadlineRuntime::new(&rt, &rt, &late));
    let calls = [
        Call::Start("test \"$(cat)\" = abcdef", Started::Child(0)),
        Call::Give(0, b"abcd", Put::Done),
        Call::Give(0, b"ef", Put::Done),
        Call::Finish(0, Finished::Ended(0)),
        Call::Start("cat > /dev/null; exit 3", Started::Child(1)),
        Call::GiveMuch(1, Put::Done),
        Call::Finish(1, Finished::Ended(3)),
        // a child that takes nothing is given nothing more, and one that does not end is killed
        Call::Start("exec sleep 20", Started::Child(2)),
        Call::GiveMuch(2, Put::Failed),
        Call::Give(2, b"a", Put::Failed),
        Call::Finish(2, Finished::Ended(137)),
        Call::Run("no-such-program", Started::Failed),
    ];
    assert_calls(&rt, rt.alloc(), &mut spawner, &calls);
    assert!(rt; late.get() == 1, "{} pieces late", late.get());
}
