// A codec over child programs in memory: which calls it makes, and what it answers.
ghost use Rattle.std.specs.Prelude.{◌≡◌, ◌≤◌, false, length};
ghost use Rattle.arrayvec.specs.ArrayVec.{array_vec_len};

use af_codec::Codec;
use af_io::Put;
use af_process::{Act, BeganGot, MemSpawner, Words};
use arrayvec::ArrayString;
use std::alloc::Global;
use std::process::Abort;
use std::test::Fail;

// An act of a spawner whose sounds are of one byte.
#[derive(Clone, Copy, Debug, PartialEq, Eq)]
enum Seen {
    Noted(u8),
    Began(BeganGot),
    Given(u32, u8, bool),
    Finished(u32, Option<i32>),
    Other,
}

// Which calls fail, and what comes of up to three sounds: A, B and C.
#[derive(Clone, Copy)]
struct Row<'a> {
    restarts: u32,
    fails: &'a [u64],
    answers: [Option<Put>; 3],
    acts: &'a [Seen],
}

const DONE: Option<Put> = Some(Put::Done);

const FAILED: Option<Put> = Some(Put::Failed);

fn one_word() -> Words
    ensures { 1 ≤ array_vec_len result }
{
    let mut word = ArrayString::new();
    let _ = word.try_push_str("cat");
    let mut words = Words::new();
    words.push(word);
    words
}

// The answers of the emits, up to the first that failed.
fn answers(codec: &mut Codec<MemSpawner>) -> [Option<Put>; 3]
    requires set { 1 ≤ length codec.old.orders.words }
    requires live { codec.old.feeding.failed ≡ false }
{
    match codec.emit(b"A") {
        Put::Failed => return [FAILED, None, None],
        Put::Done => {}
    }
    match codec.emit(b"B") {
        Put::Failed => return [DONE, FAILED, None],
        Put::Done => {}
    }
    [DONE, DONE, Some(codec.emit(b"C"))]
}

fn as_seen(act: &Act) -> Seen {
    match act {
        Act::Noted { sound } => match sound.as_slice() {
            [byte] => Seen::Noted(*byte),
            _ => Seen::Other,
        },
        Act::Began { got, .. } => Seen::Began(*got),
        Act::Given {
            child,
            offered,
            done,
        } => match offered.as_slice() {
            [byte] => Seen::Given(*child, *byte, *done),
            _ => Seen::Other,
        },
        Act::Finished { child, status } => Seen::Finished(*child, *status),
    }
}

fn assert_row(rt: &impl Abort, alloc: Global, row: &Row<'_>) -> Result<(), Fail> {
    let spawner = MemSpawner::new(alloc, row.fails, &[7])?;
    let mut codec = Codec::new(alloc, spawner);
    assert!(rt; row.restarts <= 100);
    codec.set(row.restarts, &one_word());
    assert!(rt; answers(&mut codec) == row.answers);
    let spawner = codec.spawner();
    assert!(rt; spawner.tells());
    assert_eq!(rt; spawner.acts().len(), row.acts.len());
    for (act, wanted) in spawner.acts().iter().zip(row.acts) {
        assert_eq!(rt; as_seen(act), *wanted);
    }
    Ok(())
}

// The second sound is lost with the child that did not take it, and the third goes to another.
const LOST: [Seen; 9] = [
    Seen::Noted(b'A'),
    Seen::Began(BeganGot::Child(0)),
    Seen::Given(0, b'A', true),
    Seen::Noted(b'B'),
    Seen::Given(0, b'B', false),
    Seen::Finished(0, Some(7)),
    Seen::Noted(b'C'),
    Seen::Began(BeganGot::Child(1)),
    Seen::Given(1, b'C', true),
];

const NEVER_STARTED: [Seen; 4] = [
    Seen::Noted(b'A'),
    Seen::Began(BeganGot::Failed),
    Seen::Noted(b'B'),
    Seen::Began(BeganGot::Failed),
];

const NOT_ANEW: [Seen; 4] = [
    Seen::Noted(b'A'),
    Seen::Began(BeganGot::Child(0)),
    Seen::Given(0, b'A', false),
    Seen::Finished(0, Some(7)),
];

#[test]
fn sounds_are_given_once(rt: HostRuntime) -> Result<(), Fail> {
    let rows = [
        Row {
            restarts: 1,
            fails: &[2],
            answers: [DONE, DONE, DONE],
            acts: &LOST,
        },
        Row {
            restarts: 1,
            fails: &[0, 1],
            answers: [DONE, FAILED, None],
            acts: &NEVER_STARTED,
        },
        Row {
            restarts: 0,
            fails: &[1],
            answers: [FAILED, None, None],
            acts: &NOT_ANEW,
        },
    ];
    for row in &rows {
        assert_row(&rt, rt.alloc(), row)?;
    }
    Ok(())
}
