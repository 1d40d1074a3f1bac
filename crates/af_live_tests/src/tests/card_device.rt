// A device of the real world that goes by a program. The program is in memory.
ghost use Rattle.std.specs.Prelude.{◌≡◌, []};
ghost use Rattle.af_codec.specs.Codec.{TellsThese};

use af_io::Put;
use af_live::MioWorld;
use af_process::{MemSpawner, Words};
use af_program::{Act, MemPrograms, Plan, SocketPrograms};
use af_sample::SampleType;
use af_world::{CardKind, DeviceSpec, Kind, Live, Ready, Waited, Wake, World};
use arrayvec::ArrayString;
use std::alloc::Global;
use std::process::Abort;
use std::test::Fail;

// A device that is to be attached, and whether it is.
#[derive(Clone, Copy)]
struct Asked {
    device: u8,
    card: CardKind,
    channels: u8,
    restarts: u32,
    word: &'static str,
    ready: Ready,
}

const CARD: Asked = Asked {
    device: 3,
    card: CardKind::Card,
    channels: 1,
    restarts: 0,
    word: "card",
    ready: Ready::Done,
};

// Numbers have to be in range, and each number has one device.
const ATTACHES: [Asked; 5] = [
    Asked {
        restarts: 1_000_001,
        ready: Ready::Failed,
        ..CARD
    },
    Asked {
        channels: 9,
        ready: Ready::Failed,
        ..CARD
    },
    Asked {
        device: 8,
        ready: Ready::Failed,
        ..CARD
    },
    CARD,
    Asked {
        ready: Ready::Failed,
        ..CARD
    },
];

// A program that the system does not have, and one that takes all; and none, if a world has no programs.
const MISSING: Asked = Asked {
    card: CardKind::Speaker,
    word: "no-such-program",
    ready: Ready::Failed,
    ..CARD
};

const TAKES_ALL: Asked = Asked {
    word: "cat",
    ready: Ready::Done,
    ..MISSING
};

const NONE: Asked = Asked {
    ready: Ready::Failed,
    ..TAKES_ALL
};

// It gives five frames, and takes three of those that it is given then.
const PLAN: Plan<'static> = Plan {
    fails: &[],
    output: b"abcde",
    gives: &[Some(5)],
    takes: &[Some(3)],
};

fn one_word(text: &str) -> Words {
    let mut words = Words::new();
    let mut word = ArrayString::new();
    let _ = word.try_push_str(text);
    let _ = words.try_push(word);
    words
}

fn is_answered<W: Live>(alloc: Global, world: &mut W, asked: &Asked) -> bool {
    let spec = DeviceSpec {
        ty: SampleType::Mu255,
        rate: 8000,
        start: 0,
        channels: asked.channels,
        line: false,
    };
    let kind = Kind::Card {
        card: asked.card,
        restarts: asked.restarts,
        words: &one_word(asked.word),
    };
    world.attach(alloc, asked.device, &spec, kind) == asked.ready
}

// The next tick, after at most 50 waits.
fn tick<W: Live>(world: &mut W) -> Option<(u8, u32)> {
    for _ in 0..50u32 {
        if let Waited::Woke(Wake::Ticked(device, frames)) = world.wait(false) {
            return Some((device, frames));
        }
    }
    None
}

// As many frames go by as the program gave, and no more.
fn assert_ticks<W: Live>(rt: &impl Abort, world: &mut W) {
    let mut into = [b'-'; 5];
    assert!(rt; tick(world) == Some((3, 5)));
    assert!(rt; world.emit(3, b"ABCDE") == Put::Failed);
    assert!(rt; world.capture(3, 5, &mut into) == Put::Done);
    assert!(rt; into == *b"abcde");
    assert!(rt; world.emit(3, b"ABCD") == Put::Failed);
    assert!(rt; world.emit(3, b"ABCDE") == Put::Done);
    assert!(rt; tick(world) == None);
}

// What was taken is the front of what was emitted.
fn takes_so(acts: &[Act], wanted: &[u8]) -> bool {
    let mut is_taken = false;
    for act in acts {
        if let Act::Took { bytes } = act {
            is_taken = !is_taken && bytes.as_slice() == wanted;
        }
    }
    is_taken
}

#[test]
fn a_device_has_the_time_of_its_program(rt: HostRuntime) -> Result<(), Fail> {
    let alloc = rt.alloc();
    let spawner = MemSpawner::new(alloc, &[], &[])?;
    let programs = MemPrograms::new(PLAN);
    let mut world = MioWorld::with_programs(rt.clone()?, alloc, spawner, programs);
    assert!(rt; world.listen(alloc, "127.0.0.1:0") == Ready::Done);
    for (at, asked) in ATTACHES.iter().enumerate() {
        let is_wanted = is_answered(alloc, &mut world, asked);
        assert!(rt; is_wanted, "at {at}");
    }
    assert_ticks(&rt, &mut world);
    let card = world.card(3).ok_or("no card")?;
    assert!(rt; card.program().tells());
    assert!(rt; takes_so(card.program().acts(), b"ABC"));
    Ok(())
}

#[test]
fn a_device_has_a_program_of_the_system(rt: HostRuntime) -> Result<(), Fail> {
    let alloc = rt.alloc();
    let spawner = MemSpawner::new(alloc, &[], &[])?;
    let mut without = MioWorld::new(rt.clone()?, alloc, spawner);
    assert!(rt; is_answered(alloc, &mut without, &NONE));
    let spawner = MemSpawner::new(alloc, &[], &[])?;
    let programs = SocketPrograms::new(&rt);
    let mut world = MioWorld::with_programs(rt.clone()?, alloc, spawner, programs);
    assert!(rt; world.listen(alloc, "127.0.0.1:0") == Ready::Done);
    assert!(rt; is_answered(alloc, &mut world, &MISSING));
    assert!(rt; is_answered(alloc, &mut world, &TAKES_ALL));
    // a piece is a hundredth of a second
    assert!(rt; tick(&mut world) == Some((3, 80)));
    Ok(())
}
