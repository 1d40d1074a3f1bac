// A device of the real world with a codec, whose child programs are in memory.
ghost use Rattle.std.specs.Prelude.{◌≡◌, []};
ghost use Rattle.af_codec.specs.Codec.{TellsThese};

use af_io::Put;
use af_live::MioWorld;
use af_process::{Act, MemSpawner, Words};
use af_sample::SampleType;
use af_world::{DeviceSpec, Kind, Live, Ready, World};
use arrayvec::ArrayString;
use std::alloc::Global;
use std::process::Abort;
use std::test::Fail;

fn words_of(texts: &[&str]) -> Words {
    let mut words = Words::new();
    for text in texts {
        let mut word = ArrayString::new();
        let _ = word.try_push_str(text);
        let _ = words.try_push(word);
    }
    words
}

// A device whose codec has this command line is attached, or is not.
fn attached<W: Live>(
    alloc: Global,
    world: &mut W,
    device: u8,
    restarts: u32,
    texts: &[&str],
) -> Ready {
    let spec = DeviceSpec {
        ty: SampleType::Mu255,
        rate: 8000,
        start: 0,
        channels: 1,
        line: false,
    };
    let words = words_of(texts);
    world.attach(
        alloc,
        device,
        &spec,
        Kind::Codec {
            restarts,
            words: &words,
        },
    )
}

// The first orders that are in range hold, and no second ones.
fn assert_attaches<W: Live>(rt: &impl Abort, alloc: Global, world: &mut W) {
    let long = "12345678901234567890123456789012345678901234567890123456789012345";
    assert!(rt; attached(alloc, world, 0, 101, &["cat"]) == Ready::Failed);
    assert!(rt; attached(alloc, world, 0, 0, &[]) == Ready::Failed);
    assert!(rt; attached(alloc, world, 0, 0, &["cat", long]) == Ready::Failed);
    assert!(rt; attached(alloc, world, 8, 0, &["cat"]) == Ready::Failed);
    assert!(rt; attached(alloc, world, 0, 0, &["cat"]) == Ready::Done);
    assert!(rt; attached(alloc, world, 0, 0, &["cat"]) == Ready::Failed);
    assert!(rt; attached(alloc, world, 1, 0, &["cat"]) == Ready::Failed);
}

// The second sound is lost with the child, and no third is given to any.
fn assert_emits<W: World>(rt: &impl Abort, world: &mut W) {
    let mut into = [b'-'; 5];
    assert!(rt; world.capture(0, 5, &mut into) == Put::Done);
    assert!(rt; into == [255; 5]);
    assert!(rt; world.emit(0, b"A") == Put::Done);
    assert!(rt; world.emit(0, b"B") == Put::Failed);
    assert!(rt; world.emit(0, b"C") == Put::Failed);
    assert!(rt; world.emit(1, b"D") == Put::Failed);
}

fn is_given(act: &Act, wanted: u8, is_done: bool) -> bool {
    match act {
        Act::Given {
            child: 0,
            offered,
            done,
        } => offered.as_slice() == [wanted].as_slice() && *done == is_done,
        _ => false,
    }
}

#[test]
fn the_codec_takes_the_sound_of_one_device(rt: HostRuntime) -> Result<(), Fail> {
    // the start and the first give are done, and the second give fails
    let spawner = MemSpawner::new(rt.alloc(), &[2], &[7])?;
    let mut world = MioWorld::new(rt.clone()?, rt.alloc(), spawner);
    assert_attaches(&rt, rt.alloc(), &mut world);
    assert_emits(&rt, &mut world);
    let spawner = world.codec().spawner();
    assert!(rt; spawner.tells());
    match spawner.acts() {
        [
            Act::Noted { .. },
            Act::Began { .. },
            first,
            Act::Noted { .. },
            second,
            Act::Finished { .. },
        ] => {
            assert!(rt; is_given(first, b'A', true));
            assert!(rt; is_given(second, b'B', false));
            Ok(())
        }
        _ => Err(Fail::from("other acts")),
    }
}
