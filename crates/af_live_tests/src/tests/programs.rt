// Programs of the system over sockets. No contract says what they got or how they ended.
ghost use Rattle.std.specs.Prelude.{◌≤◌};
ghost use Rattle.arrayvec.specs.ArrayVec.{array_vec_len};

use af_card::{Card, Shape};
use af_io::Put;
use af_process::{Word, Words};
use af_program::{Gave, Launched, Program, SocketProgram, Took, Ways};
use af_world::CardKind;
use std::alloc::Global;
use std::net::Net;
use std::process::{Abort, Processes};
use std::test::Fail;
use std::thread;
use std::time::{Clock, Duration};

// A call of a program, with its answer. Some calls are repeated until that answer comes.
#[derive(Drop)]
enum Call {
    // a program with no arguments
    Run(&'static str, Launched),
    // `sh`, `-c` and a script
    Start(&'static str, Launched),
    Give(&'static [u8], Took),
    // gives pieces, until one is answered so
    GiveUntil(Took),
    Take(Gave),
    // takes, until all of these bytes came
    TakeAll(&'static [u8]),
    // takes, until one is answered so
    TakeUntil(Gave),
    // at a millisecond
    End(u64),
    // starts so many, and ends them at once, which they ignore
    EndMany(u32),
    // at a millisecond, and how the program has ended
    Tend(u64, Option<i32>),
    // the same, until it has
    TendUntil(u64, Option<i32>),
    // whether a start had a reason to fail
    HasReason(bool),
    // whether there are sockets to the input and from the output
    HasSockets(bool, bool),
}

const TRIES: u32 = 2000;

const NANOS_PER_MILLI: u64 = 1_000_000;

const PIECE: [u8; 80] = [7; 80];

fn pause(clock: &impl Clock) {
    thread::sleep(clock, Duration::from_millis(5));
}

fn word(text: &str) -> Word {
    let mut word = Word::new();
    let _ = word.try_push_str(text);
    word
}

fn program(name: &str) -> Words
    ensures { 1 ≤ array_vec_len result }
{
    let mut words = Words::new();
    words.push(word(name));
    words
}

fn script(text: &str) -> Words
    ensures { 1 ≤ array_vec_len result }
{
    let mut words = program("sh");
    let _ = words.try_push(word("-c"));
    let _ = words.try_push(word(text));
    words
}

fn gives_until<R: Processes + Net + Drop>(
    clock: &impl Clock,
    program: &mut SocketProgram<R>,
    wanted: Took,
) -> bool {
    for _ in 0..TRIES {
        let took = program.give(&PIECE);
        if took == wanted {
            return true;
        }
        if took == Took::NoRoom {
            pause(clock);
        }
    }
    false
}

fn takes_all<R: Processes + Net + Drop>(
    clock: &impl Clock,
    program: &mut SocketProgram<R>,
    wanted: &[u8],
) -> bool {
    let mut left = wanted;
    for _ in 0..TRIES {
        let mut room = [0; 64];
        match program.take(&mut room) {
            Gave::Bytes(count) => match left.strip_prefix(&room[..count]) {
                Some([]) => return true,
                Some(rest) => left = rest,
                None => return false,
            },
            Gave::NotYet => pause(clock),
            Gave::Ended => return false,
        }
    }
    false
}

fn takes_until<R: Processes + Net + Drop>(
    clock: &impl Clock,
    program: &mut SocketProgram<R>,
    wanted: Gave,
) -> bool {
    for _ in 0..TRIES {
        let mut room = [0; 64];
        if program.take(&mut room) == wanted {
            return true;
        }
        pause(clock);
    }
    false
}

fn ends_many<R: Processes + Net + Drop>(
    alloc: Global,
    program: &mut SocketProgram<R>,
    count: u32,
) -> bool {
    let mut all_ran = true;
    for _ in 0..count {
        all_ran = all_ran && program.start(alloc, 0, &script("exec sleep 60")) == Launched::Runs;
        program.end(0);
    }
    all_ran
}

fn has_ended<R: Processes + Net + Drop>(
    program: &mut SocketProgram<R>,
    millis: u64,
    wanted: Option<i32>,
) -> bool {
    program.tend(millis.saturating_mul(NANOS_PER_MILLI));
    program.ended() == wanted
}

fn ends_so<R: Processes + Net + Drop>(
    clock: &impl Clock,
    program: &mut SocketProgram<R>,
    millis: u64,
    wanted: Option<i32>,
) -> bool {
    for _ in 0..TRIES {
        if has_ended(program, millis, wanted) {
            return true;
        }
        pause(clock);
    }
    false
}

fn is_answered<R: Processes + Net + Drop>(
    clock: &impl Clock,
    alloc: Global,
    running: &mut SocketProgram<R>,
    call: &Call,
) -> bool {
    match call {
        Call::Run(name, launched) => running.start(alloc, 0, &program(name)) == *launched,
        Call::Start(text, launched) => running.start(alloc, 0, &script(text)) == *launched,
        Call::Give(bytes, took) => running.give(bytes) == *took,
        Call::GiveUntil(took) => gives_until(clock, running, *took),
        Call::Take(gave) => running.take(&mut [0; 64]) == *gave,
        Call::TakeAll(bytes) => takes_all(clock, running, bytes),
        Call::TakeUntil(gave) => takes_until(clock, running, *gave),
        Call::End(millis) => {
            running.end(millis.saturating_mul(NANOS_PER_MILLI));
            true
        }
        Call::EndMany(count) => ends_many(alloc, running, *count),
        Call::Tend(millis, status) => has_ended(running, *millis, *status),
        Call::TendUntil(millis, status) => ends_so(clock, running, *millis, *status),
        Call::HasReason(has) => running.reason().is_some() == *has,
        Call::HasSockets(input, output) => {
            running.input().is_some() == *input && running.output().is_some() == *output
        }
    }
}

fn assert_calls<R: Processes + Net + Clock + Abort>(
    rt: &R,
    alloc: Global,
    ways: Ways,
    calls: &[Call],
) -> Result<(), Fail> {
    let mut running = SocketProgram::new(alloc, rt, ways, 2304)?;
    for (at, call) in calls.iter().enumerate() {
        let is_wanted = is_answered(rt, alloc, &mut running, call);
        assert!(rt; is_wanted, "{ways:?} at {at}");
    }
    Ok(())
}

#[test]
fn a_program_gives_and_takes_and_is_ended(rt: HostRuntime) -> Result<(), Fail> {
    let both = [
        Call::Give(b"abcd", Took::Ended),
        Call::Take(Gave::Ended),
        Call::Run("no-such-program", Launched::Failed),
        Call::HasReason(true),
        Call::HasSockets(false, false),
        Call::Run("cat", Launched::Runs),
        Call::HasSockets(true, true),
        Call::Take(Gave::NotYet),
        Call::Give(b"abcd", Took::Bytes(4)),
        Call::Give(b"ef", Took::Bytes(2)),
        Call::TakeAll(b"abcdef"),
        Call::Run("cat", Launched::Failed),
        Call::End(0),
        Call::Take(Gave::Ended),
        Call::TendUntil(0, Some(0)),
    ];
    assert_calls(&rt, rt.alloc(), Ways::Both, &both)?;
    let given = [
        // a program that takes nothing gets no more than there is room for, and is killed in the end
        Call::Run("cat", Launched::Runs),
        Call::HasSockets(true, false),
        Call::Take(Gave::Ended),
        Call::End(0),
        Call::TendUntil(0, Some(0)),
        Call::Start("exec sleep 60", Launched::Runs),
        Call::GiveUntil(Took::NoRoom),
        Call::End(1000),
        Call::Tend(1199, None),
        Call::Tend(1199, None),
        Call::TendUntil(1200, Some(137)),
        // a program that ends takes no more
        Call::Start("head -c 3 > /dev/null; exit 3", Launched::Runs),
        Call::GiveUntil(Took::Ended),
        Call::End(0),
        Call::TendUntil(0, Some(3)),
    ];
    assert_calls(&rt, rt.alloc(), Ways::Given, &given)?;
    let gives = [
        Call::Start("cat; printf abcd; kill -9 $$", Launched::Runs),
        Call::HasSockets(false, true),
        Call::Give(b"abcd", Took::Ended),
        Call::TakeAll(b"abcd"),
        Call::TakeUntil(Gave::Ended),
        Call::HasReason(false),
        Call::End(0),
        Call::TendUntil(0, Some(137)),
        // at most eight that were ended are left
        Call::EndMany(8),
        Call::Run("true", Launched::Failed),
        Call::TendUntil(200, Some(137)),
        Call::Run("true", Launched::Runs),
    ];
    assert_calls(&rt, rt.alloc(), Ways::Gives, &gives)
}

// A tick of a device, whose sound is emitted as it was captured. The answer is what is left of the expected sound, if this was
// its beginning.
fn after_tick<'a, P: Program + Drop>(
    card: &mut Card<P>,
    frames: usize,
    sound: &'a [u8],
) -> Option<&'a [u8]> {
    let mut room = [0; 512];
    if frames == 0 {
        return Some(sound);
    }
    let into = room.get_mut(..frames)?;
    if card.capture(into) != Put::Done || card.emit(into) != Put::Done {
        return None;
    }
    if sound.len() < frames {
        Some(&[])
    } else {
        sound.strip_prefix(&*into)
    }
}

// In the end, a device over a program of the system has captured a sound.
fn assert_captured<R: Processes + Net + Clock + Abort>(
    rt: &R,
    alloc: Global,
    (kind, ways): (CardKind, Ways),
    text: &str,
    sound: &[u8],
) -> Result<(), Fail> {
    let shape = Shape {
        kind,
        frame_bytes: 1,
        silence: 255,
        rate: 8000,
    };
    let program = SocketProgram::new(alloc, rt, ways, 2304)?;
    let mut card = Card::new(alloc, program, shape, 0, &script(text))?;
    let begun = rt.monotonic()?;
    assert!(rt; card.begin(0) == Launched::Runs, "{kind:?}");
    let mut left = sound;
    for _ in 0..TRIES {
        let at = rt.monotonic()?.saturating_sub(begun);
        let frames = card.due(u64::try_from(at.as_nanos()).unwrap_or(0));
        let rest = after_tick(&mut card, frames as usize, left);
        left = rest.ok_or("another sound")?;
        if left.is_empty() {
            break;
        }
        pause(rt);
    }
    assert!(rt; left.is_empty(), "{kind:?}");
    Ok(())
}

#[test]
fn a_device_goes_by_a_program_of_the_system(rt: HostRuntime) -> Result<(), Fail> {
    let alloc = rt.alloc();
    let gives = (CardKind::Microphone, Ways::Gives);
    let text = "printf 01234567; sleep 0.2; printf abcdef; sleep 9";
    assert_captured(&rt, alloc, gives, text, b"01234567abcdef")?;
    // it is handed what it gave, and gives it once more
    let both = (CardKind::Card, Ways::Both);
    assert_captured(&rt, alloc, both, "printf 0123; exec cat", b"012301230123")?;
    // it takes ten pieces, of a hundredth of a second each
    let given = (CardKind::Speaker, Ways::Given);
    assert_captured(&rt, alloc, given, "exec cat > /dev/null", &[255; 800])
}
