// The script of an exercise, made of the numbers that a generator draws.
ghost use Rattle.std.specs.Prelude.{◌≡◌, ◌≤◌, ◌<◌, ◌*◌, ◌++◌, ℕ, length, All, IfOk, OnOk};
ghost use Rattle.af_limits.specs.Limits.{most_devices, longest_frame, longest_play};
ghost use Rattle.af_sample.specs.Channels.{IsChannelCount};
ghost use Rattle.af_sample.specs.Rates.{IsListedRate};
ghost use Rattle.af_request.specs.Asked.{request_meaning};
ghost use Rattle.af_request.specs.Requests.{request_bytes, FitsFrame};
ghost use Rattle.af_wire.specs.declared.order.Order.TheVariants.{Big};
ghost use Rattle.af_world.specs.Outside.{IsStep};
ghost use Rattle.af_random.specs.Exercise.{generated_script, exercised_devices, first_steps, greeting, copies_of, preempts, seeded_generator, steps_drawn, start_time, sample_bytes, drawn_word, generator_after, turn_step, tick_drawn, play_drawn, record_drawn, sends, digit_drawn, room_drawn, frames_ticked};

use af_io::Bytes;
use af_limits::LONGEST_FRAME;
use af_phone::LineChange;
use af_request::{Request, write_request};
use af_sample::SampleType;
use af_script::{Script, Steps};
use af_time::{DevTime, OutOfMemory};
use af_wire::Order;
use af_world::{Config, DeviceSpec, Step};
use arrayvec::ArrayVec;
use rand_core::SeedableRng;
use rand_core::utils::NextWord;
use rand_pcg::Pcg32;
use std::alloc::Global;

/// The device time at which the device starts.
const START_TIME: u32 = 4294960000;

/// The links of an exercise.
const LINKS: [u8; 4] = [0, 1, 2, 3];

/// Makes the script of an exercise: four links that greet, and then a step for each of n turns, 1 to 10000. A generator of this
/// seed draws each step.
pub fn make_script(alloc: Global, seed: u64, turns: u32) -> Result<Script, OutOfMemory>
    requires { (1 ≤ turns) × (turns ≤ 10000) }
    ensures script { IfOk result (λ s. generated_script seed turns ≡ record { config = s.config.items; steps = s.steps }) }
    ensures devices { IfOk result (λ s. (1 ≤ length s.config.items) × (length s.config.items ≤ most_devices)) }
    ensures rates { IfOk result (λ s. All (λ device. IsListedRate device.rate) s.config.items) }
    ensures channels { IfOk result (λ s. All (λ device. IsChannelCount device.channels) s.config.items) }
    ensures steps { IfOk result (λ s. All (IsStep s.config.items) s.steps) }
{
    let mut room = vec![in alloc; 0u8; LONGEST_FRAME]?;
    let steps = all_steps(alloc, seed, turns, &mut room)?;
    Ok(Script {
        config: device(),
        steps: Steps::of(steps),
    })
}

/// The steps of an exercise.
fn all_steps(
    alloc: Global,
    seed: u64,
    turns: u32,
    room: &mut [u8],
) -> Result<Vec<Step>, OutOfMemory>
    requires { longest_frame ≤ length room.old }
    ensures value { IfOk result (λ steps. steps.items ≡ first_steps ++ steps_drawn turns (seeded_generator seed) start_time) }
    ensures fits { IfOk result (λ steps. All (IsStep exercised_devices) steps.items) }
{
    let mut steps = greetings(alloc, room)?;
    let mut generator = seeded(seed);
    let mut time = DevTime(START_TIME);
    for turn in 0..turns {
        let x = draw(&mut generator);
        let y = draw(&mut generator);
        let step = step_of_turn(alloc, x, y, time, room)?;
        time = time.after(frames_ticked(&step));
        steps.push(step)?;
    }
    Ok(steps)
}

/// The generator of a seed.
#[tactic(auto, unfolding(crate::specs::Exercise::seeded_generator))]
fn seeded(seed: u64) -> Pcg32
    ensures { result ≡ seeded_generator seed }
{
    Pcg32::seed_from_u64(seed)
}

/// The next word that a generator draws.
#[tactic(auto, unfolding(crate::specs::Exercise::drawn_word, crate::specs::Exercise::generator_after))]
fn draw(generator: &mut Pcg32) -> u32
    ensures value { result ≡ drawn_word generator.old }
    ensures after { generator.new ≡ generator_after generator.old }
{
    generator.next_word()
}

/// The one device of an exercise.
fn device() -> Config
    ensures { result.items ≡ exercised_devices }
{
    let mut config = ArrayVec::new();
    config.push(DeviceSpec {
        ty: SampleType::Lin16,
        rate: 8000,
        start: START_TIME,
        channels: 1,
        line: true,
    });
    config
}

/// The steps in which the links are opened and greet.
#[tactic(auto, unfolding(crate::specs::Exercise::first_steps))]
fn greetings(alloc: Global, room: &mut [u8]) -> Result<Vec<Step>, OutOfMemory>
    requires { longest_frame ≤ length room.old }
    ensures { IfOk result (λ steps. steps.items ≡ first_steps) }
{
    let mut steps = Vec::new(alloc);
    for link in LINKS {
        steps.push(Step::Open(link))?;
    }
    for link in LINKS {
        let bytes = greeting(alloc, link, room)?;
        steps.push(Step::Send(link, bytes))?;
    }
    Ok(steps)
}

/// What a link sends first.
#[tactic(auto, unfolding(crate::specs::Exercise::greeting))]
fn greeting(alloc: Global, link: u8, room: &mut [u8]) -> Result<Bytes, OutOfMemory>
    requires { longest_frame ≤ length room.old }
    ensures { IfOk result (λ bytes. bytes ≡ greeting link) }
{
    let mut bytes = Vec::from_slice(alloc, &Order::Big.setup())?;
    let context = Request::CreateAc {
        device: 0,
        ac: 1,
        ty: 2,
        channels: 1,
        preempt: preempts(link),
        play_gain: 0,
        record_gain: 0,
    };
    add_request(&mut bytes, &context, room)?;
    let events = Request::SelectEvents {
        device: 0,
        mask: 15,
    };
    add_request(&mut bytes, &events, room)?;
    Bytes::copied(alloc, &bytes)
}

/// Whether the plays of a link preempt, 1 or 0: those of link 3 do.
fn preempts(link: u8) -> u8
    ensures { result ≡ preempts link }
{
    if link == 3 { 1 } else { 0 }
}

/// Adds a request, as it is spelled.
fn add_request(
    bytes: &mut Vec<u8>,
    request: &Request<'_>,
    room: &mut [u8],
) -> Result<(), OutOfMemory>
    requires samples { FitsFrame (request_meaning request.now) }
    requires room { longest_frame ≤ length room.old }
    ensures { OnOk result (bytes.new.items ≡ bytes.old.items ++ request_bytes Big (request_meaning request.now)) }
{
    let length = write_request(Order::Big, request, room);
    bytes.extend_from_slice(&room[..length])?;
    Ok(())
}

/// The step of a turn, by the two words that were drawn for it and the device's time.
#[tactic(auto, unfolding(crate::specs::Exercise::turn_step))]
fn step_of_turn(
    alloc: Global,
    x: u32,
    y: u32,
    time: DevTime,
    room: &mut [u8],
) -> Result<Step, OutOfMemory>
    requires { longest_frame ≤ length room.old }
    ensures value { IfOk result (λ s. s ≡ turn_step x y time.0) }
    ensures fits { IfOk result (λ s. IsStep exercised_devices s) }
{
    let link = (x % 4) as u8;
    match x / 4 % 8 {
        0..=2 => tick(alloc, y),
        3 => {
            let samples = repeated(alloc, 100, sample_bytes(y))?;
            send(alloc, link, &play(y, time, &samples), room)
        }
        4 => send(alloc, link, &record(y, time), room),
        5 => send(alloc, link, &Request::GetTime { device: 0 }, room),
        6 => Ok(digit(y)),
        _ => Ok(make_room(link, y)),
    }
}

/// A tick of 1 to 512 frames, in which each captured sample has the same pattern.
#[tactic(auto, unfolding(crate::specs::Exercise::tick_drawn))]
fn tick(alloc: Global, y: u32) -> Result<Step, OutOfMemory>
    ensures value { IfOk result (λ s. s ≡ tick_drawn y) }
    ensures fits { IfOk result (λ s. IsStep exercised_devices s) }
{
    let frames = 1 + y % 512;
    let pattern = (y / 512 % 65536) as u16;
    let captured = repeated(alloc, frames, pattern.to_be_bytes())?;
    Ok(Step::Tick(0, frames, Some(Bytes::copied(alloc, &captured)?)))
}

/// A Play of 100 equal samples, from 2000 frames before the device's time on.
#[tactic(auto, unfolding(crate::specs::Exercise::play_drawn))]
fn play(y: u32, time: DevTime, samples: &[u8]) -> Request<'_>
    requires samples { samples.now ≡ copies_of 100 (sample_bytes y) }
    requires few { length samples.now ≤ longest_play }
    ensures value { request_meaning result ≡ play_drawn y time.0 }
    ensures fits { FitsFrame (request_meaning result) }
{
    Request::PlayRun {
        quiet: false,
        ac: 1,
        time: time.after(u32::MAX - 1999).after(y % 36000),
        samples,
    }
}

/// The bytes of the sample of a Play, from -10000 to 10000.
fn sample_bytes(y: u32) -> [u8; 2]
    ensures { result ≡ sample_bytes y }
{
    let sample = (y % 20001) as i16 - 10000;
    sample.to_be_bytes()
}

/// A Record of 50 frames that waits for them, from 1000 frames before the device's time on.
#[tactic(auto, unfolding(crate::specs::Exercise::record_drawn))]
fn record(y: u32, time: DevTime) -> Request<'static>
    ensures value { request_meaning result ≡ record_drawn y time.0 }
    ensures fits { FitsFrame (request_meaning result) }
{
    Request::RecordRun {
        blocking: true,
        ac: 1,
        time: time.after(u32::MAX - 999).after(y % 2000),
        nbytes: 100,
    }
}

/// A decimal digit is dialled.
#[tactic(auto, unfolding(crate::specs::Exercise::digit_drawn))]
fn digit(y: u32) -> Step
    ensures value { result ≡ digit_drawn y }
    ensures fits { IsStep exercised_devices result }
{
    Step::Line(0, LineChange::Digit(b'0' + (y % 10) as u8))
}

/// From now on a link takes 100 bytes, or every byte.
#[tactic(auto, unfolding(crate::specs::Exercise::room_drawn))]
fn make_room(link: u8, y: u32) -> Step
    requires { link < 4 }
    ensures value { result ≡ room_drawn link y }
    ensures fits { IsStep exercised_devices result }
{
    if y % 16 == 0 {
        Step::Room(link, Some(100))
    } else {
        Step::Room(link, None)
    }
}

/// The step in which a link sends a request.
fn send(
    alloc: Global,
    link: u8,
    request: &Request<'_>,
    room: &mut [u8],
) -> Result<Step, OutOfMemory>
    requires samples { FitsFrame (request_meaning request.now) }
    requires room { longest_frame ≤ length room.old }
    requires link { link < 4 }
    ensures value { IfOk result (λ s. s ≡ sends link (request_meaning request.now)) }
    ensures fits { IfOk result (λ s. IsStep exercised_devices s) }
{
    let length = write_request(Order::Big, request, room);
    Ok(Step::Send(link, Bytes::copied(alloc, &room[..length])?))
}

/// The same two bytes n times.
fn repeated(alloc: Global, count: u32, pattern: [u8; 2]) -> Result<Vec<u8>, OutOfMemory>
    ensures value { IfOk result (λ bytes. bytes.items ≡ copies_of count pattern) }
    ensures size { IfOk result (λ bytes. length bytes.items ≡ count * 2) }
{
    let mut bytes = Vec::new(alloc);
    for round in 0..count {
        bytes.extend_from_slice(&pattern)?;
    }
    Ok(bytes)
}

/// How many frames go by in a step.
fn frames_ticked(step: &Step) -> u32
    ensures { result ≡ frames_ticked step.now }
{
    match step {
        Step::Tick(_, frames, _) => *frames,
        _ => 0,
    }
}
