// Each call of the real world, on the loopback, with the system's clock and files.
use af_io::Put;
use af_live::MioWorld;
use af_process::StdSpawner;
use af_sample::SampleType;
use af_world::{DeviceSpec, Kind, LinkGot, LinkTook, Live, Ready, Waited, Wake, Why};
use std::alloc::{Alloc, Global};
use std::fs;
use std::io::{self, ErrorKind, Read, Write};
use std::net::{Net, TcpStream};
use std::process::Abort;
use std::rt::Files;
use std::test::Fail;

// A call of a world on its links, and what it gives.
#[derive(Drop)]
enum Call {
    Listen(&'static str, Ready),
    // the next wait that is not Idle, after at most 500 that had nothing to do; a tick is compared only by its device
    Wait(Waited),
    Poll(Waited),
    // with the first bytes that the room has then
    Read(u8, LinkGot, &'static [u8; 6]),
    Write(u8, &'static [u8], LinkTook),
    Close(u8),
}

// A call of a world on a device, and what it gives.
#[derive(Drop)]
enum Asked {
    Attach(u8, SampleType, Kind<'static>, Ready),
    // of five bytes
    Capture(u8, Put, &'static [u8; 5]),
    Emit(u8, &'static [u8], Put),
    Hook(u8, Put),
}

// What happens next: a world is called, or its client comes, sends, receives at most eight bytes, or leaves.
#[derive(Drop)]
enum Act {
    World(Call),
    Device(Asked),
    Connect,
    Send(&'static [u8]),
    Receive(&'static [u8]),
    Leave,
}

// What the act of this number gives is what is wanted.
fn holds(rt: &impl Abort, at: usize, is_wanted: bool) {
    assert!(rt; is_wanted, "at {at}");
}

fn waited<W: Live>(world: &mut W) -> Waited {
    for _ in 0..500u32 {
        match world.wait(false) {
            Waited::Woke(Wake::Idle) => {}
            Waited::Woke(Wake::Ticked(device, _)) => return Waited::Woke(Wake::Ticked(device, 0)),
            waited => return waited,
        }
    }
    Waited::Woke(Wake::Idle)
}

fn attached<W: Live>(
    alloc: Global,
    world: &mut W,
    device: u8,
    ty: SampleType,
    kind: Kind<'_>,
) -> Ready {
    let spec = DeviceSpec {
        ty,
        rate: 8000,
        start: 0,
        channels: 1,
        line: false,
    };
    world.attach(alloc, device, &spec, kind)
}

fn assert_read<W: Live>(
    rt: &impl Abort,
    world: &mut W,
    at: usize,
    link: u8,
    wanted: LinkGot,
    bytes: &[u8],
) {
    let mut into = [b'-'; 16384];
    let got = world.read(link, &mut into);
    holds(rt, at, got == wanted && &into[..6] == bytes);
}

fn assert_write<W: Live>(
    rt: &impl Abort,
    world: &mut W,
    at: usize,
    link: u8,
    piece: &[u8],
    wanted: LinkTook,
) {
    assert!(rt; !piece.is_empty() && piece.len() <= 65536);
    holds(rt, at, world.write(link, piece) == wanted);
}

fn assert_capture<W: Live>(
    rt: &impl Abort,
    world: &mut W,
    at: usize,
    device: u8,
    wanted: Put,
    bytes: &[u8],
) {
    let mut into = [b'-'; 5];
    let put = world.capture(device, 5, &mut into);
    holds(rt, at, put == wanted && into.as_slice() == bytes);
}

fn assert_emit<W: Live>(
    rt: &impl Abort,
    world: &mut W,
    at: usize,
    device: u8,
    sound: &[u8],
    wanted: Put,
) {
    assert!(rt; !sound.is_empty());
    holds(rt, at, world.emit(device, sound) == wanted);
}

fn assert_call<W: Live>(rt: &impl Abort, alloc: Global, world: &mut W, at: usize, call: &Call) {
    match call {
        Call::Listen(address, wanted) => holds(rt, at, world.listen(alloc, address) == *wanted),
        Call::Wait(wanted) => holds(rt, at, waited(world) == *wanted),
        Call::Poll(wanted) => holds(rt, at, world.wait(true) == *wanted),
        Call::Read(link, wanted, bytes) => {
            assert_read(rt, world, at, *link, *wanted, bytes.as_slice());
        }
        Call::Write(link, piece, wanted) => assert_write(rt, world, at, *link, piece, *wanted),
        Call::Close(link) => world.close(*link, Why::Malformed),
    }
}

fn assert_asked<W: Live>(rt: &impl Abort, alloc: Global, world: &mut W, at: usize, asked: &Asked) {
    match asked {
        Asked::Attach(device, ty, kind, wanted) => {
            holds(
                rt,
                at,
                attached(alloc, world, *device, *ty, *kind) == *wanted,
            );
        }
        Asked::Capture(device, wanted, bytes) => {
            assert_capture(rt, world, at, *device, *wanted, bytes.as_slice());
        }
        Asked::Emit(device, sound, wanted) => assert_emit(rt, world, at, *device, sound, *wanted),
        Asked::Hook(device, wanted) => holds(rt, at, world.hook(*device, true) == *wanted),
    }
}

fn sent<S: Write>(client: &mut Option<S>, piece: &[u8]) -> io::Result<()> {
    match client {
        Some(client) => client.write_all(piece),
        None => Err(io::Error::from(ErrorKind::NotConnected)),
    }
}

fn assert_received<S: Read>(
    rt: &impl Abort,
    client: &mut Option<S>,
    at: usize,
    wanted: &[u8],
) -> io::Result<()> {
    let mut into = [b'-'; 8];
    let Some(client) = client else {
        return Err(io::Error::from(ErrorKind::NotConnected));
    };
    let count = client.read(&mut into)?;
    holds(rt, at, &into[..count] == wanted);
    Ok(())
}

fn assert_act<W: Live, R: Net + Abort>(
    rt: &R,
    alloc: Global,
    world: &mut W,
    address: &str,
    client: &mut Option<R::Stream>,
    at: usize,
    act: &Act,
) -> io::Result<()> {
    match act {
        Act::World(call) => assert_call(rt, alloc, world, at, call),
        Act::Device(asked) => assert_asked(rt, alloc, world, at, asked),
        Act::Connect => *client = Some(TcpStream::connect(rt, address)?),
        Act::Send(piece) => return sent(client, piece),
        Act::Receive(wanted) => return assert_received(rt, client, at, wanted),
        Act::Leave => *client = None,
    }
    Ok(())
}

// A world, and a client that connects to this address, do this, with these results.
fn assert_acts<W: Live, R: Net + Abort>(
    rt: &R,
    alloc: Global,
    world: &mut W,
    address: &str,
    acts: &[Act],
) -> io::Result<()> {
    let mut client = None;
    for (at, act) in acts.iter().enumerate() {
        assert_act(rt, alloc, world, address, &mut client, at, act)?;
    }
    Ok(())
}

// More than one, since another program may listen at one of them.
const ADDRESSES: [&str; 8] = [
    "127.0.0.1:27131",
    "127.0.0.1:27132",
    "127.0.0.1:27133",
    "127.0.0.1:27134",
    "127.0.0.1:27135",
    "127.0.0.1:27136",
    "127.0.0.1:27137",
    "127.0.0.1:27138",
];

// The address at which a world listens from now on.
fn listened<W: Live>(alloc: Global, world: &mut W) -> Option<&'static str> {
    for address in ADDRESSES {
        if world.listen(alloc, address) == Ready::Done {
            return Some(address);
        }
    }
    None
}

const BEFORE: [Act; 2] = [
    Act::World(Call::Wait(Waited::Failed)),
    Act::World(Call::Listen("no address", Ready::Failed)),
];

// More than one read gives.
const LONG: [u8; 20_000] = [b'+'; 20_000];

const LINK: [Act; 33] = [
    Act::World(Call::Listen("127.0.0.1:0", Ready::Failed)),
    Act::Connect,
    Act::Send(b"hello"),
    Act::World(Call::Wait(Waited::Woke(Wake::Opened(0)))),
    Act::World(Call::Wait(Waited::Woke(Wake::Readable(0)))),
    Act::World(Call::Read(0, LinkGot::Bytes(5), b"hello-")),
    Act::World(Call::Read(0, LinkGot::NotYet, b"------")),
    Act::World(Call::Poll(Waited::Woke(Wake::Idle))),
    Act::World(Call::Write(0, b"back", LinkTook::Took(4))),
    Act::Receive(b"back"),
    // a link is read once between two polls
    Act::Send(&LONG),
    Act::World(Call::Wait(Waited::Woke(Wake::Readable(0)))),
    Act::World(Call::Read(0, LinkGot::Bytes(16_384), b"++++++")),
    Act::World(Call::Read(0, LinkGot::NotYet, b"------")),
    Act::World(Call::Poll(Waited::Woke(Wake::Readable(0)))),
    Act::World(Call::Read(0, LinkGot::Bytes(3_616), b"++++++")),
    Act::Send(b"!"),
    Act::World(Call::Wait(Waited::Woke(Wake::Readable(0)))),
    Act::World(Call::Read(0, LinkGot::Bytes(1), b"!-----")),
    Act::World(Call::Close(0)),
    Act::Receive(b""),
    Act::World(Call::Read(0, LinkGot::Failed, b"------")),
    Act::World(Call::Write(0, b"!", LinkTook::Failed)),
    // the next client has the same number, and ends
    Act::Connect,
    Act::World(Call::Wait(Waited::Woke(Wake::Opened(0)))),
    Act::Leave,
    Act::World(Call::Wait(Waited::Woke(Wake::Readable(0)))),
    Act::World(Call::Read(0, LinkGot::Ended, b"------")),
    // its link is still open, so the next client has the next number, and after a close the next one has the least free number
    Act::Connect,
    Act::World(Call::Wait(Waited::Woke(Wake::Opened(1)))),
    Act::World(Call::Close(0)),
    Act::Connect,
    Act::World(Call::Wait(Waited::Woke(Wake::Opened(0)))),
];

// A world listens, and talks with a client.
fn assert_link<W: Live, R: Net + Abort>(rt: &R, alloc: Global, world: &mut W) -> Result<(), Fail> {
    assert_acts(rt, alloc, world, "", &BEFORE)?;
    let address = listened(alloc, world).ok_or("no address to listen at")?;
    assert_acts(rt, alloc, world, address, &LINK)?;
    Ok(())
}

#[test]
fn a_link_is_opened_read_written_and_closed(rt: HostRuntime) -> Result<(), Fail> {
    let mut world = MioWorld::new(rt.clone()?, rt.alloc(), StdSpawner::new(&rt));
    assert_link(&rt, rt.alloc(), &mut world)
}

const MISSING: Kind<'static> = Kind::Files {
    input: "af_world_missing",
    output: "af_world_output",
};

const THERE: Kind<'static> = Kind::Files {
    input: "af_world_input",
    output: "af_world_output",
};

const DEVICES: [Act; 28] = [
    Act::World(Call::Listen("localhost:0", Ready::Done)),
    Act::Device(Asked::Attach(1, SampleType::Alaw, MISSING, Ready::Failed)),
    Act::Device(Asked::Attach(1, SampleType::Alaw, THERE, Ready::Done)),
    Act::Device(Asked::Attach(1, SampleType::Alaw, THERE, Ready::Failed)),
    Act::Device(Asked::Attach(2, SampleType::Mu255, THERE, Ready::Done)),
    Act::Device(Asked::Attach(0, SampleType::Alaw, Kind::Silent, Ready::Done)),
    Act::Device(Asked::Attach(8, SampleType::Alaw, Kind::Silent, Ready::Failed)),
    Act::Device(Asked::Attach(4, SampleType::Mu255, Kind::Loop, Ready::Done)),
    Act::Device(Asked::Attach(4, SampleType::Mu255, Kind::Loop, Ready::Failed)),
    Act::World(Call::Wait(Waited::Woke(Wake::Ticked(0, 0)))),
    Act::World(Call::Wait(Waited::Woke(Wake::Ticked(1, 0)))),
    Act::World(Call::Wait(Waited::Woke(Wake::Ticked(2, 0)))),
    // silence in A-law is 213, and in mu-law 255
    Act::Device(Asked::Capture(0, Put::Done, &[213; 5])),
    Act::Device(Asked::Capture(1, Put::Done, &[97, 98, 99, 213, 213])),
    Act::Device(Asked::Capture(1, Put::Done, &[213; 5])),
    Act::Device(Asked::Capture(2, Put::Done, &[97, 98, 99, 255, 255])),
    Act::Device(Asked::Capture(2, Put::Done, &[255; 5])),
    Act::Device(Asked::Emit(1, b"xy", Put::Done)),
    Act::Device(Asked::Emit(1, b"z", Put::Done)),
    Act::Device(Asked::Emit(0, b"gone", Put::Done)),
    Act::Device(Asked::Hook(1, Put::Done)),
    Act::Device(Asked::Capture(3, Put::Failed, b"-----")),
    Act::Device(Asked::Emit(3, b"x", Put::Failed)),
    // a device that hears itself is full of silence, and takes as much as it gave
    Act::Device(Asked::Emit(4, b"x", Put::Failed)),
    Act::Device(Asked::Capture(4, Put::Done, &[255; 5])),
    Act::Device(Asked::Emit(4, b"abcdef", Put::Failed)),
    Act::Device(Asked::Emit(4, b"abcde", Put::Done)),
    Act::Device(Asked::Capture(4, Put::Done, &[255; 5])),
];

// An input of three bytes, and an output that has a byte already.
fn make_files<R: Files>(rt: &R) -> io::Result<()> {
    fs::write(rt, "af_world_input", b"abc")?;
    fs::write(rt, "af_world_output", b"[")
}

fn remove_files<R: Files>(rt: &R) -> io::Result<()> {
    fs::remove_file(rt, "af_world_input")?;
    fs::remove_file(rt, "af_world_output")
}

fn assert_output<R: Files + Alloc + Abort>(rt: &R, wanted: &str) -> io::Result<()> {
    let output = fs::read_to_string(rt, "af_world_output")?;
    assert!(rt; output.as_str() == wanted, "{output}");
    Ok(())
}

#[test]
fn devices_tick_capture_and_hand_out(rt: HostRuntime) -> Result<(), Fail> {
    make_files(&rt)?;
    let mut world = MioWorld::new(rt.clone()?, rt.alloc(), StdSpawner::new(&rt));
    let talked = assert_acts(&rt, rt.alloc(), &mut world, "", &DEVICES);
    drop(world);
    talked?;
    assert_output(&rt, "[xyz")?;
    remove_files(&rt)?;
    Ok(())
}
