// The server's command over a world on real time.
ghost use Rattle.std.specs.Prelude.{◌≡◌, ◌≢◌, ◌↔◌, true};
ghost use Rattle.std.specs.declared.option.Option.TheVariants.{None};
ghost use Rattle.af_io.specs.Observed.{CountsFault, NoFault};
ghost use Rattle.afd_serve.specs.Words.{serve_job_of, AsksForever};
ghost use Rattle.afd_serve.specs.Ends.{CountsFaults, EndsBeforeWaits, EndsWell, IsGoodConfig, ServeLeavesAlone, ServerRan, ConfigReadAs, comes_to_wait, live_status};

use crate::Endless;
use crate::serve::serve;
use crate::start::{read_setting, start};
use crate::words::asked_for;
use af_io::{Args, Source};
use af_world::Live;
use std::alloc::Global;

/// How the server ended.
#[derive(Clone, Copy, Debug, PartialEq, Eq)]
pub enum LiveEnd {
    /// A wait gave Stop.
    Done,
    /// The words are none of this command's.
    Usage,
    ReadFault,
    /// The source gave more than 65536 bytes.
    TooLong,
    /// The text is no configuration; this is its first line that may not stand where it stands.
    ConfigFault { line: u32 },
    ListenFault,
    /// This device was not attached.
    AttachFault { device: u8 },
    WaitFault,
    /// All waits that were asked for had their turn.
    WaitsSpent,
    OutOfMemory,
}

/// The exit status of an end.
pub fn status_of(end: LiveEnd) -> u8
    ensures { result ≡ live_status end }
{
    match end {
        LiveEnd::Done => 0,
        LiveEnd::Usage => 2,
        LiveEnd::ConfigFault { line: _ } => 3,
        LiveEnd::TooLong => 4,
        LiveEnd::ReadFault => 5,
        LiveEnd::OutOfMemory => 7,
        LiveEnd::ListenFault => 8,
        LiveEnd::AttachFault { device: _ } => 9,
        LiveEnd::WaitFault => 10,
        LiveEnd::WaitsSpent => 11,
    }
}

/// The server. With the words `serve ADDRESS WAITS` it reads the source to its end, as its configuration. It listens at the
/// address, attaches the devices in order, and then waits, and takes a turn for each wake, until a wait gives Stop or so many
/// waits had their turn; WAITS may be `forever`. It takes memory before its first wait alone. It may wait, so what is promised of
/// it holds if it returns.
pub fn afd_live<S: Source, W: Live>(
    alloc: Global,
    endless: &dyn Endless,
    words: &Args,
    config: &mut S,
    world: &mut W,
) -> LiveEnd
    ensures usage { (result ≡ LiveEnd.Usage) ↔ (serve_job_of words.now ≡ None) }
    ensures untouched { ServeLeavesAlone W.World.log result config.old config.new world.old world.new }
    ensures given { ConfigReadAs (λ end. result ≡ end) (S.left config.old) (S.left config.new) }

    // each fault has its cause
    ensures source { CountsFault (result ≡ LiveEnd.ReadFault) (S.faults config.old) (S.faults config.new) }
    ensures world { CountsFaults W.World.link_faults W.World.device_faults W.listen_faults W.wait_faults
        (λ end. result ≡ end) world.old world.new }

    // what was asked of the world: before the first wait, if none came, and from the first wait on
    ensures unserved { EndsBeforeWaits W.lifecycle result words.now (S.left config.old) (S.left config.new) world.old world.new }
    ensures served { comes_to_wait result ≡ true → ServerRan result words.now (S.left config.old) (S.left config.new)
        (W.World.log world.old) (W.World.log world.new) (W.lifecycle world.old) (W.lifecycle world.new) }

    // if it is asked to go on forever, it does not end for want of waits
    ensures forever { AsksForever words.now → result ≢ LiveEnd.WaitsSpent }

    // a good configuration is served, if there is memory and the devices can be attached
    ensures complete { IsGoodConfig words.now (S.left config.old) (S.left config.new) → NoFault S.faults config.old config.new →
        NoFault W.listen_faults world.old world.new → NoFault W.wait_faults world.old world.new → EndsWell result }
{
    let Some(command) = asked_for(words) else {
        return LiveEnd::Usage;
    };
    let setting = match read_setting(alloc, config) {
        Ok(setting) => setting,
        Err(end) => return end,
    };
    let mut core = match start(alloc, command.address, &setting, world) {
        Ok(core) => core,
        Err(end) => return end,
    };
    serve(endless, &mut core, command.waits, world)
}
