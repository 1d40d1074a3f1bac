// How a wait finds its wake: it looks at what is kept ready of a link, then at the next device of the round, then at the next
// telephone line, and then at what a poll finds.
ghost use Rattle.std.specs.Prelude.{◌≡◌, ◌≤◌, ◌<◌, ◌^◌, ◌||◌, ℕ, true, false, is_some, IfSome, MatchOption};
ghost use Rattle.std.specs.declared.option.Option.TheVariants.{None};
ghost use Rattle.std.specs.Duration.{as_nanos};
ghost use Rattle.mio.specs.Events.{items};
ghost use Rattle.af_limits.specs.Limits.{most_links};
ghost use Rattle.af_backend.specs.Rounds.{next_round};
ghost use Rattle.af_lines.specs.HeldLines.{lines_at_round_start};
ghost use Rattle.af_live.specs.LinkTable.{link_at, something_ready, KeepsOpen, LinkWakeFits, Opens};
ghost use Rattle.af_live.specs.Polls.{latest_poll, LeadsLinks, PolledGives};
ghost use Rattle.af_live.specs.Readings.{late_millis, no_step, pause_of, HasWentOn, IsUrgent, PausesBy, PausesFor, ReadsBy};
ghost use Rattle.af_live.specs.Streams.{KeepsOwn, StaysOwn};
ghost use Rattle.af_live.specs.RealWorld.{given_wake, GivesKept, LeadsLines, LeadsRound, WakeFits};

use crate::held_links::HeldLinks;
use crate::sockets::Sockets;
use crate::timer::{NANOS_A_MILLISECOND, Timer, whole_millis};
use crate::told_clock::ToldClock;
use af_backend::{Devices, LONGEST_STEP_NANOS, Round};
use af_limits::MOST_DEVICES;
use af_lines::Lines;
use af_process::Spawner;
use af_program::Program;
use af_world::{Waited, Wake};
use std::io::{Read, Write};
use std::time::Duration;

/// How many milliseconds a wait with nothing to do waits at most, and so the longest that a device may be late.
const LONGEST_PAUSE_MILLIS: u64 = 10;

/// For how many nanoseconds a server that catches up serves its clients between two steps. Without this a fast server passes what
/// they have sent.
const CATCHING_UP_PAUSE_NANOS: u64 = 500_000;

/// The last step of the readings: what the clock showed then, and whether that was ahead of the reading by a whole step of a
/// server that catches up, or more.
#[derive(Clone, Copy)]
pub(crate) struct Step {
    shown: u64,
    is_late: bool,
}

impl Step {
    /// No step was made so far.
    pub fn new() -> Step
        ensures { result ≡ no_step }
    {
        Step {
            shown: 0,
            is_late: false,
        }
    }

    /// By how many milliseconds the last reading is late: what the clock showed at this step is further on.
    pub fn late_millis(&self, last: Option<u64>) -> u64
        ensures { result ≡ late_millis self.now last }
    {
        match last {
            Some(last) => self.shown.saturating_sub(last) / NANOS_A_MILLISECOND,
            None => 0,
        }
    }
}

/// The reading of the clock that a round goes by: its own, or one that is taken now. After the server stood still that lags what
/// the clock shows, step by step at most 20 milliseconds further. Between two steps rounds go by the same reading for half a
/// millisecond, in which all clients are served, if there are any.
fn reading<C: ToldClock>(
    clock: &mut C,
    round: &Round,
    has_links: bool,
    timer: &mut Timer,
    step: &mut Step,
) -> Option<u64>
    ensures { ReadsBy round.now.reading round.now.last
        (record { timer = timer.old; step = step.old; answers = C.answers clock.old }) result
        (record { timer = timer.new; step = step.new; answers = C.answers clock.new }) }
{
    if let Some(taken) = round.reading() {
        return Some(taken);
    }
    let shown = timer.nanos(clock)?;
    let next = round.reading_after(whole_millis(shown));
    let is_late = shown.saturating_sub(next) >= LONGEST_STEP_NANOS;
    let is_served = shown.saturating_sub(step.shown) >= CATCHING_UP_PAUSE_NANOS;
    if is_late && has_links && !is_served {
        if let Some(last) = round.last_reading() {
            return Some(last);
        }
    }
    *step = Step { shown, is_late };
    Some(next)
}

/// Whether what there is to do is to be done at once. Where no device has a line, a turn leaves reads alone to do. Where all that
/// had come by each link was read, these give nothing before the system tells that more has come.
fn is_urgent<P: Program + Drop>(more: bool, links: &HeldLinks, lines: &Lines<P>) -> bool
    ensures { IsUrgent more links.now lines.now result }
{
    if more && !lines.has_lines() && links.are_drained() {
        false
    } else {
        more
    }
}

/// Whether something may be due at once after this round: a device ticked in it, or a line changed. A tick leaves nothing due
/// where no device goes by its program, and the reading of the round is what the clock showed.
fn went_on<P: Program + Drop>(round: &Round, lines: &Lines<P>, step: &Step) -> bool
    ensures { HasWentOn round.now lines.now step.now result }
{
    if !round.has_programs() && step.late_millis(round.last_reading()) == 0 {
        lines.has_changed()
    } else {
        round.has_ticked() || lines.has_changed()
    }
}

/// How long a poll after this round waits at most.
fn pause_after<P: Program + Drop>(
    more: bool,
    step: &Step,
    links: &HeldLinks,
    round: &Round,
    lines: &Lines<P>,
) -> Duration
    ensures { PausesFor more step.now links.now round.now lines.now (as_nanos result) }
{
    let urgent = is_urgent(more, links, lines);
    let goes_on = went_on(round, lines, step);
    pause(urgent, goes_on, step.is_late, links.some_cut())
}

/// What a poll finds first, at this reading of the clock. A new round over the devices and their lines begins after it. The poll
/// waits only if there is nothing more to do, nothing may be due after the round, the server is not late, and no link is cut.
fn poll_once<P: Program + Drop>(
    sockets: &mut Sockets,
    more: bool,
    step: &Step,
    nanos: u64,
    links: &mut HeldLinks,
    round: &mut Round,
    lines: &mut Lines<P>,
) -> Option<Wake>
    ensures pause { PausesFor more step.now links.old round.old lines.old (as_nanos sockets.new.pause) }
    ensures fits { IfSome result (λ wake. LinkWakeFits links.old wake) }
    ensures opens { MatchOption result (KeepsOpen links.old links.new) (λ wake. Opens wake links.old links.new) }
    ensures links { MatchOption result (links.new ≡ links.old)
        (λ wake. PolledGives (items sockets.new.events) wake links.old links.new) }
    ensures round { MatchOption result (round.new ≡ round.old) (λ wake. round.new ≡ next_round round.old) }
    ensures lines { MatchOption result (lines.new ≡ lines.old) (λ wake. lines.new ≡ lines_at_round_start lines.old) }
    ensures own { KeepsOwn sockets.old.streams links.old sockets.new.streams links.new }
{
    let pause = pause_after(more, step, links, round, lines);
    if !sockets.poll(pause, nanos, links) {
        return None;
    }
    round.begin();
    lines.begin();
    match links.take_ready() {
        Some(wake) => Some(wake),
        None => Some(Wake::Idle),
    }
}

/// The next wake: what is kept ready, or the next device of the round with frames due, or the next line that changes, or what the
/// next poll finds. None if the system was not to be asked.
pub(crate) fn next_wake<C: ToldClock, F: Read + Write + Drop, S: Spawner + Drop, P: Program + Drop>(
    clock: &mut C,
    more: bool,
    sockets: &mut Option<Sockets>,
    links: &mut HeldLinks,
    devices: &mut Devices<F, S, P>,
    lines: &mut Lines<P>,
    timer: &mut Timer,
    step: &mut Step,
) -> Option<Wake>
    ensures listens { is_some sockets.new ≡ is_some sockets.old }
    ensures unlistened { is_some sockets.old ≡ false → result ≡ None }
    ensures kept { (k : ℕ) → is_some sockets.old ≡ true → k < most_links → something_ready (link_at links.old k) ≡ true →
        GivesKept result links.old devices.old.round links.new devices.new.round }
    ensures fits { IfSome result (λ wake. WakeFits links.old devices.old.round lines.old wake) }
    ensures opens { MatchOption result (KeepsOpen links.old links.new) (λ wake. Opens wake links.old links.new) }
    ensures pauses { PausesBy more step.new.is_late links.old lines.new (latest_poll sockets.old) (latest_poll sockets.new) }
    ensures links { LeadsLinks (latest_poll sockets.new).events result links.old links.new }
    ensures round { LeadsRound result
        links.old (record { timer = timer.old; step = step.old; answers = C.answers clock.old })
        devices.old.round devices.old.attached
        links.new (record { timer = timer.new; step = step.new; answers = C.answers clock.new })
        devices.new.round devices.new.attached }
    ensures lines { LeadsLines result links.old devices.old.round lines.old links.new devices.new.round lines.new }
    ensures rest { devices.new ≡ record devices.old { round = devices.new.round; attached = devices.new.attached } }
    ensures own { StaysOwn sockets.old links.old sockets.new links.new }
{
    let Some(sockets) = sockets else {
        return None;
    };
    if let Some(wake) = links.take_ready() {
        return Some(wake);
    }
    let nanos = reading(clock, &devices.round, sockets.has_links(), timer, step)?;
    if let Some((device, frames)) = devices.next_tick(nanos) {
        return Some(Wake::Ticked(device, frames));
    }
    if let Some((device, change)) = lines.next_change(nanos) {
        return Some(Wake::Line(device, change));
    }
    watch_programs(sockets, devices);
    let round = &mut devices.round;
    poll_once(sockets, more, step, nanos, links, round, lines)
}

/// Has the poll look at the programs that devices go by.
fn watch_programs<F: Read + Write + Drop, S: Spawner + Drop, P: Program + Drop>(
    sockets: &mut Sockets,
    devices: &Devices<F, S, P>,
)
    ensures { sockets.new.streams ≡ sockets.old.streams }
{
    if !devices.round.has_programs() {
        return;
    }
    for device in 0..MOST_DEVICES {
        if let Some(card) = devices.card(device as u8) {
            sockets.watch(device, card.tried(), card.program().sockets());
        }
    }
}

/// What a wait answers that found this wake, or none.
pub(crate) fn answer(next: Option<Wake>) -> Waited
    ensures given { given_wake result ≡ next }
    ensures failed { next ≡ None → result ≡ Waited.Failed }
{
    match next {
        Some(wake) => Waited::Woke(wake),
        None => Waited::Failed,
    }
}

/// How long a poll waits at most.
fn pause(more: bool, went_on: bool, is_late: bool, cut: bool) -> Duration
    ensures { as_nanos result ≡ pause_of more went_on is_late cut }
{
    if more || went_on || is_late || cut {
        Duration::ZERO
    } else {
        Duration::from_millis(LONGEST_PAUSE_MILLIS)
    }
}
