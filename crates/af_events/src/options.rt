// What the tool events is asked to do, by its arguments.
ghost use Rattle.std.specs.Prelude.{◌≡◌, ◌<◌, ◌≤◌, true, false, map, option_map, string_bytes, Err, IfErr, IfOk, IfSome};
ghost use Rattle.std.specs.declared.option.Option.TheVariants.{Some};
ghost use Rattle.clap.specs.Words.{found_of, kind_of, matches_of, rows_of, takes};
ghost use Rattle.af_cli.specs.Ranges.{IsAddress};
ghost use Rattle.af_cli.specs.Arguments.{as_listed};
ghost use Rattle.af_cli.specs.Words.{wait_at};
ghost use Rattle.af_events.specs.Trace.{count_of};
ghost use Rattle.af_events.specs.EventsArguments.{events_arguments};
ghost use Rattle.af_events.specs.EventsWords.{choice_at, events_app, events_call, events_in, events_wait, is_events_spelled, job_at, kinds_at, names_events, stated_count, stated_lasting, words_of_call};

use crate::job::EventsJob;
use af_cli::{
    Absent, Argument, DEVICE, DeviceChoice, EventKinds, ORDER, OptionsFault, SERVER, Values, WAIT,
    address_at, choice_in, kinds_in, matches_for, order_at, stated_number_at, value_of, wait_at,
};
use af_io::Args;
use af_wire::Order;
use clap::error::ErrorKind;
use clap::{ArgMatches, Error};
use std::alloc::Global;

/// A server, the order of the connection, for how many seconds a refused dial is tried again, and what is to be told.
#[derive(Clone, Copy)]
pub struct EventsCall<'a> {
    pub server: &'a str,
    pub order: Order,
    pub wait: u32,
    pub job: EventsJob,
}

const DEVICES: Argument<'static> = Argument {
    values: Values::DeviceChoice,
    what: "the device whose line is meant, or each that has a line",
    ..DEVICE
};

const KINDS: Argument<'static> = Argument {
    name: "kinds",
    values: Values::EventKinds,
    absent: Absent::Default("ring,digit,loop,hook"),
    what: "the kinds of events that are told",
};

const COUNT: Argument<'static> = Argument {
    name: "count",
    values: Values::Number(1, 1000000),
    absent: Absent::Otherwise("until the connection ends"),
    what: "how many events are told",
};

const LASTING: Argument<'static> = Argument {
    name: "for",
    values: Values::Number(1, 86400000),
    absent: Absent::Otherwise("until the connection ends"),
    what: "the milliseconds of device time after which it is done",
};

static EVENTS: [Argument<'static>; 7] = [SERVER, DEVICES, KINDS, COUNT, LASTING, ORDER, WAIT];

/// The arguments: the server first.
#[tactic(auto, unfolding(crate::specs::EventsArguments::events_arguments))]
pub fn events_arguments<'a>() -> &'a [Argument<'a>]
    ensures { map as_listed result.now ≡ events_arguments }
{
    EVENTS.as_slice()
}

// The matches of the command. The first argument is its name.
fn events_matches<'a>(alloc: Global, given: &'a [String]) -> Result<ArgMatches<'a>, Error>
    ensures ok { IfOk result (λ m. rows_of (found_of m) ≡ matches_of events_app (map string_bytes given.entry.now)) }
    ensures err { IfErr result (λ e.
        takes events_app (map string_bytes given.entry.now) ≡ true → kind_of e ≡ ErrorKind.OutOfMemory) }
{
    matches_for(alloc, "events", events_arguments(), given)
}

// The devices whose lines are meant.
fn choice_at(matches: &ArgMatches<'_>) -> Option<DeviceChoice>
    ensures { result ≡ choice_at (rows_of (found_of matches.now)) }
{
    choice_in(value_of(matches, &DEVICES)?)
}

// The kinds of events.
fn kinds_at(matches: &ArgMatches<'_>) -> Option<EventKinds>
    ensures { result ≡ kinds_at (rows_of (found_of matches.now)) }
{
    kinds_in(value_of(matches, &KINDS)?)
}

// How many events are told, if that is stated.
fn count_at(matches: &ArgMatches<'_>) -> Option<Option<u32>>
    ensures value { result ≡ stated_count (rows_of (found_of matches.now)) }
    ensures range { IfSome result (λ count. IfSome count (λ n. 0 < n)) }
{
    stated_number_at(matches, &COUNT)
}

// For how many milliseconds they are told, if that is stated.
fn lasting_at(matches: &ArgMatches<'_>) -> Option<Option<u32>>
    ensures { result ≡ stated_lasting (rows_of (found_of matches.now)) }
{
    stated_number_at(matches, &LASTING)
}

// What is to be told.
fn job_at(matches: &ArgMatches<'_>) -> Option<EventsJob>
    ensures value { result ≡ job_at (rows_of (found_of matches.now)) }
    ensures some { IfSome result (λ job. 0 < count_of job) }
{
    let devices = choice_at(matches)?;
    let kinds = kinds_at(matches)?;
    let count = count_at(matches)?;
    let lasting = lasting_at(matches)?;
    Some(EventsJob {
        devices,
        kinds,
        count,
        lasting,
    })
}

// What the matches of the command ask for.
fn call_in<'a>(matches: &ArgMatches<'a>) -> Option<EventsCall<'a>>
    ensures value { option_map words_of_call result ≡ events_in (rows_of (found_of matches.now)) }
    ensures wait { IfSome result (λ call. wait_at (rows_of (found_of matches.now)) ≡ Some call.wait) }
    ensures range { IfSome result (λ call. (0 < count_of call.job) × IsAddress call.server.now) }
{
    let server = address_at(matches, &SERVER)?;
    let order = order_at(matches)?;
    let wait = wait_at(matches)?;
    let job = job_at(matches)?;
    Some(EventsCall {
        server,
        order,
        wait,
        job,
    })
}

/// Whether the first word names the tool.
pub fn names_events(words: &Args) -> bool
    ensures { result ≡ names_events words.now }
{
    match words.word(0) {
        Some(name) => name == "events",
        None => false,
    }
}

/// What these arguments ask. The first of them names the tool. Usage only if they are not valid: they do not name the tool, its
/// command refuses them, or a value is out of range.
pub fn call_of(alloc: Global, words: &Args) -> Result<EventsCall<'_>, OptionsFault>
    ensures ok { IfOk result (λ call. events_call words.now ≡ Some (words_of_call call)) }
    ensures wait { IfOk result (λ call. events_wait words.now ≡ Some call.wait) }
    ensures range { IfOk result (λ call. (0 < count_of call.job) × IsAddress call.server.now) }
    ensures usage { result ≡ Err OptionsFault.Usage → is_events_spelled words.now ≡ false }
{
    if !names_events(words) {
        return Err(OptionsFault::Usage);
    }
    let matches = match events_matches(alloc, words.as_slice()) {
        Ok(matches) => matches,
        Err(e) if e.kind() == ErrorKind::OutOfMemory => return Err(OptionsFault::OutOfMemory),
        Err(_) => return Err(OptionsFault::Usage),
    };
    match call_in(&matches) {
        Some(call) => Ok(call),
        None => Err(OptionsFault::Usage),
    }
}
