// What the tool meter is asked to do, by its arguments.
ghost use Rattle.std.specs.Prelude.{◌≡◌, ◌<◌, ◌≤◌, true, false, map, option_map, string_bytes, Err, IfErr, IfOk, IfSome};
ghost use Rattle.std.specs.declared.option.Option.TheVariants.{Some};
ghost use Rattle.clap.specs.Words.{found_of, kind_of, matches_of, rows_of, takes};
ghost use Rattle.af_cli.specs.Ranges.{IsAddress};
ghost use Rattle.af_cli.specs.Arguments.{as_listed};
ghost use Rattle.af_cli.specs.Words.{wait_at};
ghost use Rattle.af_meter.specs.Plans.{IsMeterJob};
ghost use Rattle.af_meter.specs.Trace.{count_of};
ghost use Rattle.af_meter.specs.MeterArguments.{meter_arguments};
ghost use Rattle.af_meter.specs.MeterWords.{every_at, job_at, meter_app, meter_call, meter_in, meter_wait, is_meter_spelled, names_meter, quiet_at, quiet_in, stated_count, words_of_call};

use crate::job::{MeterJob, Quiet};
use af_cli::{
    Absent, Argument, DEVICE, ORDER, OptionsFault, SERVER, Values, WAIT, address_at, device_at,
    matches_for, number_at, order_at, stated_number_at, wait_at,
};
use af_io::Args;
use af_wire::Order;
use clap::error::ErrorKind;
use clap::{ArgMatches, Error};
use std::alloc::Global;

/// A server, the order of the connection, for how many seconds a refused dial is tried again, and what is to be measured.
#[derive(Clone, Copy)]
pub struct MeterCall<'a> {
    pub server: &'a str,
    pub order: Order,
    pub wait: u32,
    pub job: MeterJob,
}

const EVERY: Argument<'static> = Argument {
    name: "every",
    values: Values::Number(1, 60000),
    absent: Absent::Default("100"),
    what: "the milliseconds of an interval",
};

const COUNT: Argument<'static> = Argument {
    name: "count",
    values: Values::Number(1, 1000000),
    absent: Absent::Otherwise("until the connection ends"),
    what: "how many lines are written",
};

const BELOW: Argument<'static> = Argument {
    name: "below",
    values: Values::Number(1, 32768),
    absent: Absent::Otherwise("each interval has a line"),
    what: "only changes have a line: it is quiet once all peaks were below this, --for so long",
};

const LASTING: Argument<'static> = Argument {
    name: "for",
    values: Values::Number(1, 3600000),
    absent: Absent::Otherwise("each interval has a line"),
    what: "the milliseconds for which all peaks are --below",
};

static METER: [Argument<'static>; 8] = [SERVER, DEVICE, EVERY, COUNT, BELOW, LASTING, ORDER, WAIT];

/// The arguments: the server first.
#[tactic(auto, unfolding(crate::specs::MeterArguments::meter_arguments))]
pub fn meter_arguments<'a>() -> &'a [Argument<'a>]
    ensures { map as_listed result.now ≡ meter_arguments }
{
    METER.as_slice()
}

// The matches of the command. The first argument is its name.
fn meter_matches<'a>(alloc: Global, given: &'a [String]) -> Result<ArgMatches<'a>, Error>
    ensures ok { IfOk result (λ m. rows_of (found_of m) ≡ matches_of meter_app (map string_bytes given.entry.now)) }
    ensures err { IfErr result (λ e.
        takes meter_app (map string_bytes given.entry.now) ≡ true → kind_of e ≡ ErrorKind.OutOfMemory) }
{
    matches_for(alloc, "meter", meter_arguments(), given)
}

// What counts as quiet, by a limit and for how long, which need each other.
fn quiet_in(below: Option<u32>, lasting: Option<u32>) -> Option<Option<Quiet>>
    ensures { result ≡ quiet_in below lasting }
{
    match (below, lasting) {
        (None, None) => Some(None),
        (Some(below), Some(milliseconds)) => Some(Some(Quiet {
            below,
            milliseconds,
        })),
        _ => None,
    }
}

// What counts as quiet, if that is stated.
fn quiet_at(matches: &ArgMatches<'_>) -> Option<Option<Quiet>>
    ensures value { result ≡ quiet_at (rows_of (found_of matches.now)) }
    ensures range { IfSome result (λ quiet. IfSome quiet (λ q. q.milliseconds ≤ 3600000)) }
{
    let below = stated_number_at(matches, &BELOW)?;
    let lasting = stated_number_at(matches, &LASTING)?;
    quiet_in(below, lasting)
}

// How long an interval is.
fn every_at(matches: &ArgMatches<'_>) -> Option<u32>
    ensures value { result ≡ every_at (rows_of (found_of matches.now)) }
    ensures range { IfSome result (λ every. every ≤ 60000) }
{
    number_at(matches, &EVERY)
}

// How many lines are written, if that is stated.
fn count_at(matches: &ArgMatches<'_>) -> Option<Option<u32>>
    ensures value { result ≡ stated_count (rows_of (found_of matches.now)) }
    ensures range { IfSome result (λ count. IfSome count (λ n. 0 < n)) }
{
    stated_number_at(matches, &COUNT)
}

// What is to be measured.
fn job_at(matches: &ArgMatches<'_>) -> Option<MeterJob>
    ensures value { result ≡ job_at (rows_of (found_of matches.now)) }
    ensures range { IfSome result (λ job. IsMeterJob job × (0 < count_of job)) }
{
    let device = device_at(matches, &DEVICE)?;
    let every = every_at(matches)?;
    let count = count_at(matches)?;
    let quiet = quiet_at(matches)?;
    Some(MeterJob {
        device,
        every,
        count,
        quiet,
    })
}

// What the matches of the command ask for.
fn call_in<'a>(matches: &ArgMatches<'a>) -> Option<MeterCall<'a>>
    ensures value { option_map words_of_call result ≡ meter_in (rows_of (found_of matches.now)) }
    ensures wait { IfSome result (λ call. wait_at (rows_of (found_of matches.now)) ≡ Some call.wait) }
    ensures range { IfSome result (λ call. IsMeterJob call.job × (0 < count_of call.job) × IsAddress call.server.now) }
{
    let server = address_at(matches, &SERVER)?;
    let order = order_at(matches)?;
    let wait = wait_at(matches)?;
    let job = job_at(matches)?;
    Some(MeterCall {
        server,
        order,
        wait,
        job,
    })
}

/// Whether the first word names the tool.
pub fn names_meter(words: &Args) -> bool
    ensures { result ≡ names_meter words.now }
{
    match words.word(0) {
        Some(name) => name == "meter",
        None => false,
    }
}

/// What these arguments ask. The first of them names the tool. Usage only if they are not valid: they do not name the tool, its
/// command refuses them, or a value is out of range.
pub fn call_of(alloc: Global, words: &Args) -> Result<MeterCall<'_>, OptionsFault>
    ensures ok { IfOk result (λ call. meter_call words.now ≡ Some (words_of_call call)) }
    ensures wait { IfOk result (λ call. meter_wait words.now ≡ Some call.wait) }
    ensures range { IfOk result (λ call. IsMeterJob call.job × (0 < count_of call.job) × IsAddress call.server.now) }
    ensures usage { result ≡ Err OptionsFault.Usage → is_meter_spelled words.now ≡ false }
{
    if !names_meter(words) {
        return Err(OptionsFault::Usage);
    }
    let matches = match meter_matches(alloc, words.as_slice()) {
        Ok(matches) => matches,
        Err(e) if e.kind() == ErrorKind::OutOfMemory => return Err(OptionsFault::OutOfMemory),
        Err(_) => return Err(OptionsFault::Usage),
    };
    match call_in(&matches) {
        Some(call) => Ok(call),
        None => Err(OptionsFault::Usage),
    }
}
