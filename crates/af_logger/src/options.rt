// What the tool log is asked to do, by its arguments.
ghost use Rattle.std.specs.Prelude.{◌≡◌, ◌<◌, ◌≤◌, true, false, length, map, option_map, string_bytes, Err, IfErr, IfOk, IfSome};
ghost use Rattle.std.specs.declared.option.Option.TheVariants.{Some};
ghost use Rattle.clap.specs.Words.{found_of, kind_of, matches_of, rows_of, takes};
ghost use Rattle.af_cli.specs.Ranges.{IsAddress};
ghost use Rattle.af_cli.specs.Arguments.{as_listed};
ghost use Rattle.af_cli.specs.Words.{longest_command, number_at, stated_number_at, text_at, wait_at};
ghost use Rattle.af_logger.specs.Plans.{IsLogJob};
ghost use Rattle.af_logger.specs.LogArguments.{count, every, log_arguments};
ghost use Rattle.af_logger.specs.LogWords.{form_at, log_app, log_call, log_in, log_wait, is_log_spelled, names_log, words_of_call};

use crate::job::LogJob;
use af_cli::{
    Absent, Argument, DEVICE, LONGEST_COMMAND, ORDER, OptionsFault, SERVER, Values, WAIT,
    address_at, block_at, device_at, form_in, matches_for, number_at, order_at, stated_number_at,
    text_at, type_at, value_of, wait_at,
};
use af_io::Args;
use af_sound::SoundForm;
use af_wire::Order;
use arrayvec::ArrayString;
use clap::error::ErrorKind;
use clap::{ArgMatches, Error};
use std::alloc::Global;

/// A server, the order of the connection, for how many seconds a refused dial is tried again, and what is to be logged.
#[derive(Drop)]
pub struct LogCall<'a> {
    pub server: &'a str,
    pub order: Order,
    pub wait: u32,
    pub job: LogJob,
}

const EVERY: Argument<'static> = Argument {
    name: "every",
    values: Values::Number(1, 86400),
    absent: Absent::Missing,
    what: "the seconds of a piece",
};

const INTO: Argument<'static> = Argument {
    name: "into",
    values: Values::Command,
    absent: Absent::Missing,
    what: "what is handed each piece, 1 to 200 bytes for a shell",
};

const COUNT: Argument<'static> = Argument {
    name: "count",
    values: Values::Number(1, 1000000),
    absent: Absent::Otherwise("until the connection ends"),
    what: "how many pieces are recorded",
};

const FILE: Argument<'static> = Argument {
    name: "file",
    values: Values::Form,
    absent: Absent::Default("wave"),
    what: "what a piece is: samples, or a sound file",
};

const TYPE: Argument<'static> = Argument {
    name: "type",
    values: Values::SampleType,
    absent: Absent::Otherwise("that of the device"),
    what: "the type of the samples",
};

const BLOCK: Argument<'static> = Argument {
    name: "block",
    values: Values::Number(1, 4000),
    absent: Absent::Default("1000"),
    what: "frames that one request records",
};

const TIME: Argument<'static> = Argument {
    name: "time",
    values: Values::Number(0, 4294967295),
    absent: Absent::Otherwise("now"),
    what: "the device time of the first frame",
};

static LOG: [Argument<'static>; 11] = [
    SERVER, EVERY, INTO, COUNT, DEVICE, FILE, TYPE, BLOCK, TIME, ORDER, WAIT,
];

/// The arguments: the server first, then what has to be there.
#[tactic(auto, unfolding(crate::specs::LogArguments::log_arguments))]
pub fn log_arguments<'a>() -> &'a [Argument<'a>]
    ensures { map as_listed result.now ≡ log_arguments }
{
    LOG.as_slice()
}

// The matches of the command. The first argument is its name.
fn log_matches<'a>(alloc: Global, given: &'a [String]) -> Result<ArgMatches<'a>, Error>
    ensures ok { IfOk result (λ m. rows_of (found_of m) ≡ matches_of log_app (map string_bytes given.entry.now)) }
    ensures err { IfErr result (λ e.
        takes log_app (map string_bytes given.entry.now) ≡ true → kind_of e ≡ ErrorKind.OutOfMemory) }
{
    matches_for(alloc, "log", log_arguments(), given)
}

// What a shell runs for each piece.
fn command_at(matches: &ArgMatches<'_>) -> Option<ArrayString<200>>
    ensures text { option_map (λ text. text.bytes) result
        ≡ text_at Rattle.af_logger.specs.LogArguments.into longest_command (rows_of (found_of matches.now)) }
    ensures size { IfSome result (λ text. (1 ≤ length text.bytes) × (length text.bytes ≤ 200)) }
{
    let text = text_at(matches, &INTO, LONGEST_COMMAND)?;
    let mut copy = ArrayString::new();
    copy.push_str(text);
    Some(copy)
}

// What a piece is.
fn form_at(matches: &ArgMatches<'_>) -> Option<Option<SoundForm>>
    ensures { result ≡ form_at (rows_of (found_of matches.now)) }
{
    form_in(value_of(matches, &FILE)?)
}

// The seconds of a piece.
fn every_at(matches: &ArgMatches<'_>) -> Option<u32>
    ensures value { result ≡ number_at every (rows_of (found_of matches.now)) }
    ensures range { IfSome result (λ every. (1 ≤ every) × (every ≤ 86400)) }
{
    number_at(matches, &EVERY)
}

// How many pieces are recorded, if that is stated.
fn count_at(matches: &ArgMatches<'_>) -> Option<Option<u32>>
    ensures value { result ≡ stated_number_at count (rows_of (found_of matches.now)) }
    ensures range { IfSome result (λ count. IfSome count (λ n. 0 < n)) }
{
    stated_number_at(matches, &COUNT)
}

// What the matches of the command ask for.
fn call_in<'a>(matches: &ArgMatches<'a>) -> Option<LogCall<'a>>
    ensures value { option_map words_of_call result ≡ log_in (rows_of (found_of matches.now)) }
    ensures wait { IfSome result (λ call. wait_at (rows_of (found_of matches.now)) ≡ Some call.wait) }
    ensures range { IfSome result (λ call. IsLogJob call.job × IsAddress call.server.now) }
{
    let server = address_at(matches, &SERVER)?;
    let order = order_at(matches)?;
    let wait = wait_at(matches)?;
    let device = device_at(matches, &DEVICE)?;
    let ty = type_at(matches)?;
    let form = form_at(matches)?;
    let block = block_at(matches)?;
    let every = every_at(matches)?;
    let count = count_at(matches)?;
    let time = stated_number_at(matches, &TIME)?;
    let command = command_at(matches)?;
    let job = LogJob {
        device,
        ty,
        form,
        block,
        every,
        count,
        time,
        command,
    };
    Some(LogCall {
        server,
        order,
        wait,
        job,
    })
}

/// Whether the first word names the tool.
pub fn names_log(words: &Args) -> bool
    ensures { result ≡ names_log words.now }
{
    match words.word(0) {
        Some(name) => name == "log",
        None => false,
    }
}

/// What these arguments ask. The first of them names the tool. Usage only if they are not valid: they do not name the tool, its
/// command refuses them, or a value is out of range.
pub fn call_of(alloc: Global, words: &Args) -> Result<LogCall<'_>, OptionsFault>
    ensures ok { IfOk result (λ call. log_call words.now ≡ Some (words_of_call call)) }
    ensures wait { IfOk result (λ call. log_wait words.now ≡ Some call.wait) }
    ensures range { IfOk result (λ call. IsLogJob call.job × IsAddress call.server.now) }
    ensures usage { result ≡ Err OptionsFault.Usage → is_log_spelled words.now ≡ false }
{
    if !names_log(words) {
        return Err(OptionsFault::Usage);
    }
    let matches = match log_matches(alloc, words.as_slice()) {
        Ok(matches) => matches,
        Err(e) if e.kind() == ErrorKind::OutOfMemory => return Err(OptionsFault::OutOfMemory),
        Err(_) => return Err(OptionsFault::Usage),
    };
    match call_in(&matches) {
        Some(call) => Ok(call),
        None => Err(OptionsFault::Usage),
    }
}
