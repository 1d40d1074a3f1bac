// What a machine that hears its caller is asked to do, by its arguments.
ghost use Rattle.std.specs.Prelude.{◌≡◌, ◌<◌, ◌≤◌, true, false, length, map, option_map, string_bytes, Err, IfErr, IfOk, IfSome};
ghost use Rattle.std.specs.declared.option.Option.TheVariants.{Some};
ghost use Rattle.clap.specs.Words.{found_of, kind_of, matches_of, rows_of, takes};
ghost use Rattle.af_cli.specs.Ranges.{IsAddress};
ghost use Rattle.af_cli.specs.Arguments.{as_listed, device};
ghost use Rattle.af_cli.specs.Words.{device_at, is_set, longest_command, number_at, text_at, wait_at};
ghost use Rattle.af_limits.specs.Limits.{most_devices};
ghost use Rattle.af_answer.specs.Answered.{IsAnswerJob};
ghost use Rattle.af_answer.specs.AnswerArguments.{calls, rings};
ghost use Rattle.af_attendant.specs.AttendantArguments.{attendant_arguments};
ghost use Rattle.af_attendant.specs.AttendantWords.{
  answer_at,
  answer_values,
  attendant_app,
  attendant_call,
  attendant_wait,
  is_attendant_spelled,
  is_of_attendant,
  names_attendant,
  states_one,
  until_at,
  words_in,
  words_of_call,
};

use crate::job::AttendantJob;
use af_answer::{AnswerJob, names_answer};
use af_cli::{
    Absent, Argument, DEVICE, LONGEST_COMMAND, OptionsFault, SERVER, Values, WAIT, address_at,
    device_at, is_set, matches_for, number_at, states_digits, text_at, value_of, wait_at,
};
use af_io::Args;
use arrayvec::ArrayString;
use clap::error::ErrorKind;
use clap::{ArgMatches, Error};
use std::alloc::Global;

/// A server, for how many seconds a refused dial of it is tried again, and what is to be done with it.
#[derive(Drop)]
pub struct AttendantCall<'a> {
    pub server: &'a str,
    pub wait: u32,
    pub job: AttendantJob,
}

const CALLS: Argument<'static> = Argument {
    name: "calls",
    values: Values::Number(1, 1000),
    absent: Absent::Missing,
    what: "how many calls are taken",
};

const GREETING: Argument<'static> = Argument {
    name: "greeting",
    values: Values::Command,
    absent: Absent::Missing,
    what: "what plays the greeting, 1 to 200 bytes for a shell",
};

const MESSAGE: Argument<'static> = Argument {
    name: "message",
    values: Values::Command,
    absent: Absent::Missing,
    what: "what records the message, 1 to 200 bytes for a shell",
};

const RINGS: Argument<'static> = Argument {
    name: "rings",
    values: Values::Number(1, 20),
    absent: Absent::Default("2"),
    what: "the ring at which a call is taken",
};

const UNTIL: Argument<'static> = Argument {
    name: "until",
    values: Values::Digits,
    absent: Absent::Otherwise("no digit ends a command"),
    what: "which digits end a command that runs, 1 to 16 of 0123456789*#ABCD",
};

const HANG_UP: Argument<'static> = Argument {
    name: "hang-up",
    values: Values::Flag,
    absent: Absent::Otherwise("a caller who hangs up ends no command"),
    what: "ends a command that runs once the caller hangs up",
};

static ATTENDANT: [Argument<'static>; 9] = [
    SERVER,
    CALLS,
    GREETING,
    MESSAGE,
    Argument {
        what: "the device whose line is answered",
        ..DEVICE
    },
    RINGS,
    UNTIL,
    HANG_UP,
    WAIT,
];

/// The arguments: the server first, then what has to be there.
#[tactic(auto, unfolding(crate::specs::AttendantArguments::attendant_arguments))]
pub fn attendant_arguments<'a>() -> &'a [Argument<'a>]
    ensures { map as_listed result.now ≡ attendant_arguments }
{
    ATTENDANT.as_slice()
}

// The matches of the command. The first argument is its name.
fn attendant_matches<'a>(alloc: Global, given: &'a [String]) -> Result<ArgMatches<'a>, Error>
    ensures ok { IfOk result (λ m. rows_of (found_of m) ≡ matches_of attendant_app (map string_bytes given.entry.now)) }
    ensures err { IfErr result (λ e.
        takes attendant_app (map string_bytes given.entry.now) ≡ true → kind_of e ≡ ErrorKind.OutOfMemory) }
{
    matches_for(alloc, "answer", attendant_arguments(), given)
}

// A text for a shell.
fn shell_text_at<'a>(matches: &ArgMatches<'a>, argument: &Argument<'a>) -> Option<ArrayString<200>>
    ensures text { option_map (λ text. text.bytes) result
        ≡ text_at (as_listed argument.now) longest_command (rows_of (found_of matches.now)) }
    ensures size { IfSome result (λ text. (1 ≤ length text.bytes) × (length text.bytes ≤ 200)) }
{
    let text = text_at(matches, argument, LONGEST_COMMAND)?;
    let mut copy = ArrayString::new();
    copy.push_str(text);
    Some(copy)
}

// The device whose line is answered.
fn line_at(matches: &ArgMatches<'_>) -> Option<u8>
    ensures value { result ≡ device_at device (rows_of (found_of matches.now)) }
    ensures range { IfSome result (λ device. device < most_devices) }
{
    device_at(matches, &DEVICE)
}

// The ring at which a call is taken.
fn rings_at(matches: &ArgMatches<'_>) -> Option<u32>
    ensures value { result ≡ number_at rings (rows_of (found_of matches.now)) }
    ensures range { IfSome result (λ rings. (1 ≤ rings) × (rings ≤ 20)) }
{
    number_at(matches, &RINGS)
}

// How many calls are taken.
fn calls_at(matches: &ArgMatches<'_>) -> Option<u32>
    ensures value { result ≡ number_at calls (rows_of (found_of matches.now)) }
    ensures range { IfSome result (λ calls. (1 ≤ calls) × (calls ≤ 1000)) }
{
    number_at(matches, &CALLS)
}

// The digits that end a command: none, if none are stated.
fn until_at(matches: &ArgMatches<'_>) -> Option<ArrayString<16>>
    ensures { option_map (λ digits. digits.bytes) result ≡ until_at (rows_of (found_of matches.now)) }
{
    let mut until = ArrayString::new();
    if let Some(digits) = value_of(matches, &UNTIL) {
        if !states_digits(digits.as_bytes()) {
            return None;
        }
        until.push_str(digits);
    }
    Some(until)
}

// What an answering machine is asked to do by the matches.
fn answer_at(matches: &ArgMatches<'_>) -> Option<AnswerJob>
    ensures value { option_map answer_values result ≡ answer_at (rows_of (found_of matches.now)) }
    ensures range { IfSome result IsAnswerJob }
{
    let device = line_at(matches)?;
    let rings = rings_at(matches)?;
    let calls = calls_at(matches)?;
    let greeting = shell_text_at(matches, &GREETING)?;
    let message = shell_text_at(matches, &MESSAGE)?;
    Some(AnswerJob {
        device,
        rings,
        calls,
        greeting,
        message,
    })
}

// The address of a server, kept.
fn kept_address(server: &str) -> ArrayString<64>
    requires { length server.now ≤ 64 }
    ensures { result.bytes ≡ server.now }
{
    let mut kept = ArrayString::new();
    kept.push_str(server);
    kept
}

// The job that the matches of the command ask for.
fn call_in<'a>(matches: &ArgMatches<'a>) -> Option<AttendantCall<'a>>
    ensures value { option_map words_of_call result ≡ words_in (rows_of (found_of matches.now)) }
    ensures wait { IfSome result (λ call. wait_at (rows_of (found_of matches.now)) ≡ Some call.wait) }
    ensures range { IfSome result (λ call. IsAnswerJob call.job.answer × IsAddress call.server.now) }
{
    let server = address_at(matches, &SERVER)?;
    let wait = wait_at(matches)?;
    let until = until_at(matches)?;
    let hang_up = is_set(matches, &HANG_UP);
    let answer = answer_at(matches)?;
    Some(AttendantCall {
        server,
        wait,
        job: AttendantJob {
            answer,
            until,
            hang_up,
            server: kept_address(server),
        },
    })
}

// Whether a word is one of those that this machine has and an answering machine has not.
fn is_of_attendant(word: &str) -> bool
    ensures { result ≡ is_of_attendant word.now }
{
    word == "--hang-up" || word == "--until" || word.starts_with("--until=")
}

// Whether one of these words is such.
fn states_one(words: &[String]) -> bool
    ensures { result ≡ states_one (map string_bytes words.now) }
{
    for word in words {
        if is_of_attendant(word.as_str()) {
            return true;
        }
    }
    false
}

/// Whether the words name an answering machine that hears its caller: the first is its name, and one is `--hang-up` or `--until`.
pub fn names_attendant(words: &Args) -> bool
    ensures { result ≡ names_attendant words.now }
{
    names_answer(words) && states_one(words.as_slice())
}

/// What these arguments ask. The first of them names the machine. Usage only if they are not valid: they do not name the machine,
/// its command refuses them, or a value is out of range.
pub fn call_of(alloc: Global, words: &Args) -> Result<AttendantCall<'_>, OptionsFault>
    ensures ok { IfOk result (λ call. attendant_call words.now ≡ Some (words_of_call call)) }
    ensures wait { IfOk result (λ call. attendant_wait words.now ≡ Some call.wait) }
    ensures range { IfOk result (λ call. IsAnswerJob call.job.answer × IsAddress call.server.now) }
    ensures usage { result ≡ Err OptionsFault.Usage → is_attendant_spelled words.now ≡ false }
{
    if !names_attendant(words) {
        return Err(OptionsFault::Usage);
    }
    let matches = match attendant_matches(alloc, words.as_slice()) {
        Ok(matches) => matches,
        Err(e) if e.kind() == ErrorKind::OutOfMemory => return Err(OptionsFault::OutOfMemory),
        Err(_) => return Err(OptionsFault::Usage),
    };
    match call_in(&matches) {
        Some(call) => Ok(call),
        None => Err(OptionsFault::Usage),
    }
}
