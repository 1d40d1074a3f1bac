// What an answering machine is asked to do, by its arguments.
ghost use Rattle.std.specs.Prelude.{◌≡◌, ◌<◌, ◌≤◌, true, false, length, map, option_map, string_bytes, Err, IfErr, IfOk, IfSome};
ghost use Rattle.std.specs.declared.option.Option.TheVariants.{Some};
ghost use Rattle.clap.specs.Words.{found_of, kind_of, matches_of, rows_of, takes};
ghost use Rattle.af_cli.specs.Ranges.{IsAddress};
ghost use Rattle.af_cli.specs.Arguments.{as_listed, device};
ghost use Rattle.af_cli.specs.Words.{device_at, longest_command, number_at, text_at, wait_at};
ghost use Rattle.af_answer.specs.Answered.{IsAnswerJob};
ghost use Rattle.af_limits.specs.Limits.{most_devices};
ghost use Rattle.af_answer.specs.AnswerArguments.{answer_arguments, calls, rings};
ghost use Rattle.af_answer.specs.AnswerWords.{
  answer_app,
  answer_wait,
  answer_words,
  words_in,
  is_answer_spelled,
  names_answer,
  words_of_call,
};

use crate::job::AnswerJob;
use af_cli::{
    Absent, Argument, DEVICE, LONGEST_COMMAND, OptionsFault, SERVER, Values, WAIT, address_at,
    device_at, matches_for, number_at, text_at, wait_at,
};
use af_io::Args;
use arrayvec::ArrayString;
use clap::error::ErrorKind;
use clap::{ArgMatches, Error};
use std::alloc::Global;

/// A server, for how many seconds a refused dial of it is tried again, and what is to be done with it.
#[derive(Drop)]
pub struct AnswerCall<'a> {
    pub server: &'a str,
    pub wait: u32,
    pub job: AnswerJob,
}

const CALLS: Argument<'static> = Argument {
    name: "calls",
    values: Values::Number(1, 1000),
    absent: Absent::Missing,
    what: "how many calls are taken",
};

const GREETING: Argument<'static> = Argument {
    name: "greeting",
    values: Values::Command,
    absent: Absent::Missing,
    what: "what plays the greeting, 1 to 200 bytes for a shell",
};

const MESSAGE: Argument<'static> = Argument {
    name: "message",
    values: Values::Command,
    absent: Absent::Missing,
    what: "what records the message, 1 to 200 bytes for a shell",
};

const RINGS: Argument<'static> = Argument {
    name: "rings",
    values: Values::Number(1, 20),
    absent: Absent::Default("2"),
    what: "the ring at which a call is taken",
};

static ANSWER: [Argument<'static>; 7] = [
    SERVER,
    CALLS,
    GREETING,
    MESSAGE,
    Argument {
        what: "the device whose line is answered",
        ..DEVICE
    },
    RINGS,
    WAIT,
];

/// The arguments: the server first, then what has to be there.
#[tactic(auto, unfolding(crate::specs::AnswerArguments::answer_arguments))]
pub fn answer_arguments<'a>() -> &'a [Argument<'a>]
    ensures { map as_listed result.now ≡ answer_arguments }
{
    ANSWER.as_slice()
}

// The matches of the command. The first argument is its name.
fn answer_matches<'a>(alloc: Global, given: &'a [String]) -> Result<ArgMatches<'a>, Error>
    ensures ok { IfOk result (λ m. rows_of (found_of m) ≡ matches_of answer_app (map string_bytes given.entry.now)) }
    ensures err { IfErr result (λ e.
        takes answer_app (map string_bytes given.entry.now) ≡ true → kind_of e ≡ ErrorKind.OutOfMemory) }
{
    matches_for(alloc, "answer", answer_arguments(), given)
}

// A text for a shell.
fn shell_text_at<'a>(matches: &ArgMatches<'a>, argument: &Argument<'a>) -> Option<ArrayString<200>>
    ensures text { option_map (λ text. text.bytes) result
        ≡ text_at (as_listed argument.now) longest_command (rows_of (found_of matches.now)) }
    ensures size { IfSome result (λ text. (1 ≤ length text.bytes) × (length text.bytes ≤ 200)) }
{
    let text = text_at(matches, argument, LONGEST_COMMAND)?;
    let mut copy = ArrayString::new();
    copy.push_str(text);
    Some(copy)
}

// The device whose line is answered.
fn line_at(matches: &ArgMatches<'_>) -> Option<u8>
    ensures value { result ≡ device_at device (rows_of (found_of matches.now)) }
    ensures range { IfSome result (λ device. device < most_devices) }
{
    device_at(matches, &DEVICE)
}

// The ring at which a call is taken.
fn rings_at(matches: &ArgMatches<'_>) -> Option<u32>
    ensures value { result ≡ number_at rings (rows_of (found_of matches.now)) }
    ensures range { IfSome result (λ rings. (1 ≤ rings) × (rings ≤ 20)) }
{
    number_at(matches, &RINGS)
}

// How many calls are taken.
fn calls_at(matches: &ArgMatches<'_>) -> Option<u32>
    ensures value { result ≡ number_at calls (rows_of (found_of matches.now)) }
    ensures range { IfSome result (λ calls. (1 ≤ calls) × (calls ≤ 1000)) }
{
    number_at(matches, &CALLS)
}

// The job that the matches of the command ask for.
fn call_in<'a>(matches: &ArgMatches<'a>) -> Option<AnswerCall<'a>>
    ensures value { option_map words_of_call result ≡ words_in (rows_of (found_of matches.now)) }
    ensures wait { IfSome result (λ call. wait_at (rows_of (found_of matches.now)) ≡ Some call.wait) }
    ensures range { IfSome result (λ call. IsAnswerJob call.job × IsAddress call.server.now) }
{
    let server = address_at(matches, &SERVER)?;
    let wait = wait_at(matches)?;
    let device = line_at(matches)?;
    let rings = rings_at(matches)?;
    let calls = calls_at(matches)?;
    let greeting = shell_text_at(matches, &GREETING)?;
    let message = shell_text_at(matches, &MESSAGE)?;
    Some(AnswerCall {
        server,
        wait,
        job: AnswerJob {
            device,
            rings,
            calls,
            greeting,
            message,
        },
    })
}

/// Whether the first word names the answering machine.
pub fn names_answer(words: &Args) -> bool
    ensures { result ≡ names_answer words.now }
{
    match words.word(0) {
        Some(name) => name == "answer",
        None => false,
    }
}

/// What these arguments ask. The first of them names the machine. Usage only if they are not valid: they do not name the machine,
/// its command refuses them, or a value is out of range.
pub fn call_of(alloc: Global, words: &Args) -> Result<AnswerCall<'_>, OptionsFault>
    ensures ok { IfOk result (λ call. answer_words words.now ≡ Some (words_of_call call)) }
    ensures wait { IfOk result (λ call. answer_wait words.now ≡ Some call.wait) }
    ensures range { IfOk result (λ call. IsAnswerJob call.job × IsAddress call.server.now) }
    ensures usage { result ≡ Err OptionsFault.Usage → is_answer_spelled words.now ≡ false }
{
    if !names_answer(words) {
        return Err(OptionsFault::Usage);
    }
    let matches = match answer_matches(alloc, words.as_slice()) {
        Ok(matches) => matches,
        Err(e) if e.kind() == ErrorKind::OutOfMemory => return Err(OptionsFault::OutOfMemory),
        Err(_) => return Err(OptionsFault::Usage),
    };
    match call_in(&matches) {
        Some(call) => Ok(call),
        None => Err(OptionsFault::Usage),
    }
}
