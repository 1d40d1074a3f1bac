// What a tool is asked to do, by its arguments.
ghost use Rattle.std.specs.Prelude.{◌≡◌, false, option_map, Err, IfOk, IfSome};
ghost use Rattle.std.specs.declared.option.Option.TheVariants.{Some};
ghost use Rattle.clap.specs.Words.{found_of, rows_of};
ghost use Rattle.af_cli.specs.Call.{job_of_call, wait_of_call, IsCall};
ghost use Rattle.af_cli.specs.Ranges.{IsPaced, IsRanged};
ghost use Rattle.af_cli.specs.TrueHeaders.{asked_true_form, job_true_form};
ghost use Rattle.af_cli.specs.Words.{dial_wait, is_spelled, job, job_in, job_with, relay_with, wait_at};

use crate::arguments::{FROM, SERVER, TO};
use crate::command::tool_matches;
use crate::job::{PassJob, Task};
use crate::tool::{Tool, tool_named};
use crate::words::{address_at, order_at, pass_job, play_job, record_job, set_job, wait_at};
use af_io::Args;
use af_sound::SoundForm;
use af_wire::Order;
use clap::ArgMatches;
use clap::error::ErrorKind;
use std::alloc::Global;

/// A task, the server that it is done with, the order of the connection, and for how many seconds a refused dial is tried again.
#[derive(Clone, Copy)]
pub struct TaskCall<'a> {
    pub server: &'a str,
    pub order: Order,
    pub wait: u32,
    pub task: Task,
}

/// A relay, its two servers, the order of both connections, and for how many seconds each refused dial is tried again.
#[derive(Clone, Copy)]
pub struct RelayCall<'a> {
    pub from: &'a str,
    pub to: &'a str,
    pub order: Order,
    pub wait: u32,
    pub job: PassJob,
}

/// What a tool is asked to do, and with which server or servers.
#[derive(Clone, Copy)]
pub enum Call<'a> {
    One(TaskCall<'a>),
    Relay(RelayCall<'a>),
}

/// Why words are no call.
#[derive(Clone, Copy, Debug, PartialEq, Eq)]
pub enum OptionsFault {
    Usage,
    OutOfMemory,
}

// A task with its server.
fn one_call<'a>(matches: &ArgMatches<'a>, task: Task) -> Option<Call<'a>>
    requires { IsRanged task }
    ensures value { option_map job_of_call result ≡ job_with (Some task) (rows_of (found_of matches.now)) }
    ensures wait { IfSome result (λ call. wait_at (rows_of (found_of matches.now)) ≡ Some (wait_of_call call)) }
    ensures call { IfSome result (λ call. IsCall call) }
{
    let server = address_at(matches, &SERVER)?;
    let order = order_at(matches)?;
    let wait = wait_at(matches)?;
    Some(Call::One(TaskCall {
        server,
        order,
        wait,
        task,
    }))
}

// A relay with its servers.
fn relay_call<'a>(matches: &ArgMatches<'a>, job: PassJob) -> Option<Call<'a>>
    requires { IsPaced job }
    ensures value { option_map job_of_call result ≡ relay_with (Some job) (rows_of (found_of matches.now)) }
    ensures wait { IfSome result (λ call. wait_at (rows_of (found_of matches.now)) ≡ Some (wait_of_call call)) }
    ensures call { IfSome result (λ call. IsCall call) }
{
    let from = address_at(matches, &FROM)?;
    let to = address_at(matches, &TO)?;
    let order = order_at(matches)?;
    let wait = wait_at(matches)?;
    Some(Call::Relay(RelayCall {
        from,
        to,
        order,
        wait,
        job,
    }))
}

// The call of a tool, by the matches of its command.
fn call_in<'a>(tool: Tool, matches: &ArgMatches<'a>) -> Option<Call<'a>>
    ensures value { option_map job_of_call result ≡ job_in tool (rows_of (found_of matches.now)) }
    ensures wait { IfSome result (λ call. wait_at (rows_of (found_of matches.now)) ≡ Some (wait_of_call call)) }
    ensures call { IfSome result (λ call. IsCall call) }
{
    match tool {
        Tool::Play => one_call(matches, Task::Play(play_job(matches)?)),
        Tool::Record => one_call(matches, Task::Record(record_job(matches)?)),
        Tool::Set => one_call(matches, Task::Set(set_job(matches)?)),
        Tool::Pass => relay_call(matches, pass_job(matches)?),
        Tool::List => one_call(matches, Task::List),
    }
}

/// The call of these arguments. The first of them names a tool. Usage only if they are not valid: they name no tool, its command
/// refuses them, or a value is out of range.
pub fn call_of(alloc: Global, words: &Args) -> Result<Call<'_>, OptionsFault>
    ensures ok { IfOk result (λ call. job words.now ≡ Some (job_of_call call)) }
    ensures wait { IfOk result (λ call. dial_wait words.now ≡ Some (wait_of_call call)) }
    ensures call { IfOk result (λ call. IsCall call) }
    ensures usage { result ≡ Err OptionsFault.Usage → is_spelled words.now ≡ false }
{
    let Some(name) = words.word(0) else {
        return Err(OptionsFault::Usage);
    };
    let Some(tool) = tool_named(name) else {
        return Err(OptionsFault::Usage);
    };
    let matches = match tool_matches(alloc, tool, words.as_slice()) {
        Ok(matches) => matches,
        Err(e) if e.kind() == ErrorKind::OutOfMemory => return Err(OptionsFault::OutOfMemory),
        Err(_) => return Err(OptionsFault::Usage),
    };
    match call_in(tool, &matches) {
        Some(call) => Ok(call),
        None => Err(OptionsFault::Usage),
    }
}

// The form of a call's file whose header is kept true.
fn true_form_in(call: &Call<'_>) -> Option<SoundForm>
    ensures { result ≡ job_true_form (job_of_call call.now) }
{
    match call {
        Call::One(call) => match &call.task {
            Task::Record(job) => job.true_form(),
            Task::Play(_) | Task::Set(_) | Task::List => None,
        },
        Call::Relay(_) => None,
    }
}

/// The form of the sound file whose header is kept true to what was written, if these arguments ask for one. None also where
/// memory runs out.
pub fn true_form_of(alloc: Global, words: &Args) -> Option<SoundForm>
    ensures { IfSome result (λ form. asked_true_form words.now ≡ Some form) }
{
    match call_of(alloc, words) {
        Ok(call) => true_form_in(&call),
        Err(_) => None,
    }
}
