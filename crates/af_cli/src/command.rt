// The command of a tool, by its arguments.
ghost use Rattle.std.specs.Prelude.{◌≡◌, IfErr, IfOk, true, false, map, option_map, string_bytes};
ghost use Rattle.clap.specs.Words.{app_of, first_of, found_of, is_simple, kind_of, matches_of, rows_of, rule_of, takes, with_rule};
ghost use Rattle.af_cli.specs.Arguments.{as_listed, rule_for};
ghost use Rattle.af_cli.specs.Words.{command_app, tool_app, value_of};

use crate::argument::{Argument, Values};
use crate::tool::Tool;
use clap::error::ErrorKind;
use clap::{Arg, ArgAction, ArgMatches, Command, Error};
use std::alloc::{AllocError, Global};

// The argument of clap.
fn clap_argument<'a>(alloc: Global, argument: Argument<'a>) -> Arg<'a>
    ensures rule { rule_of result ≡ rule_for (as_listed argument.entry) }
    ensures not_global { result.global ≡ false }
{
    let arg = Arg::new(alloc, argument.name);
    match argument.values {
        Values::Address => arg.required(true),
        Values::Flag => arg.long(argument.name).action(ArgAction::SetTrue),
        _ => arg.long(argument.name).required(argument.is_needed()),
    }
}

fn add_argument<'a>(
    alloc: Global,
    command: Command<'a>,
    argument: Argument<'a>,
) -> Result<Command<'a>, AllocError>
    ensures { IfOk result (λ c. app_of c ≡ with_rule (app_of command.entry) (rule_for (as_listed argument.entry))) }
{
    command.arg(clap_argument(alloc, argument))
}

fn command_of<'a>(
    alloc: Global,
    name: &'a str,
    arguments: &[Argument<'a>],
) -> Result<Command<'a>, AllocError>
    ensures { IfOk result (λ c. app_of c ≡ command_app name.entry.now (map as_listed arguments.now)) }
{
    let mut command = Command::new(alloc, name);
    for argument in arguments {
        command = add_argument(alloc, command, *argument)?;
    }
    Ok(command)
}

/// The matches of a command, by its name and its arguments. The first of the words is its name.
pub fn matches_for<'a>(
    alloc: Global,
    name: &'a str,
    arguments: &[Argument<'a>],
    given: &'a [String],
) -> Result<ArgMatches<'a>, Error>
    ensures ok { IfOk result (λ m. is_simple (command_app name.entry.now (map as_listed arguments.now)) ≡ true
        → rows_of (found_of m)
        ≡ matches_of (command_app name.entry.now (map as_listed arguments.now)) (map string_bytes given.entry.now)) }
    ensures err { IfErr result (λ e.
        takes (command_app name.entry.now (map as_listed arguments.now)) (map string_bytes given.entry.now) ≡ true
        → kind_of e ≡ ErrorKind.OutOfMemory) }
{
    let command = command_of(alloc, name, arguments)?;
    command.try_get_matches_from(given)
}

/// The matches of a tool's command. The first of the words is its name.
pub fn tool_matches<'a>(
    alloc: Global,
    tool: Tool,
    given: &'a [String],
) -> Result<ArgMatches<'a>, Error>
    ensures ok { IfOk result (λ m. rows_of (found_of m) ≡ matches_of (tool_app tool) (map string_bytes given.entry.now)) }
    ensures err { IfErr result (λ e. takes (tool_app tool) (map string_bytes given.entry.now) ≡ true
        → kind_of e ≡ ErrorKind.OutOfMemory) }
{
    matches_for(alloc, tool.name(), tool.arguments(), given)
}

/// The first value of an argument, as text.
pub fn text_of<'a>(matches: &ArgMatches<'a>, name: &str) -> Option<&'a str>
    ensures { option_map (λ s. s.now) result ≡ first_of name.now (rows_of (found_of matches.now)) }
{
    matches.get_str(name)
}

/// The value of an argument, as text: the first that is stated, or else its default.
pub fn value_of<'a>(matches: &ArgMatches<'a>, argument: &Argument<'a>) -> Option<&'a str>
    ensures { option_map (λ s. s.now) result ≡ value_of (as_listed argument.now) (rows_of (found_of matches.now)) }
{
    match text_of(matches, argument.name) {
        Some(text) => Some(text),
        None => argument.default(),
    }
}
