// Which argument is wrong, and what it may be.
use crate::options::Command;
use crate::page::{Page, tell_manual, tell_page};
use crate::values::Wanted;
use af_attendant::attendant_arguments;
use af_cli::{Absent, Argument, DEVICE, Tool, Values, device_at, matches_for, text_of};
use af_io::Args;
use af_limits::LONGEST_ADDRESS;
use af_shown::Shown;
use clap::error::ErrorKind;
use clap::{ArgMatches, Error};
use std::alloc::Global;

/// Tells why words are none of a tool's, or the help that they ask for.
pub fn tell_usage(rt: &impl Eprint, alloc: Global, words: &Args) {
    let Some(name) = words.word(0) else {
        return tell_page(rt, alloc, Page::Tools);
    };
    if has_word(words, "--version") {
        return tell_page(rt, alloc, Page::Version);
    }
    match Command::named(name) {
        Some(command) if asks_help(words) => tell_page(rt, alloc, Page::Tool(command)),
        Some(command) => {
            tell_mistake(rt, alloc, command, words);
            tell_manual(rt);
        }
        None => {
            if !asks_help(words) {
                tell_no_tool(rt, name, words);
            }
            tell_page(rt, alloc, Page::Tools);
        }
    }
}

// Tells why words name no tool, and no page of help.
fn tell_no_tool(rt: &impl Eprint, name: &str, words: &Args) {
    let (wrong, excess) = match name {
        "help" => (words.word(1), words.word(2)),
        "version" => (None, words.word(1)),
        _ => (Some(name), None),
    };
    if let Some(word) = excess {
        let word = Shown::new(word.as_bytes());
        let _ = eprintln!(rt; "af: '{word}' is a word too many");
    } else if let Some(tool) = wrong {
        let tool = Shown::new(tool.as_bytes());
        let _ = eprintln!(rt; "af: there is no tool '{tool}'");
    }
}

/// Tells how a file is played, if a play took its name for the address of a server.
pub fn tell_file_as_server(rt: &impl Eprint, words: &Args, address: &str) {
    if words.word(0) == Some("aplay") && !address.contains(":") && address.contains(".") {
        tell_file(rt, address);
    }
}

/// Tells that a word is no text.
pub fn tell_no_text(rt: &impl Eprint) {
    let _ = eprintln!(rt; "af: a word is no UTF-8");
    tell_manual(rt);
}

fn has_word(words: &Args, wanted: &str) -> bool {
    words.as_slice().iter().any(|word| word.as_str() == wanted)
}

/// Whether a word states this option.
pub fn states_option(words: &Args, option: &str) -> bool {
    for word in words.as_slice() {
        if let Some(name) = word.as_str().strip_prefix("--")
            && let Some(rest) = name.strip_prefix(option)
            && (rest.is_empty() || rest.starts_with("="))
        {
            return true;
        }
    }
    false
}

fn asks_help(words: &Args) -> bool {
    has_word(words, "--help") || has_word(words, "-h")
}

// Tells which argument of a tool is wrong, and the right usage.
fn tell_mistake(rt: &impl Eprint, alloc: Global, command: Command, words: &Args) {
    match matches_for(alloc, command.name(), command.arguments(), words.as_slice()) {
        Ok(matches) => {
            tell_values(rt, command, &matches);
            tell_choice(rt, command, words);
            tell_needed(rt, command, words);
            tell_quiet(rt, command, words);
        }
        Err(e) if e.kind() == ErrorKind::MissingRequiredArgument => {
            tell_missing(rt, alloc, command, &e);
            tell_choice(rt, command, words);
            tell_needed(rt, command, words);
        }
        Err(e) => tell_error(rt, alloc, command, &e),
    }
    let _ = eprintln!(rt; "af: usage: {command}");
}

// Tells what is wrong with the arguments before their values are looked at.
fn tell_error(rt: &impl Eprint, alloc: Global, command: Command, error: &Error) {
    let Ok(text) = error.to_string(alloc) else {
        return;
    };
    if let Some(line) = text.as_str().lines().next() {
        let line = line.strip_prefix("error: ").unwrap_or(line);
        let shown = Shown::new(line.as_bytes());
        let _ = eprintln!(rt; "af: {shown}");
        if has_negative(line) {
            let _ = eprintln!(rt;
                "af: a value that begins with - is one word with its option, as --gain=-6"
            );
        }
        if command == Command::Tool(Tool::Play)
            && error.kind() == ErrorKind::UnknownArgument
            && let Some(word) = quoted(line)
            && !word.starts_with("-")
        {
            tell_file(rt, word);
        }
    }
}

// Tells how a file is played that was stated as a word.
fn tell_file(rt: &impl Eprint, word: &str) {
    let file = Shown::new(word.as_bytes());
    let form = if word.ends_with(".wav") {
        " --file=wave"
    } else if word.ends_with(".au") {
        " --file=au"
    } else {
        ""
    };
    let _ = eprintln!(rt; "af: sound comes from standard input: af aplay SERVER{form} < {file}");
}

// The word that a line quotes first.
fn quoted<'a>(line: &'a str) -> Option<&'a str> {
    let (_, rest) = line.split_once("'")?;
    let (word, _) = rest.split_once("'")?;
    Some(word)
}

// Whether a line quotes a number below 0.
fn has_negative(line: &str) -> bool {
    match line.split_once("'-") {
        Some((_, rest)) => rest.as_bytes().first().is_some_and(|b| b.is_ascii_digit()),
        None => false,
    }
}

// Tells which arguments are missing.
fn tell_missing(rt: &impl Eprint, alloc: Global, command: Command, error: &Error) {
    let Ok(text) = error.to_string(alloc) else {
        return;
    };
    let text = text.as_str();
    for argument in command.arguments() {
        if !argument.is_needed() {
            continue;
        }
        let what = argument.what;
        let name = argument.name;
        if matches!(argument.values, Values::Address) {
            if names(text, "<", name) {
                let _ = eprintln!(rt; "af: {argument} is missing: {what}, such as 127.0.0.1:1701");
            }
        } else if names(text, "--", name) {
            let _ = eprintln!(rt; "af: {argument} is missing: {what}");
        }
    }
}

// Tells where words state neither or both of two options, of which exactly one has to be there.
fn tell_choice(rt: &impl Eprint, command: Command, words: &Args) {
    let Some((one, other)) = command.choice() else {
        return;
    };
    match (
        states_option(words, one.name),
        states_option(words, other.name),
    ) {
        (false, false) => {
            let _ = eprintln!(rt; "af: {one} or {other} is missing: how much is recorded at most");
        }
        (true, true) => {
            let name = one.name;
            let second = other.name;
            let _ = eprintln!(rt; "af: --{name} and --{second} cannot both be stated");
        }
        _ => {}
    }
}

// Tells which of the two options of a meter is missing that say what counts as quiet.
fn tell_quiet(rt: &impl Eprint, command: Command, words: &Args) {
    if command != Command::Meter {
        return;
    }
    match (states_option(words, "below"), states_option(words, "for")) {
        (true, false) => {
            let _ = eprintln!(rt; "af: --for is missing: --below does not go without it");
        }
        (false, true) => {
            let _ = eprintln!(rt; "af: --below is missing: --for does not go without it");
        }
        _ => {}
    }
}

// Tells which options are missing that a flag makes needless.
fn tell_needed(rt: &impl Eprint, command: Command, words: &Args) {
    for argument in command.arguments() {
        if let Absent::Unless(flag) = argument.absent
            && !states_option(words, argument.name)
            && !states_option(words, flag)
        {
            let what = argument.what;
            let _ = eprintln!(rt; "af: {argument} is missing: {what} (--{flag} needs none)");
        }
    }
}

// Whether a line of a text begins with a mark and a name.
fn names(text: &str, mark: &str, name: &str) -> bool {
    text.lines().any(|line| {
        match line.trim_start().strip_prefix(mark) {
            Some(rest) => match rest.strip_prefix(name) {
                Some(rest) => rest.starts_with(">") || rest.starts_with(" "),
                None => false,
            },
            None => false,
        }
    })
}

// Tells which values are out of range.
fn tell_values(rt: &impl Eprint, command: Command, matches: &ArgMatches<'_>) {
    for argument in command.arguments() {
        if let Some(value) = text_of(matches, argument.name)
            && !argument.values.has(value)
        {
            tell_value(rt, argument, value);
        }
    }
    if command == Command::Tool(Tool::Play)
        && is_file(matches)
        && text_of(matches, "type").is_some()
    {
        let _ = eprintln!(rt;
            "af: --type does not go with a sound file, which says itself of which type its samples are"
        );
    }
}

// Tells of the value of an argument that is out of its range.
fn tell_value(rt: &impl Eprint, argument: &Argument<'_>, value: &str) {
    let name = argument.name;
    if matches!(argument.values, Values::Address) {
        return tell_address(rt, name, value);
    }
    let takes = Wanted(argument.values);
    let value = Shown::new(value.as_bytes());
    let _ = eprintln!(rt; "af: '{value}' is no value of --{name}, which takes {takes}");
}

/// The device that the arguments of an answering machine name.
pub fn device_in(alloc: Global, words: &Args) -> u8 {
    match matches_for(alloc, "answer", attendant_arguments(), words.as_slice()) {
        Ok(matches) => device_at(&matches, &DEVICE).unwrap_or(0),
        Err(_) => 0,
    }
}

fn is_file(matches: &ArgMatches<'_>) -> bool {
    matches!(text_of(matches, "file"), Some("au" | "wave"))
}

fn tell_address(rt: &impl Eprint, place: &str, address: &str) {
    let count = address.len();
    if count == 0 {
        let _ = eprintln!(rt;
            "af: {place} is empty; an address is HOST:PORT, such as 127.0.0.1:1701"
        );
    } else if count > LONGEST_ADDRESS {
        let _ = eprintln!(rt;
            "af: {place} has {count} bytes; an address has at most {LONGEST_ADDRESS}"
        );
    }
}
