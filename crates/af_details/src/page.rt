// The pages of help, and the version: for standard output where they are asked for, and for details where words are wrong.
ghost use Rattle.std.specs.Prelude.{◌≡◌};
ghost use Rattle.af_details.specs.Pages.{page_asked};

use crate::options::Command;
use af_cli::{Absent, Argument, Tool, Values};
use af_io::Args;
use af_version::{About, VERSION, asked_about, page_text};
use arrayvec::ArrayString;
use std::alloc::Global;
use std::fmt;
use std::fmt::{Formatter, Write};

// All tools.
static COMMANDS: [Command; 9] = [
    Command::Tool(Tool::Play),
    Command::Tool(Tool::Record),
    Command::Tool(Tool::Set),
    Command::Tool(Tool::Pass),
    Command::Answer,
    Command::Events,
    Command::Meter,
    Command::Log,
    Command::Tool(Tool::List),
];

/// What is told of the program itself.
#[derive(Clone, Copy, Debug, PartialEq, Eq)]
pub enum Page {
    /// The list of tools.
    Tools,
    /// The options of a tool, with their ranges and their defaults.
    Tool(Command),
    Version,
}

/// The page that the words `help`, `help TOOL` or `version` ask for.
pub fn page_asked(words: &Args) -> Option<Page>
    ensures { result ≡ page_asked words.now }
{
    match asked_about(words)? {
        About::Help => Some(Page::Tools),
        About::HelpOn => Some(Page::Tool(Command::named(words.word(1)?)?)),
        About::Version => Some(Page::Version),
    }
}

/// Tells a page as details. Nothing is told where memory runs out.
pub fn tell_page(rt: &impl Eprint, alloc: Global, page: Page) {
    let Ok(text) = page_text(alloc, &page) else {
        return;
    };
    for line in text.as_str().lines() {
        let _ = eprintln!(rt; "af: {line}");
    }
}

/// The last line of help: where the rest is to be read.
pub fn tell_manual(rt: &impl Eprint) {
    let manual = Manual;
    let _ = eprintln!(rt; "af: {manual}");
}

// Where the rest is to be read.
#[derive(Clone, Copy)]
struct Manual;

impl fmt::Display for Manual {
    fn fmt<W: Write>(&self, f: &mut Formatter<W>) -> fmt::Result {
        f.write_str("see af(1); af help TOOL tells the options of a tool")
    }
}

impl fmt::Display for Page {
    fn fmt<W: Write>(&self, f: &mut Formatter<W>) -> fmt::Result {
        match self {
            Page::Tools => show_tools(f),
            Page::Tool(command) => show_options(f, *command),
            Page::Version => write!(f, "AudioFile {VERSION}"),
        }
    }
}

fn show_tools<W: Write>(f: &mut Formatter<W>) -> fmt::Result {
    writeln!(
        f,
        "usage: af TOOL SERVER [OPTION ..], with one of these tools:"
    )?;
    for command in &COMMANDS {
        let name = command.name();
        let what = command.what();
        writeln!(f, "  {name:<8} {what}")?;
    }
    f.write_str("  help     tells this, or the options of a tool\n")?;
    f.write_str("  version  tells the version\n")?;
    writeln!(
        f,
        "SERVER is an address such as 127.0.0.1:1701; if it is left out, AUDIOFILE_SERVER is the address"
    )?;
    let manual = Manual;
    write!(f, "{manual}")
}

fn show_options<W: Write>(f: &mut Formatter<W>, command: Command) -> fmt::Result {
    let what = command.what();
    let name = command.name();
    writeln!(f, "usage: {command}")?;
    writeln!(f, "{name} {what}")?;
    for argument in command.arguments() {
        if !matches!(argument.values, Values::Address) {
            show_option(f, command, argument)?;
        }
    }
    let manual = Manual;
    write!(f, "{manual}")
}

fn show_option<W: Write>(
    f: &mut Formatter<W>,
    command: Command,
    argument: &Argument<'_>,
) -> fmt::Result {
    let mut shown = ArrayString::<64>::new();
    write!(shown, "{argument}")?;
    let option = shown.as_str();
    let what = argument.what;
    write!(f, "  {option:<30} {what}")?;
    match argument.absent {
        Absent::Missing => f.write_str("; has to be there")?,
        Absent::Unless(flag) => write!(f, " (--{flag} needs none); has to be there")?,
        Absent::Either => show_other(f, command, argument.name)?,
        Absent::Default(default) => write!(f, " (default: {default})")?,
        Absent::Otherwise("") => {}
        Absent::Otherwise(text) => write!(f, " (default: {text})")?,
    }
    f.write_str("\n")
}

// Tells that an option or the other one of its pair has to be there.
fn show_other<W: Write>(f: &mut Formatter<W>, command: Command, name: &str) -> fmt::Result {
    let Some((one, other)) = command.choice() else {
        return Ok(());
    };
    let other = if name == one.name {
        other.name
    } else {
        one.name
    };
    write!(f, "; this or --{other} has to be there")
}
