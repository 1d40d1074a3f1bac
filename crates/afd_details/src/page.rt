// The page of help, and the version: for standard output where they are asked for, and for details where words are wrong.
ghost use Rattle.std.specs.Prelude.{◌≡◌};
ghost use Rattle.afd_details.specs.Pages.{page_asked};

use crate::usage::MOST_WAITS;
use af_io::Args;
use af_version::{About, VERSION, asked_about, page_text};
use std::alloc::Global;
use std::fmt;
use std::fmt::{Formatter, Write};

// The commands.
static COMMANDS: [&str; 6] = [
    "usage: afd COMMAND, with one of these commands:",
    "  serve ADDRESS WAITS   serves, with the configuration that standard input gives",
    "  script                runs the script that standard input gives",
    "  exercise SEED TURNS   runs the script that a seed and a number of turns stand for",
    "  help                  tells this",
    "  version               tells the version",
];

/// What is told of the program itself.
#[derive(Clone, Copy, Debug, PartialEq, Eq)]
pub enum Page {
    /// The commands, each with its words.
    Commands,
    Version,
}

/// The page that the one word `help` or `version` asks for.
pub fn page_asked(words: &Args) -> Option<Page>
    ensures { result ≡ page_asked words.now }
{
    match asked_about(words)? {
        About::Help => Some(Page::Commands),
        About::HelpOn => None,
        About::Version => Some(Page::Version),
    }
}

/// Tells a page as details. Nothing is told where memory runs out.
pub(crate) fn tell_page(rt: &impl Eprint, alloc: Global, page: Page) {
    let Ok(text) = page_text(alloc, &page) else {
        return;
    };
    for line in text.as_str().lines() {
        let _ = eprintln!(rt; "afd: {line}");
    }
}

impl fmt::Display for Page {
    fn fmt<W: Write>(&self, f: &mut Formatter<W>) -> fmt::Result {
        match self {
            Page::Commands => show_commands(f),
            Page::Version => write!(f, "AudioFile {VERSION}"),
        }
    }
}

fn show_commands<W: Write>(f: &mut Formatter<W>) -> fmt::Result {
    for line in &COMMANDS {
        writeln!(f, "{line}")?;
    }
    writeln!(
        f,
        "ADDRESS is HOST:PORT, such as 127.0.0.1:1701; WAITS is forever, or 1 to {MOST_WAITS}"
    )?;
    f.write_str("see afd(8)")
}
