// The words that ask a program for help, or for its version.
ghost use Rattle.std.specs.Prelude.{◌≡◌};
ghost use Rattle.af_version.specs.About.{asked_about, about_by_one, about_by_two};

use af_io::Args;

/// What words ask of a program besides its work.
#[derive(Clone, Copy, Debug, PartialEq, Eq)]
pub enum About {
    Help,
    /// Help on what the second word names.
    HelpOn,
    Version,
}

/// What the words `help`, `help NAME` or `version` ask for.
pub fn asked_about(words: &Args) -> Option<About>
    ensures { result ≡ asked_about words.now }
{
    match words.as_slice() {
        [word] => about_by_one(word.as_str()),
        [word, _name] => about_by_two(word.as_str()),
        _ => None,
    }
}

fn about_by_one(word: &str) -> Option<About>
    ensures { result ≡ about_by_one word.now }
{
    if word == "help" {
        Some(About::Help)
    } else if word == "version" {
        Some(About::Version)
    } else {
        None
    }
}

fn about_by_two(word: &str) -> Option<About>
    ensures { result ≡ about_by_two word.now }
{
    if word == "help" {
        Some(About::HelpOn)
    } else {
        None
    }
}
