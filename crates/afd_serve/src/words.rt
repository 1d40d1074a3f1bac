// The arguments of the server's command.
ghost use Rattle.std.specs.Prelude.{◌≡◌, option_map};
ghost use Rattle.afd_serve.specs.Words.{is_address, job_of_command, serve_job_of, serve_job_of_three, waits_stated};

use af_io::Args;
use af_limits::LONGEST_ADDRESS;
use af_text::{is_word, long_number_between};

/// The most waits that may be asked for.
const MOST_WAITS: u64 = 9223372036854775807;

fn is_address(word: &[u8]) -> bool
    ensures { result ≡ is_address word.now }
{
    !word.is_empty() && word.len() <= LONGEST_ADDRESS
}

/// How often a server waits.
#[derive(Clone, Copy, Debug)]
pub(crate) enum Waits {
    Number(u64),
    /// Until it is ended.
    Forever,
}

/// What the words `serve ADDRESS WAITS` ask for.
#[derive(Clone, Copy, Debug)]
pub(crate) struct Command<'a> {
    pub(crate) address: &'a str,
    pub(crate) waits: Waits,
}

/// What the words ask for, if they are these, with an address of 1 to 64 bytes and 1 to 2^63 - 1 waits, or `forever`.
pub(crate) fn asked_for(words: &Args) -> Option<Command<'_>>
    ensures job { option_map job_of_command result ≡ serve_job_of words.now }
{
    match words.as_slice() {
        [name, address, number] => {
            command_of(name.as_bytes(), address.as_str(), number.as_bytes())
        }
        _ => None,
    }
}

fn command_of<'a>(name: &[u8], address: &'a str, number: &[u8]) -> Option<Command<'a>>
    ensures job { option_map job_of_command result ≡ serve_job_of_three name.now address.now number.now }
{
    if !is_word(name, b"serve") {
        return None;
    }
    if !is_address(address.as_bytes()) {
        return None;
    }
    let waits = waits_stated(number)?;
    Some(Command { address, waits })
}

fn waits_stated(word: &[u8]) -> Option<Waits>
    ensures { result ≡ waits_stated word.now }
{
    if is_word(word, b"forever") {
        return Some(Waits::Forever);
    }
    let number = long_number_between(1, MOST_WAITS, word)?;
    Some(Waits::Number(number))
}
