// The words of a tool that states no server, with the server of the environment.
ghost use Rattle.std.specs.Prelude.{◌≡◌, ◌⊎◌, ℕ, List, true, false, option_map, IfOk, IsErr, Ok};
ghost use Rattle.std.specs.declared.option.Option.TheVariants.{None, Some};
ghost use Rattle.af_environment.specs.Completed.{asks, has_one_server, is_tool_of_one, is_valid, with_server, IsPutIn};

use crate::judged::judged;
use af_cli::OptionsFault;
use af_io::Args;
use af_time::OutOfMemory;
use std::alloc::Global;

fn is_tool_of_one(name: &str) -> bool
    ensures { result ≡ is_tool_of_one name.now }
{
    name == "aplay"
        || name == "arecord"
        || name == "aset"
        || name == "list"
        || name == "answer"
        || name == "events"
        || name == "meter"
        || name == "log"
}

/// Whether the first word names a tool that has one server.
pub(crate) fn has_one_server(words: &Args) -> bool
    ensures { result ≡ has_one_server words.now }
{
    match words.word(0) {
        Some(name) => is_tool_of_one(name),
        None => false,
    }
}

/// The words with a server put after the name of the tool.
pub(crate) fn with_server(alloc: Global, words: &Args, server: &str) -> Result<Args, OutOfMemory>
    ensures { IfOk result (λ run. run ≡ with_server server.now words.now) }
{
    let mut run = Args::new(alloc);
    if let [name, rest @ ..] = words.as_slice() {
        run.push(name.as_str())?;
        run.push(server)?;
        for word in rest {
            run.push(word.as_str())?;
        }
    }
    Ok(run)
}

/// The words that a tool is run with, by the words that were stated and the server that the environment names. Where these words
/// are Usage, and with the server put after the tool's name they are not, it is put in; else they stay as they are.
pub fn completed_words(
    alloc: Global,
    words: Args,
    server: Option<&str>,
) -> Result<Args, OutOfMemory>
    // valid words stay, and so do those of a relay and of no tool, and all where the environment names no server
    ensures stated { is_valid words ≡ true → (result ≡ Ok words) ⊎ IsErr result }
    ensures relay { has_one_server words ≡ false → result ≡ Ok words }
    ensures missing { server.entry ≡ None → result ≡ Ok words }

    // nothing but the server is put in, and the words then ask for something
    ensures only { IfOk result (λ run. (run ≡ words) ⊎ IsPutIn (option_map (λ text. text.now) server.entry) words run) }

    // it is put in wherever it makes words valid that ask for nothing
    ensures completes { (text : List ℕ) → option_map (λ text. text.now) server.entry ≡ Some text → has_one_server words ≡ true →
        asks words ≡ false → is_valid (with_server text words) ≡ true →
        (result ≡ Ok (with_server text words)) ⊎ IsErr result }
{
    let Some(server) = server else {
        return Ok(words);
    };
    if !has_one_server(&words) {
        return Ok(words);
    }
    match judged(alloc, &words) {
        Ok(()) => return Ok(words),
        Err(OptionsFault::Usage) => {}
        Err(OptionsFault::OutOfMemory) => return Err(OutOfMemory),
    }
    let run = with_server(alloc, &words, server)?;
    match judged(alloc, &run) {
        Ok(()) => Ok(run),
        Err(OptionsFault::Usage) => Ok(words),
        Err(OptionsFault::OutOfMemory) => Err(OutOfMemory),
    }
}
