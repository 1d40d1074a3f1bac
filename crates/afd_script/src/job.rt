// What the arguments of the command ask for.
ghost use Rattle.std.specs.Prelude.{◌≡◌, IfSome};
ghost use Rattle.afd_script.specs.Words.{job_of, job_of_one, job_of_three, HasTurns};

use af_io::Args;
use af_text::{is_word, long_number_between};

/// What the command is to do.
#[derive(Clone, Copy, Debug, PartialEq, Eq)]
pub enum ScriptJob {
    /// The source is read as a script, which is run.
    Script,
    /// The script that an exercise makes of a seed and n turns, 1 to 10000, is run.
    Exercise { seed: u64, turns: u32 },
}

/// What these words ask for: `script`, or `exercise SEED TURNS`, each with a number of 1 to 20 decimal digits, SEED
/// of 0 to 2^64 - 1 and TURNS of 1 to 10000. None where they are neither.
pub fn job_of(words: &Args) -> Option<ScriptJob>
    ensures value { result ≡ job_of words.now }
    ensures turns { IfSome result HasTurns }
{
    match words.as_slice() {
        [name] => job_of_one(name.as_bytes()),
        [name, seed, turns] => job_of_three(name.as_bytes(), seed.as_bytes(), turns.as_bytes()),
        _ => None,
    }
}

fn job_of_one(name: &[u8]) -> Option<ScriptJob>
    ensures value { result ≡ job_of_one name.now }
    ensures turns { IfSome result HasTurns }
{
    if is_word(name, b"script") {
        Some(ScriptJob::Script)
    } else {
        None
    }
}

fn job_of_three(name: &[u8], seed: &[u8], turns: &[u8]) -> Option<ScriptJob>
    ensures value { result ≡ job_of_three name.now seed.now turns.now }
    ensures turns { IfSome result HasTurns }
{
    if !is_word(name, b"exercise") {
        return None;
    }
    let seed = long_number_between(0, u64::MAX, seed)?;
    let turns = long_number_between(1, 10000, turns)? as u32;
    Some(ScriptJob::Exercise { seed, turns })
}
