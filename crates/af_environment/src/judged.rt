// What a tool makes of its words, before it does anything.
ghost use Rattle.std.specs.Prelude.{◌≡◌, true, false, Err, IfOk};
ghost use Rattle.af_environment.specs.Completed.{asks, is_valid};

use crate::named::{Named, named_tool};
use af_cli::OptionsFault;
use af_io::Args;
use std::alloc::Global;

/// Whether a tool takes these words: they ask for something, or are Usage, which valid words never are.
#[tactic(auto, unfolding(crate::specs::Completed::asks, crate::specs::Completed::is_valid))]
pub(crate) fn judged(alloc: Global, words: &Args) -> Result<(), OptionsFault>
    ensures asks { IfOk result (λ _. asks words.now ≡ true) }
    ensures usage { result ≡ Err OptionsFault.Usage → is_valid words.now ≡ false }
{
    match named_tool(words) {
        Named::Attendant => match af_attendant::call_of(alloc, words) {
            Ok(_) => Ok(()),
            Err(fault) => Err(fault),
        },
        Named::Answer => match af_answer::call_of(alloc, words) {
            Ok(_) => Ok(()),
            Err(fault) => Err(fault),
        },
        Named::Events => match af_events::call_of(alloc, words) {
            Ok(_) => Ok(()),
            Err(fault) => Err(fault),
        },
        Named::Meter => match af_meter::call_of(alloc, words) {
            Ok(_) => Ok(()),
            Err(fault) => Err(fault),
        },
        Named::Log => match af_logger::call_of(alloc, words) {
            Ok(_) => Ok(()),
            Err(fault) => Err(fault),
        },
        Named::Other => match af_cli::call_of(alloc, words) {
            Ok(_) => Ok(()),
            Err(fault) => Err(fault),
        },
    }
}
