//! The abstract server: its states, what a turn is, what a run is, and the laws of whole runs.
#![tactic(auto)]

mod refusal;

ghost use Rattle.std.specs.Prelude.{◌≡◌, ◌≢◌, ℕ, List, []};
ghost use Rattle.std.specs.declared.option.Option.TheVariants.{Some};
ghost use Rattle.std.specs.List.{All};
ghost use Rattle.af_sample.specs.Rates.{IsListedRate};
ghost use Rattle.af_world.specs.declared.happening.Why.{Why};
ghost use Rattle.af_world.specs.declared.happening.Why.TheVariants as why;
ghost use Rattle.af_world.specs.declared.script.DeviceSpec.{DeviceSpec};
ghost use Rattle.af_world.specs.declared.script.Step.{Step};
ghost use Rattle.af_world.specs.Log.{Log};
ghost use Rattle.af_model.specs.State.{OpenLink, State, slot_at};
ghost use Rattle.af_model.specs.Advance.{advance_step};
ghost use Rattle.af_model.specs.Events.{without_waiter};
ghost use Rattle.af_model.specs.Turn.{Parsed, serve_at};
ghost use Rattle.af_model.specs.Script.{ScriptLog};
ghost use Rattle.af_model.specs.Cutting.{CutsAlike};
ghost use Rattle.af_model.specs.LinkHistory.{LinkHistory};
ghost use Rattle.af_model.specs.Prefix.{TakesInOrder};
ghost use Rattle.af_model.specs.Offers.{OffersWithin};
ghost use Rattle.af_model.specs.Causes.{ClosesForCauses, IsCause};
ghost use Rattle.af_model.specs.Dead.{IsDeadWhereFailed};
ghost use Rattle.af_model.specs.Fold.{MixesAll};
ghost use Rattle.af_model.specs.NoLoss.{RunLosesNone};

pub use refusal::{Refusal, RefusalCause};

/// A law of the definitions alone: a script has at most one log.
pub fn one_log_law()
    ensures { (config : List DeviceSpec) (steps : List Step) (a b : Log) → ScriptLog config steps a → ScriptLog config steps b →
        a ≡ b }
{}
/// A law of the definitions alone: a malformed client closes itself alone. Suppose that taking off the front of its input closes
/// a link for it. Then nothing in the link's environment changes, no device and no other request. All that is queued for the link
/// is still sent, and no more of its input is read. Serving a link, that one or any other, changes no other link, and leaves the
/// other deferred requests in their order.
pub fn malformed_alone_law()
    ensures closes { (k : ℕ) (p q : OpenLink) → advance_step k p ≡ Some q → q.link.closing ≡ Some why.Malformed →
        (q.environment ≡ p.environment) × (q.link.pending ≡ p.link.pending) × (q.link.rest ≡ []) }
    ensures others { (k j : ℕ) (s : State) (log : Log) (b : Parsed State) → serve_at k s log ≡ Some b → j ≢ k →
        slot_at j b.state ≡ slot_at j s }
    ensures order { (k : ℕ) (s : State) (log : Log) (b : Parsed State) → serve_at k s log ≡ Some b →
        without_waiter k b.state.waiting ≡ without_waiter k s.waiting }
{}

/// A law of the definitions alone, of cutting: what comes to a link in two pieces, one right after the other, makes of it and of
/// all around it what both make that come at once.
pub fn cutting_law()
    ensures { (k : ℕ) (p : OpenLink) → CutsAlike k p }
{}

/// A law of the definitions alone, of prefixes: after each run the bytes that a link took since it was opened last begin what was
/// said to it since then, and the rest is what waits to be sent where the link is open and was not dropped.
pub fn prefix_law()
    ensures { (config : List DeviceSpec) (log : Log) → TakesInOrder config log }
{}

/// A law of the definitions alone, of what is offered: with at most eight devices, no write of a run offers more than 65168
/// bytes. So much may wait to be sent where a request is answered that was deferred, after events.
pub fn offer_law()
    ensures { (config : List DeviceSpec) (log : Log) → OffersWithin config log }
{}

/// A law of the definitions alone, of what is heard: each emit in a run has the sound of all plays that its device has accepted
/// at the end of the run, at the times that it hands out, through the controls that the device had before that turn.
pub fn fold_law()
    ensures { (config : List DeviceSpec) (log : Log) → MixesAll config log }
{}

/// A law of the definitions alone, of closes: each link in a run is closed for the one cause that its part of the log shows. A
/// read or a write of it failed; or an event found no room beside what was to be sent to it, and no read had said that it ended;
/// or a read said that it ended, and all that its reads gave was served; or its first bytes are no good setup; or, after a good
/// setup and requests, its bytes are malformed.
pub fn cause_law()
    ensures shown { (config : List DeviceSpec) (log : Log) → ClosesForCauses config log }
    ensures one { (a b : Why) (h : LinkHistory) (owed : ℕ) → IsCause a h owed → IsCause b h owed → a ≡ b }
{}

/// A law of the definitions alone, of devices and lines that are dead: after each run those are for which a call failed, a
/// capture or an emit of the device, a hook of the line, and no others.
pub fn dead_law()
    ensures { (config : List DeviceSpec) (log : Log) → IsDeadWhereFailed config log }
{}

/// A law of the definitions alone, of requests that wait: with devices of listed rates, no run loses a sample of one. A play is
/// accepted no later than its start, and a record is answered before a time of it has gone further back than the horizon.
pub fn no_loss_law()
    ensures { (config : List DeviceSpec) (log : Log) → All (λ c. IsListedRate c.rate) config → RunLosesNone config log }
{}
