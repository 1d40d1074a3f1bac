// The script command: a script comes in, and the transcript of its one log goes out; or a script is made, and the summary of its
// log goes out.
ghost use Rattle.std.specs.Prelude.{◌≡◌, ◌≢◌, ◌↔◌, ◌⊎◌, ◌≤◌, length, true, false, All, IfOk, IfErr};
ghost use Rattle.std.specs.declared.option.Option.TheVariants.{None, Some};
ghost use Rattle.af_limits.specs.Limits.{longest_script};
ghost use Rattle.af_io.specs.Observed.{CountsFault, NoFault};
ghost use Rattle.af_io.specs.declared.flow.Put.TheVariants as put;
ghost use Rattle.af_sample.specs.Channels.{IsChannelCount};
ghost use Rattle.af_sample.specs.Rates.{IsListedRate};
ghost use Rattle.af_world.specs.Outside.{IsStep};
ghost use Rattle.af_script.specs.Run.{HasOneLog};
ghost use Rattle.af_script.specs.Script.{IsScriptFault};
ghost use Rattle.afd_script.specs.declared.job.ScriptJob.TheVariants as job;
ghost use Rattle.afd_script.specs.Ends.{CanBeDone, Did, IsGoodScript, ScriptLeavesAlone, ScriptReadAs, WroteSummary, WroteTranscript, reads, script_status, writes};
ghost use Rattle.afd_script.specs.Run.{TellsLogOf};
ghost use Rattle.afd_script.specs.Words.{job_of};

use crate::job::{ScriptJob, job_of};
use af_io::{Args, Put, Sink, Source, TextFault, read_text};
use af_limits::LONGEST_SCRIPT;
use af_outside::{LifecycleFaults, Tape};
use af_random::make_script;
use af_script::{Script, ScriptFault, print_log, print_summary, read_script, run_tape};
use af_time::OutOfMemory;
use std::alloc::Global;

/// How a script command ended.
#[derive(Clone, Copy, Debug, PartialEq, Eq)]
pub enum ScriptEnd {
    Done,
    /// The words are none of this command's.
    Usage,
    ReadFault,
    /// The source gave more than 1048576 bytes.
    TooLong,
    /// The text is no script; this is its first line that is not allowed where it stands.
    ScriptFault { line: u32 },
    SinkFault,
    OutOfMemory,
}

/// The exit status of an end.
pub fn status_of(end: ScriptEnd) -> u8
    ensures { result ≡ script_status end }
{
    match end {
        ScriptEnd::Done => 0,
        ScriptEnd::Usage => 2,
        ScriptEnd::ScriptFault { line: _ } => 3,
        ScriptEnd::TooLong => 4,
        ScriptEnd::ReadFault => 5,
        ScriptEnd::SinkFault => 6,
        ScriptEnd::OutOfMemory => 7,
    }
}

/// The server's command over scripts. With the word `script` it reads the source to its end, runs the script that it gave,
/// and writes the transcript to the sink. With the words `exercise SEED TURNS`, SEED of 0 to 2^64 - 1 and TURNS of 1 to 10000,
/// it reads nothing, runs the script that the two stand for, and writes the summary of its log. Nothing is written before the run
/// has ended.
pub fn afd_script<S: Source, K: Sink>(
    alloc: Global,
    words: &Args,
    source: &mut S,
    sink: &mut K,
) -> ScriptEnd
    ensures usage { (result ≡ ScriptEnd.Usage) ↔ (job_of words.now ≡ None) }
    ensures untouched { ScriptLeavesAlone (job_of words.now) result source.old source.new sink.old sink.new }
    ensures reading { reads result ≡ true → job_of words.now ≡ Some job.Script }
    ensures given { ScriptReadAs result (S.left source.old) (S.left source.new) }

    // what was asked for is done, or as much of it as the sink took
    ensures done { result ≡ ScriptEnd.Done →
        Did put.Done (job_of words.now) (S.left source.old) (S.left source.new) (K.held sink.old) (K.held sink.new) }
    ensures cut { result ≡ ScriptEnd.SinkFault →
        Did put.Failed (job_of words.now) (S.left source.old) (S.left source.new) (K.held sink.old) (K.held sink.new) }

    // each fault has its cause
    ensures source { CountsFault (result ≡ ScriptEnd.ReadFault) (S.faults source.old) (S.faults source.new) }
    ensures sink { CountsFault (result ≡ ScriptEnd.SinkFault) (K.faults sink.old) (K.faults sink.new) }

    // what can be done is done whole, if there is memory
    ensures complete { CanBeDone S.left S.faults (job_of words.now) source.old source.new → NoFault K.faults sink.old sink.new →
        (result ≡ ScriptEnd.Done) ⊎ (result ≡ ScriptEnd.OutOfMemory) }
{
    match job_of(words) {
        None => ScriptEnd::Usage,
        Some(ScriptJob::Script) => transcribe(alloc, source, sink),
        Some(ScriptJob::Exercise { seed, turns }) => exercise(alloc, seed, turns, sink),
    }
}

// Reads the source as a script, runs it, and writes its transcript.
fn transcribe<S: Source, K: Sink>(alloc: Global, source: &mut S, sink: &mut K) -> ScriptEnd
    ensures used { result ≢ ScriptEnd.Usage }
    ensures given { ScriptReadAs result (S.left source.old) (S.left source.new) }
    ensures done { result ≡ ScriptEnd.Done →
        WroteTranscript put.Done (S.left source.old) (S.left source.new) (K.held sink.old) (K.held sink.new) }
    ensures cut { result ≡ ScriptEnd.SinkFault →
        WroteTranscript put.Failed (S.left source.old) (S.left source.new) (K.held sink.old) (K.held sink.new) }
    ensures unwritten { writes result ≡ false → sink.new ≡ sink.old }
    ensures source { CountsFault (result ≡ ScriptEnd.ReadFault) (S.faults source.old) (S.faults source.new) }
    ensures sink { CountsFault (result ≡ ScriptEnd.SinkFault) (K.faults sink.old) (K.faults sink.new) }
    ensures complete { IsGoodScript S.left S.faults source.old source.new → NoFault K.faults sink.old sink.new →
        (result ≡ ScriptEnd.Done) ⊎ (result ≡ ScriptEnd.OutOfMemory) }
{
    let text = match read_text(alloc, source, LONGEST_SCRIPT) {
        Ok(text) => text,
        Err(TextFault::ReadFault) => return ScriptEnd::ReadFault,
        Err(TextFault::TooLong) => return ScriptEnd::TooLong,
        Err(TextFault::OutOfMemory) => return ScriptEnd::OutOfMemory,
    };
    let tape = match run_text(alloc, &text) {
        Ok(tape) => tape,
        Err(ScriptFault::Line(line)) => return ScriptEnd::ScriptFault { line },
        Err(ScriptFault::OutOfMemory) => return ScriptEnd::OutOfMemory,
    };
    match print_log(tape.log(), sink) {
        Put::Done => ScriptEnd::Done,
        Put::Failed => ScriptEnd::SinkFault,
    }
}

// Runs the script of a seed and n turns, and writes the summary of its log.
fn exercise<K: Sink>(alloc: Global, seed: u64, turns: u32, sink: &mut K) -> ScriptEnd
    requires { (1 ≤ turns) × (turns ≤ 10000) }
    ensures ends { (result ≡ ScriptEnd.Done) ⊎ ((result ≡ ScriptEnd.SinkFault) ⊎ (result ≡ ScriptEnd.OutOfMemory)) }
    ensures done { result ≡ ScriptEnd.Done → WroteSummary put.Done seed turns (K.held sink.old) (K.held sink.new) }
    ensures cut { result ≡ ScriptEnd.SinkFault → WroteSummary put.Failed seed turns (K.held sink.old) (K.held sink.new) }
    ensures unwritten { result ≡ ScriptEnd.OutOfMemory → sink.new ≡ sink.old }
    ensures sink { CountsFault (result ≡ ScriptEnd.SinkFault) (K.faults sink.old) (K.faults sink.new) }
{
    let Ok(script) = make_script(alloc, seed, turns) else {
        return ScriptEnd::OutOfMemory;
    };
    let Ok(tape) = run_script(alloc, &script) else {
        return ScriptEnd::OutOfMemory;
    };
    let steps = script.steps.as_slice().len() as u32;
    match print_summary(tape.log(), steps, sink) {
        Put::Done => ScriptEnd::Done,
        Put::Failed => ScriptEnd::SinkFault,
    }
}

// Runs the script that a text is. The tape shows its one log.
fn run_text(alloc: Global, text: &[u8]) -> Result<Tape, ScriptFault>
    requires { length text.now ≤ longest_script }
    ensures ran { IfOk result (λ tape. TellsLogOf text.now tape.log) }
    ensures fault { IfErr result (λ e. IsScriptFault text.now e) }
{
    let script = read_script(alloc, text)?;
    let Ok(tape) = run_script(alloc, &script) else {
        return Err(ScriptFault::OutOfMemory);
    };
    Ok(tape)
}

// Runs a script. The tape shows its one log.
fn run_script(alloc: Global, script: &Script) -> Result<Tape, OutOfMemory>
    requires rates { All (λ device. IsListedRate device.rate) script.now.config.items }
    requires channels { All (λ device. IsChannelCount device.channels) script.now.config.items }
    requires steps { All (IsStep script.now.config.items) script.now.steps }
    ensures { IfOk result (λ tape. HasOneLog script.now.config.items script.now.steps tape.log) }
{
    let mut tape = Tape::new(
        alloc,
        &script.config,
        script.steps.as_slice(),
        LifecycleFaults::default(),
    )?;
    run_tape(alloc, &script.config, &mut tape)?;
    Ok(tape)
}
