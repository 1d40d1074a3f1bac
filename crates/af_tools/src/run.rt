// The tools, by their arguments: a server is dialled, and the job is done.
ghost use Rattle.std.specs.Prelude.{◌≡◌, ◌≢◌, ◌≤◌, ◌⊎◌, ◌∷◌, [], ℕ, List, true, false, length, option_and_then};
ghost use Rattle.std.specs.Option.{option_map_or};
ghost use Rattle.std.specs.declared.option.Option.TheVariants.{None, Some};
ghost use Rattle.af_io.specs.Observed.{CountsFault, Appended, FaultCounted};
ghost use Rattle.af_io.specs.Dial.{ToldLink};
ghost use Rattle.af_toolkit.specs.Trace.{connects};
ghost use Rattle.af_toolkit.specs.Ends.{client_of};
ghost use Rattle.af_cli.specs.Words.{is_spelled, job, one, Job};
ghost use Rattle.af_cli.specs.Call.{job_of_call, IsCall};
ghost use Rattle.af_cli.specs.Ranges.{IsAddress, IsRanged};
ghost use Rattle.af_tools.specs.Reading.{FollowsTrace, TellsIfRead, UsesSource, DialGivesContext, GivesContext, JobReadsLate, ReadsLate, is_of_tool};
ghost use Rattle.af_tools.specs.Run.{is_of_af, is_of_dial, is_of_far, is_of_job, is_strict, job_form, job_reads, reads_source, servers_of, source_form, task_trace, AskedFor, DoesJob, EndsForCause, JobRan};
ghost use Rattle.af_tools.specs.RunSteps.{JobInStep, SetUpThen, TaskSteps};
ghost use Rattle.af_cli.specs.Sizes.{greatest_block};

use crate::memory::Memory;
use crate::player::aplay;
use crate::recorder::arecord;
use crate::relay::run_relay;
use crate::setter::aset;
use af_cli::{Call, OptionsFault, Task, TaskCall, call_of};
use af_io::{Args, Dial, Dialed, Link, Sink, Source};
use af_lib::Conn;
use af_standing::list;
use af_toolkit::ToolEnd;
use af_wire::Order;
use std::alloc::Global;

// Does a task on a connection that was just made.
fn perform<L: Link + Drop, S: Source, K: Sink>(
    task: &Task,
    conn: &mut Conn<L>,
    source: &mut S,
    sink: &mut K,
    room: &mut [u8],
) -> ToolEnd
    requires usable { conn.old.cause ≡ None }
    requires range { IsRanged task.now }
    requires room { greatest_block ≤ length room.old }
    ensures followed { FollowsTrace L.left L.sent S.left K.held (reads_source task.now) result conn.old.link conn.new.link
        source.old source.new sink.old sink.new
        (λ input bytes. task_trace task.now conn.old.devices bytes (client_of conn.old input)) }
    ensures step { (input bytes : List ℕ) → L.left conn.old.link ≡ Some input →
        TellsIfRead S.left (reads_source task.now) bytes source.old source.new →
        TaskSteps task.now conn.old.devices bytes (client_of conn.old input) result (S.left source.new)
        (L.sent conn.old.link) (L.sent conn.new.link) (K.held sink.old) (K.held sink.new) }
    ensures end { is_of_tool (reads_source task.now) (is_strict task.now) result ≡ true }
    ensures source { UsesSource S.left S.faults (reads_source task.now) (source_form task.now) result source.old source.new }
    ensures unread { ReadsLate task.now (λ play. (input : List ℕ) → L.left conn.old.link ≡ Some input →
        GivesContext play conn.old.devices (client_of conn.old input)) source.old source.new }
    ensures link { CountsFault (result ≡ ToolEnd.LinkFault) (L.faults conn.old.link) (L.faults conn.new.link) }
    ensures sink { CountsFault (result ≡ ToolEnd.SinkFault) (K.faults sink.old) (K.faults sink.new) }
{
    match task {
        Task::Play(job) => aplay(job, conn, source, sink, room),
        Task::Record(job) => arecord(job, conn, sink, room),
        Task::Set(job) => aset(job, conn, sink),
        Task::List => list(conn, sink),
    }
}

// Sets a link up in a byte order and does a task on it. The link comes back.
fn perform_over<L: Link + Drop, S: Source, K: Sink>(
    order: Order,
    task: &Task,
    far: L,
    source: &mut S,
    sink: &mut K,
    memory: &mut Memory,
) -> (ToolEnd, L)
    requires range { IsRanged task.now }
    requires room { greatest_block ≤ length memory.old.room.items }
    ensures followed { FollowsTrace L.left L.sent S.left K.held (reads_source task.now) result.0 far result.1
        source.old source.new sink.old sink.new
        (λ input bytes. connects order input (λ devices w. task_trace task.now devices bytes w)) }
    ensures step { (input bytes : List ℕ) → L.left far ≡ Some input →
        TellsIfRead S.left (reads_source task.now) bytes source.old source.new →
        SetUpThen order input ((source.new ≡ source.old) × (sink.new ≡ sink.old)) (λ devices w sent sent'.
        TaskSteps task.now devices bytes w result.0 (S.left source.new) sent sent' (K.held sink.old) (K.held sink.new))
        (L.sent far) (L.sent result.1) }
    ensures memory { result.0 ≡ ToolEnd.OutOfMemory → (L.sent result.1 ≡ L.sent far) × (sink.new ≡ sink.old) }
    ensures end { is_of_far (is_of_tool (reads_source task.now) (is_strict task.now)) result.0 ≡ true }
    ensures source { UsesSource S.left S.faults (reads_source task.now) (source_form task.now) result.0 source.old source.new }
    ensures unread { ReadsLate task.now (λ play. (link : ToldLink) (links : List ToldLink) → L.left far ≡ Some link.gives →
        DialGivesContext order play (link ∷ links)) source.old source.new }
    ensures link { result.0 ≡ ToolEnd.LinkFault → FaultCounted (L.faults far) (L.faults result.1) }
    ensures sink { CountsFault (result.0 ≡ ToolEnd.SinkFault) (K.faults sink.old) (K.faults sink.new) }
{
    match Conn::connect(memory.alloc, far, order) {
        Ok(mut conn) => {
            let end = perform(task, &mut conn, source, sink, &mut memory.room);
            (end, conn.into_link())
        }
        Err((fault, far)) => (ToolEnd::from(fault), far),
    }
}

// Dials a server, and does a task. The link is given back.
fn run_one<S: Source, K: Sink, D: Dial>(
    call: &TaskCall<'_>,
    source: &mut S,
    sink: &mut K,
    dial: &mut D,
    memory: &mut Memory,
) -> ToolEnd
    requires range { IsRanged call.now.task }
    requires server { IsAddress call.now.server.now }
    requires room { greatest_block ≤ length memory.old.room.items }
    ensures ran { (links : List ToldLink) (bytes : List ℕ) → D.links dial.old ≡ Some links →
        TellsIfRead S.left (reads_source call.now.task) bytes source.old source.new →
        JobRan (one call.now.server.now call.now.order call.now.task) bytes result links (D.links dial.new)
        (K.held sink.old) (K.held sink.new) (D.back dial.old) (D.back dial.new) }
    ensures step { JobInStep D.links D.back S.left K.held (one call.now.server.now call.now.order call.now.task) result
        dial.old dial.new source.old source.new sink.old sink.new }
    ensures asked { Appended (D.asked dial.old) (call.now.server.now ∷ []) (D.asked dial.new) }
    ensures end { is_of_dial (is_of_tool (reads_source call.now.task) (is_strict call.now.task)) result ≡ true }
    ensures causes { EndsForCause S.left S.faults K.faults D.faults D.hurt
        (reads_source call.now.task) (source_form call.now.task) result
        source.old source.new sink.old sink.new dial.old dial.new }
    ensures unread { ReadsLate call.now.task (λ play. (told : List ToldLink) → D.links dial.old ≡ Some told →
        DialGivesContext call.now.order play told) source.old source.new }
{
    match dial.dial(call.server) {
        Dialed::Far(far) => {
            let (end, far) = perform_over(call.order, &call.task, far, source, sink, memory);
            dial.hang_up(far);
            end
        }
        Dialed::Failed => ToolEnd::DialFault,
        Dialed::OutOfMemory => ToolEnd::OutOfMemory,
    }
}

// Does what a call asks. All links are given back.
fn run_call<S: Source, K: Sink, D: Dial>(
    alloc: Global,
    call: &Call<'_>,
    source: &mut S,
    sink: &mut K,
    dial: &mut D,
) -> ToolEnd
    requires { IsCall call.now }
    ensures ran { (links : List ToldLink) (bytes : List ℕ) → D.links dial.old ≡ Some links →
        TellsIfRead S.left (job_reads (job_of_call call.now)) bytes source.old source.new →
        JobRan (job_of_call call.now) bytes result links (D.links dial.new)
        (K.held sink.old) (K.held sink.new) (D.back dial.old) (D.back dial.new) }
    ensures step { JobInStep D.links D.back S.left K.held (job_of_call call.now) result
        dial.old dial.new source.old source.new sink.old sink.new }
    ensures asked { AskedFor (servers_of (job_of_call call.now)) result (D.asked dial.old) (D.asked dial.new) }
    ensures end { is_of_job (job_of_call call.now) result ≡ true }
    ensures causes { EndsForCause S.left S.faults K.faults D.faults D.hurt
        (job_reads (job_of_call call.now)) (job_form (job_of_call call.now)) result
        source.old source.new sink.old sink.new dial.old dial.new }
    ensures unread { JobReadsLate D.links (job_of_call call.now) dial.old source.old source.new }
{
    let Ok(mut memory) = Memory::new(alloc) else {
        return ToolEnd::OutOfMemory;
    };
    match call {
        Call::One(call) => run_one(call, source, sink, dial, &mut memory),
        Call::Relay(call) => run_relay(call, sink, dial, &mut memory),
    }
}

/// The tools: the first word names one, and the others say what it is to do. Its server is dialled, of a relay both are, and the
/// links are given back before any answer, in the order of dialling. All memory is taken before the first request after the
/// setups.
pub fn af_run<S: Source, K: Sink, D: Dial>(
    alloc: Global,
    words: &Args,
    source: &mut S,
    sink: &mut K,
    dial: &mut D,
) -> ToolEnd
    // valid arguments never get Usage; all others get it, except those that the command accepts as well
    ensures usage { is_spelled words.now ≡ true → result ≢ ToolEnd.Usage }
    ensures other { job words.now ≡ None → (result ≡ ToolEnd.Usage) ⊎ (result ≡ ToolEnd.OutOfMemory) }
    ensures untouched { result ≡ ToolEnd.Usage → (source.new ≡ source.old) × (sink.new ≡ sink.old) × (dial.new ≡ dial.old) }
    ensures no_job { job words.now ≡ None → (source.new ≡ source.old) × (sink.new ≡ sink.old) × (dial.new ≡ dial.old) }

    // which servers were dialled; what was sent, written, heard and passed, and when it is done
    ensures asked { (j : Job) → job words.now ≡ Some j → result ≢ ToolEnd.Usage →
        AskedFor (servers_of j) result (D.asked dial.old) (D.asked dial.new) }
    ensures told { (j : Job) → job words.now ≡ Some j → result ≢ ToolEnd.Usage →
        DoesJob D.links D.back S.left K.held j result dial.old dial.new source.old source.new sink.old sink.new }

    // in what order it read, sent and wrote
    ensures step { (j : Job) → job words.now ≡ Some j →
        JobInStep D.links D.back S.left K.held j result dial.old dial.new source.old source.new sink.old sink.new }

    // each end has its cause
    ensures end { is_of_af (job words.now) result ≡ true }
    ensures causes { EndsForCause S.left S.faults K.faults D.faults D.hurt (option_map_or job_reads (job words.now) false)
        (option_and_then job_form (job words.now)) result source.old source.new sink.old sink.new dial.old dial.new }
    ensures unread { (j : Job) → job words.now ≡ Some j → JobReadsLate D.links j dial.old source.old source.new }
{
    match call_of(alloc, words) {
        Ok(call) => run_call(alloc, &call, source, sink, dial),
        Err(OptionsFault::Usage) => ToolEnd::Usage,
        Err(OptionsFault::OutOfMemory) => ToolEnd::OutOfMemory,
    }
}
