// Arguments of the tools, and what they ask.
use crate::tests::checks::{holds, words_of};
use af_cli::{
    Call, OptionsFault, PassJob, PlayJob, RecordJob, RelayCall, SetJob, Task, TaskCall, call_of,
    true_form_of,
};
use af_sample::{Gain, SampleType};
use af_sound::SoundForm;
use af_wire::Order;
use std::alloc::Global;
use std::process::Abort;
use std::test::Fail;

// These arguments ask one server for a task, in big-endian order.
fn ask_task(rt: &impl Abort, alloc: Global, words: &[&str], wanted: Task) -> Result<(), Fail> {
    ask_in_order(rt, alloc, words, Order::Big, wanted)
}

// These arguments ask one server for a task, in this byte order.
fn ask_in_order(
    rt: &impl Abort,
    alloc: Global,
    words: &[&str],
    wanted_order: Order,
    wanted: Task,
) -> Result<(), Fail> {
    let args = words_of(alloc, words)?;
    let Ok(
        Call::One(
            TaskCall {
                server,
                order,
                wait: _,
                task,
            },
        ),
    ) = call_of(alloc, &args)
    else {
        return Err(Fail::from("no task"));
    };
    holds(rt, "the server", server == "h:1");
    holds(rt, "the order", order == wanted_order);
    holds(rt, "the task", task == wanted);
    Ok(())
}

// These arguments ask for a relay between two servers, in little-endian order.
fn ask_relay(rt: &impl Abort, alloc: Global, words: &[&str], wanted: PassJob) -> Result<(), Fail> {
    let args = words_of(alloc, words)?;
    let Ok(
        Call::Relay(
            RelayCall {
                from,
                to,
                order,
                wait: _,
                job,
            },
        ),
    ) = call_of(alloc, &args)
    else {
        return Err(Fail::from("no relay"));
    };
    holds(rt, "the first server", from == "a:1");
    holds(rt, "the second server", to == "b:2");
    holds(rt, "the order", order == Order::Little);
    holds(rt, "the job", job == wanted);
    Ok(())
}

// These arguments have a dial that is refused tried again for so many seconds.
fn wait_for(rt: &impl Abort, alloc: Global, words: &[&str], wanted: u32) -> Result<(), Fail> {
    let args = words_of(alloc, words)?;
    let wait = match call_of(alloc, &args) {
        Ok(Call::One(call)) => call.wait,
        Ok(Call::Relay(call)) => call.wait,
        Err(_) => return Err(Fail::from("no call")),
    };
    holds(rt, "the wait", wait == wanted);
    Ok(())
}

// These arguments ask for nothing.
fn ask_nothing(rt: &impl Abort, alloc: Global, words: &[&str]) -> Result<(), Fail> {
    let args = words_of(alloc, words)?;
    let Err(fault) = call_of(alloc, &args) else {
        return Err(Fail::from("a call"));
    };
    holds(rt, "the fault", fault == OptionsFault::Usage);
    Ok(())
}

#[test]
fn a_server_alone_has_the_defaults(rt: HostRuntime) -> Result<(), Fail> {
    let job = PlayJob {
        device: 0,
        form: None,
        ty: None,
        gain: Gain::default(),
        block: 1000,
        lead: 100,
        time: None,
        ahead: None,
        preempt: false,
        drain: false,
        strict: false,
    };
    ask_task(&rt, rt.alloc(), &["aplay", "h:1"], Task::Play(job))
}

#[test]
fn a_sound_file_is_named_by_its_form(rt: HostRuntime) -> Result<(), Fail> {
    let job = PlayJob {
        device: 0,
        form: Some(SoundForm::Wave),
        ty: None,
        gain: Gain::default(),
        block: 1000,
        lead: 100,
        time: None,
        ahead: None,
        preempt: false,
        drain: false,
        strict: false,
    };
    ask_task(
        &rt,
        rt.alloc(),
        &["aplay", "h:1", "--file=wave"],
        Task::Play(job),
    )
}

#[test]
fn a_recording_is_named_by_its_form(rt: HostRuntime) -> Result<(), Fail> {
    let job = RecordJob {
        device: 0,
        form: Some(SoundForm::Au),
        ty: Some(SampleType::Lin32),
        gain: Gain::default(),
        block: 1000,
        time: None,
        frames: 9,
        seconds: None,
        stop_peak: 0,
        stop_blocks: 1,
        true_header: false,
        strict: false,
    };
    let words = ["arecord", "h:1", "--file=au", "--type=lin32", "--frames=9"];
    ask_task(&rt, rt.alloc(), &words, Task::Record(job))
}

// A recording of these frames, or of these seconds.
fn recording(frames: u32, seconds: Option<u32>) -> RecordJob {
    RecordJob {
        device: 0,
        form: None,
        ty: None,
        gain: Gain::default(),
        block: 1000,
        time: None,
        frames,
        seconds,
        stop_peak: 0,
        stop_blocks: 1,
        true_header: false,
        strict: false,
    }
}

#[test]
fn a_recording_is_stated_in_frames_or_in_seconds(rt: HostRuntime) -> Result<(), Fail> {
    let alloc = rt.alloc();
    for (length, frames, seconds) in [
        ("--frames=1", 1, None),
        ("--frames=2147483647", 2147483647, None),
        ("--seconds=1", 0, Some(1)),
        ("--seconds=2147483", 0, Some(2147483)),
    ] {
        let wanted = Task::Record(recording(frames, seconds));
        ask_task(&rt, alloc, &["arecord", "h:1", length], wanted)?;
    }
    ask_nothing(&rt, alloc, &["arecord", "h:1"])?;
    for length in [
        "--frames=0",
        "--frames=2147483648",
        "--seconds=0",
        "--seconds=2147484",
    ] {
        ask_nothing(&rt, alloc, &["arecord", "h:1", length])?;
    }
    let both = ["arecord", "h:1", "--frames=8000", "--seconds=1"];
    ask_nothing(&rt, alloc, &both)
}

// Words, and the form of the file whose header they keep true.
static TRUE_FORMS: [(&[&str], Option<SoundForm>); 9] = [
    (
        &["arecord", "h:1", "--seconds=1", "--file=au"],
        Some(SoundForm::Au),
    ),
    (
        &[
            "arecord",
            "h:1",
            "--frames=1",
            "--file=wave",
            "--true-header",
        ],
        Some(SoundForm::Wave),
    ),
    (
        &[
            "arecord",
            "h:1",
            "--seconds=1",
            "--file=wave",
            "--true-header",
        ],
        Some(SoundForm::Wave),
    ),
    (&["arecord", "h:1", "--frames=1", "--file=au"], None),
    (&["arecord", "h:1", "--seconds=1"], None),
    (&["arecord", "h:1", "--frames=1", "--true-header"], None),
    (&["arecord", "h:1", "--file=au", "--true-header"], None),
    (&["aplay", "h:1", "--file=au"], None),
    (&["list", "h:1"], None),
];

#[test]
fn a_header_is_kept_true_by_seconds_or_where_that_is_asked(rt: HostRuntime) -> Result<(), Fail> {
    let alloc = rt.alloc();
    for (words, form) in &TRUE_FORMS {
        let args = words_of(alloc, words)?;
        holds(&rt, "the form", true_form_of(alloc, &args) == *form);
    }
    Ok(())
}

#[test]
fn seconds_are_frames_at_the_rate_of_a_device(rt: HostRuntime) -> Result<(), Fail> {
    for (seconds, rate, frames) in [
        (1, 8000, 8000),
        (2, 11025, 22050),
        (44739, 48000, 2147472000),
        (44740, 48000, 2147483647),
        (2147483, 48000, 2147483647),
    ] {
        let timed = recording(0, Some(seconds)).at_rate(rate);
        holds(&rt, "the frames", timed == recording(frames, None));
    }
    let stated = recording(9, None);
    holds(&rt, "stated frames", stated.at_rate(8000) == stated);
    Ok(())
}

#[test]
fn values_stand_after_a_sign_or_a_blank(rt: HostRuntime) -> Result<(), Fail> {
    let job = PlayJob {
        device: 0,
        form: None,
        ty: Some(SampleType::Lin16),
        gain: Gain::default(),
        block: 4000,
        lead: 100,
        time: Some(7),
        ahead: Some(20),
        preempt: true,
        drain: true,
        strict: true,
    };
    let words = [
        "aplay",
        "h:1",
        "--type=lin16",
        "--block",
        "4000",
        "--time=7",
        "--ahead",
        "20",
        "--preempt",
        "--drain",
        "--strict",
    ];
    ask_task(&rt, rt.alloc(), &words, Task::Play(job))
}

#[test]
fn an_order_is_named(rt: HostRuntime) -> Result<(), Fail> {
    let job = SetJob {
        device: 0,
        input_gain: None,
        output_gain: None,
        input_on: None,
        output_on: None,
        hook_off: None,
    };
    let words = ["aset", "h:1", "--order=little"];
    ask_in_order(&rt, rt.alloc(), &words, Order::Little, Task::Set(job))?;
    let words = ["list", "h:1", "--order=little"];
    ask_in_order(&rt, rt.alloc(), &words, Order::Little, Task::List)
}

#[test]
fn a_relay_names_two_servers(rt: HostRuntime) -> Result<(), Fail> {
    let job = PassJob {
        from_device: 0,
        to_device: 0,
        ty: None,
        gain: Gain::default(),
        blocks: Some(3),
        block: 1000,
        delay: 0,
        slack: 100,
        follow: false,
    };
    let words = [
        "apass",
        "a:1",
        "b:2",
        "--order=little",
        "--blocks=3",
        "--delay=0",
    ];
    ask_relay(&rt, rt.alloc(), &words, job)
}

#[test]
fn a_relay_that_follows_needs_no_blocks(rt: HostRuntime) -> Result<(), Fail> {
    let job = PassJob {
        from_device: 0,
        to_device: 0,
        ty: None,
        gain: Gain::default(),
        blocks: None,
        block: 1000,
        delay: 0,
        slack: 100,
        follow: true,
    };
    let words = [
        "apass",
        "a:1",
        "b:2",
        "--order=little",
        "--delay=0",
        "--follow",
    ];
    ask_relay(&rt, rt.alloc(), &words, job)
}

#[test]
fn a_server_is_waited_for_so_many_seconds(rt: HostRuntime) -> Result<(), Fail> {
    let relay = ["apass", "a:1", "b:2", "--blocks=1", "--wait=7"];
    wait_for(&rt, rt.alloc(), &["list", "h:1"], 0)?;
    wait_for(&rt, rt.alloc(), &["aset", "--wait", "3600", "h:1"], 3600)?;
    wait_for(&rt, rt.alloc(), &relay, 7)?;
    ask_nothing(&rt, rt.alloc(), &["list", "h:1", "--wait=3601"])?;
    ask_nothing(&rt, rt.alloc(), &["list", "h:1", "--wait="])
}

#[test]
fn a_value_out_of_its_range_is_no_call(rt: HostRuntime) -> Result<(), Fail> {
    ask_nothing(&rt, rt.alloc(), &["aplay", "h:1", "--block=4001"])?;
    ask_nothing(&rt, rt.alloc(), &["aset", "h:1", "--order=middle"])?;
    ask_nothing(&rt, rt.alloc(), &["list", "h:1", "--device=0"])
}
