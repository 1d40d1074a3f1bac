// A client's requests on contexts and their answers, step by step.
use af_context::*;
use af_sample::{Gain, SampleType};
use std::process::Abort;

// What is asked of the contexts of a link.
#[derive(Drop)]
enum Ask {
    Create(Context),
    Change(u32, Option<Gain>, Option<Gain>, Option<bool>),
    Free(u32),
    Clear,
}

// Each step with its answer. At first there is no context.
fn assert_steps(
    rt: &impl Abort,
    steps: &[(Ask, Result<(), ContextFault>)],
    left: &[(u32, Option<Context>)],
) {
    let mut contexts = Contexts::new();
    for (ask, answer) in steps {
        assert_same_answer(rt, asked(&mut contexts, ask), *answer);
    }
    for (ac, context) in left {
        assert_eq!(rt; contexts.get(*ac), *context, "{ac}");
    }
}

fn asked(contexts: &mut Contexts, ask: &Ask) -> Result<(), ContextFault> {
    match ask {
        Ask::Create(context) => contexts.create(*context),
        Ask::Change(ac, play, record_to, preempt) => contexts.change(
            *ac, *play, *record_to, *preempt,
        ),
        Ask::Free(ac) => contexts.free(*ac),
        Ask::Clear => {
            contexts.clear();
            Ok(())
        }
    }
}

fn assert_same_answer(
    rt: &impl Abort,
    found: Result<(), ContextFault>,
    wanted: Result<(), ContextFault>,
) {
    assert_eq!(rt; found, wanted);
}

fn context(ac: u32, device: u8) -> Context {
    Context {
        ac,
        device,
        ty: SampleType::Lin16,
        ..Default::default()
    }
}

#[test]
fn a_number_in_use_is_told_before_the_room(rt: HostRuntime) {
    let mut contexts = Contexts::new();
    for ac in 0..16u32 {
        assert_same_answer(&rt, contexts.create(context(ac, 0)), Ok(()));
    }
    assert_same_answer(
        &rt,
        contexts.create(context(7, 1)),
        Err(ContextFault::BadIdChoice),
    );
    assert_same_answer(
        &rt,
        contexts.create(context(16, 1)),
        Err(ContextFault::TooMany),
    );
}

#[test]
fn only_the_stated_settings_of_the_named_context_change(rt: HostRuntime) {
    let louder = Gain::new(6).unwrap_or_default();
    let softer = Gain::new(-6).unwrap_or_default();
    let changed = Context {
        play_gain: louder,
        record_gain: softer,
        preempt: true,
        ..context(2, 1)
    };
    assert_steps(
        &rt,
        &[
            (Ask::Create(context(1, 0)), Ok(())),
            (Ask::Create(context(2, 1)), Ok(())),
            (Ask::Change(2, Some(louder), None, None), Ok(())),
            (Ask::Change(2, None, Some(softer), Some(true)), Ok(())),
            (
                Ask::Change(3, Some(louder), None, None),
                Err(ContextFault::BadAc),
            ),
        ],
        &[(1, Some(context(1, 0))), (2, Some(changed)), (3, None)],
    );
}

#[test]
fn a_freed_number_is_free_again(rt: HostRuntime) {
    assert_steps(
        &rt,
        &[
            (Ask::Create(context(1, 0)), Ok(())),
            (Ask::Create(context(2, 1)), Ok(())),
            (Ask::Free(1), Ok(())),
            (Ask::Free(1), Err(ContextFault::BadAc)),
            (Ask::Create(context(1, 2)), Ok(())),
        ],
        &[(1, Some(context(1, 2))), (2, Some(context(2, 1)))],
    );
    assert_steps(
        &rt,
        &[(Ask::Create(context(2, 1)), Ok(())), (Ask::Clear, Ok(()))],
        &[(2, None)],
    );
}
