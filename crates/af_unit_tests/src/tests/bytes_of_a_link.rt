// The bytes of a link in and out, step by step.
use crate::tests::asserts::{assert_bytes, assert_number};
use af_limits::{MOST_UNREAD, OUTPUT_ROOM};
use af_session::Session;
use af_time::OutOfMemory;
use std::alloc::Global;
use std::process::Abort;
use std::test::Fail;

#[derive(Clone, Copy)]
enum Step<'a> {
    // bytes came in, or the first n of them are used
    In(&'a [u8]),
    Used(usize),
    // bytes are to go out, or the first n of them went
    Out(&'a [u8]),
    Went(usize),
    // what is not used yet, and what is to go out
    Holds(&'a [u8], &'a [u8]),
    Clear,
}

// Takes the steps over a new session. Each has to fit.
fn assert_steps(rt: &impl Abort, alloc: Global, steps: &[Step<'_>]) -> Result<(), OutOfMemory> {
    let mut session = Session::new(alloc)?;
    for step in steps {
        let fits = stepped(rt, &mut session, step);
        assert_number(rt, "fits", i128::from(fits), 1);
    }
    Ok(())
}

// Takes a step, and says whether it fits.
fn stepped(rt: &impl Abort, session: &mut Session, step: &Step<'_>) -> bool {
    let unread = session.rest().len();
    let pending = session.pending_len();
    match step {
        Step::In(bytes) if bytes.len() <= MOST_UNREAD - unread => session.take_in(bytes),
        Step::Used(n) if *n <= unread => session.drop_front(*n),
        Step::Out(bytes) if bytes.len() <= OUTPUT_ROOM - pending => session.push_out(bytes),
        Step::Went(n) if *n <= pending => session.took(*n),
        Step::Holds(rest, to_go) => {
            assert_bytes(rt, "not used yet", session.rest(), rest);
            assert_bytes(rt, "to go out", session.pending(), to_go);
        }
        Step::Clear => session.clear(),
        _ => return false,
    }
    true
}

// One byte less than may wait to be sent, and than may be unread.
static MUCH_TO_GO: [u8; 65535] = [0; 65535];

static MUCH_UNREAD: [u8; 32767] = [0; 32767];

#[test]
fn bytes_in_and_out_keep_apart(rt: HostRuntime) -> Result<(), Fail> {
    assert_steps(
        &rt,
        rt.alloc(),
        &[
            Step::In(&[1, 2]),
            Step::Used(1),
            Step::Holds(&[2], &[]),
            // as many bytes as may wait to be sent, and more after some went
            Step::Out(&MUCH_TO_GO),
            Step::Out(&[7]),
            Step::Went(65535),
            Step::Out(&[8, 9]),
            Step::Holds(&[2], &[7, 8, 9]),
            Step::Went(2),
            Step::Holds(&[2], &[9]),
            // as many bytes as may be unread, and more after some are used
            Step::In(&MUCH_UNREAD),
            Step::Used(32767),
            Step::In(&[3, 4]),
            Step::Holds(&[0, 3, 4], &[9]),
            // the next link of the number
            Step::Clear,
            Step::Holds(&[], &[]),
        ],
    )?;
    Ok(())
}
