// Times round the wrap of their words, and the frames that last a time.
use crate::tests::asserts::{assert_number, number_or_none};
use af_time::{DevTime, frames_of_ms};
use std::process::Abort;

// Each time minus the other is this number: the first is so much after the other, or before it if the number is negative.
fn assert_differences(rt: &impl Abort, cases: &[(u32, u32, i32)]) {
    for (word, other, difference) in cases {
        let (time, other) = (DevTime(*word), DevTime(*other));
        let after = other.after(difference.cast_unsigned());
        assert_number(
            rt,
            "the difference",
            i128::from(time.diff(other)),
            i128::from(*difference),
        );
        assert_number(rt, "the later time", i128::from(after.0), i128::from(*word));
        assert_number(
            rt,
            "the order",
            i128::from(time.is_before(other)),
            i128::from(*difference < 0),
        );
    }
}

// At each rate so many milliseconds are these frames, or too many.
fn assert_frames(rt: &impl Abort, cases: &[(u32, u32, Option<u32>)]) {
    for (rate, ms, frames) in cases {
        assert_number(
            rt,
            "frames",
            number_or_none(frames_of_ms(*rate, *ms)),
            number_or_none(*frames),
        );
    }
}

#[test]
fn times_go_round(rt: HostRuntime) {
    assert_differences(
        &rt,
        &[
            (4, 4294967290, 10),
            (4294967290, 4, -10),
            (4, 4, 0),
            (2147483647, 0, 2147483647),
            // half of all times ahead is late
            (2147483648, 0, -2147483648),
        ],
    );
    assert_frames(
        &rt,
        &[
            (8000, 20, Some(160)),
            (44100, 1, Some(44)),
            (48000, 44739242, Some(2147483616)),
            (48000, 44739243, None),
            (4294967295, 4294967295, None),
        ],
    );
}
