// Lines, words and numbers of texts, against results that were worked out by hand.
use crate::tests::asserts::{assert_bytes, assert_number, long_or_none, number_or_none};
use af_sample::SampleType;
use af_text::*;
use std::process::Abort;

// Each text is this line, and this text after it.
fn assert_lines(rt: &impl Abort, cases: &[(&[u8], &[u8], &[u8])]) {
    for (text, line, after) in cases {
        if !text.is_empty() {
            let (found, rest) = next_line(text);
            assert_bytes(rt, "a line", found, line);
            assert_bytes(rt, "the text after it", rest, after);
        }
    }
}

// What was found is this pair, or nothing if the first is empty.
fn assert_pair(rt: &impl Abort, what: &str, found: Option<(&[u8], &[u8])>, wanted: (&[u8], &[u8])) {
    match found {
        Some((first, second)) => {
            assert_bytes(rt, what, first, wanted.0);
            assert_bytes(rt, what, second, wanted.1);
        }
        None => assert_bytes(rt, what, b"", wanted.0),
    }
}

type Pair = (&'static [u8], &'static [u8]);

// Each line with its first word and the line after it, its words if they are two, its word if it is one, and whether it is
// skipped.
fn assert_words(rt: &impl Abort, cases: &[(&[u8], Pair, Pair, &[u8], bool)]) {
    for (line, next, two, one, passed) in cases {
        assert_pair(rt, "a word and the line after it", next_word(line), *next);
        assert_pair(rt, "two words", two_words(line), *two);
        assert_bytes(rt, "one word", one_word(line).unwrap_or(b""), one);
        assert_number(
            rt,
            "passed over",
            i128::from(passes_over(line)),
            i128::from(*passed),
        );
    }
}

#[test]
fn a_text_is_lines_of_words(rt: HostRuntime) {
    assert_lines(
        &rt,
        &[
            (b"  open 31 \n\n# last", b"  open 31 ", b"\n# last"),
            (b"\n# last", b"", b"# last"),
            (b"# last", b"# last", b""),
        ],
    );
    assert_words(
        &rt,
        &[
            (
                b"  open 31 ",
                (b"open", b" 31 "),
                (b"open", b"31"),
                b"",
                false,
            ),
            (b" idle ", (b"idle", b" "), (b"", b""), b"idle", false),
            (b"# last", (b"#", b" last"), (b"#", b"last"), b"", true),
            (b" # last", (b"#", b" last"), (b"#", b"last"), b"", false),
            (b"   ", (b"", b""), (b"", b""), b"", true),
            (b"a b c", (b"a", b" b c"), (b"", b""), b"", false),
        ],
    );
    assert_number(&rt, "the word", i128::from(is_word(b"open", b"open")), 1);
    assert_number(
        &rt,
        "another word",
        i128::from(is_word(b"open", b"opens")),
        0,
    );
}

// Each word as a number, as one of 1..4096, as a long one of 1..10000, and as any long one; -1 if it is none.
fn assert_numbers(rt: &impl Abort, cases: &[(&[u8], i128, i128, i128, i128)]) {
    for (word, any, small, bounded, long) in cases {
        assert_number(rt, "a number", long_or_none(number(word)), *any);
        assert_number(
            rt,
            "a number between",
            number_or_none(number_between(1, 4096, word)),
            *small,
        );
        assert_number(
            rt,
            "a long number between",
            long_or_none(long_number_between(1, 10000, word)),
            *bounded,
        );
        assert_number(
            rt,
            "a long number",
            long_or_none(long_number_between(0, u64::MAX, word)),
            *long,
        );
    }
}

// Each word as a type, and as a rate.
fn assert_sounds(rt: &impl Abort, cases: &[(&[u8], Option<SampleType>, i128)]) {
    for (word, ty, rate) in cases {
        assert_number(rt, "a type", i128::from(sample_type(word) == *ty), 1);
        assert_number(rt, "a rate", number_or_none(listed_rate(word)), *rate);
    }
}

#[test]
fn words_are_numbers_types_and_rates(rt: HostRuntime) {
    assert_numbers(
        &rt,
        &[
            (b"", -1, -1, -1, -1),
            (b"4x", -1, -1, -1, -1),
            (b"0", 0, -1, -1, 0),
            (b"1", 1, 1, 1, 1),
            (b"4096", 4096, 4096, 4096, 4096),
            (b"4097", 4097, -1, 4097, 4097),
            (b"10001", 10001, -1, -1, 10001),
            // 10 digits, and 11
            (b"0000000042", 42, 42, 42, 42),
            (b"00000000042", -1, -1, 42, 42),
            // 20 digits, and 21
            (b"00000000000000010000", -1, -1, 10000, 10000),
            (b"000000000000000000001", -1, -1, -1, -1),
            (b"18446744073709551615", -1, -1, -1, 18446744073709551615),
            (b"18446744073709551616", -1, -1, -1, -1),
        ],
    );
    assert_sounds(
        &rt,
        &[
            (b"mu255", Some(SampleType::Mu255), -1),
            (b"alaw", Some(SampleType::Alaw), -1),
            (b"lin16", Some(SampleType::Lin16), -1),
            (b"lin32", Some(SampleType::Lin32), -1),
            (b"ulaw", None, -1),
            (b"44100", None, 44100),
            (b"44000", None, -1),
        ],
    );
}
