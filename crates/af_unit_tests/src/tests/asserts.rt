// What the tests compare, with a helper for each type: a comparison that stands in a test is proved again there.
use std::process::Abort;

pub fn assert_number(rt: &impl Abort, what: &str, found: i128, wanted: i128) {
    assert_eq!(rt; found, wanted, "{what}");
}

pub fn assert_samples(rt: &impl Abort, what: &str, found: &[i16], wanted: &[i16]) {
    assert_eq!(rt; found, wanted, "{what}");
}

pub fn assert_bytes(rt: &impl Abort, what: &str, found: &[u8], wanted: &[u8]) {
    assert_eq!(rt; found, wanted, "{what}");
}

/// The number, or -1 where there is none.
pub fn number_or_none(number: Option<u32>) -> i128 {
    match number {
        Some(n) => i128::from(n),
        None => -1,
    }
}

/// The number, or -1 where there is none.
pub fn long_or_none(number: Option<u64>) -> i128 {
    match number {
        Some(n) => i128::from(n),
        None => -1,
    }
}
