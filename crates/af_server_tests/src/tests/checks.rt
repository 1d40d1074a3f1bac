// What the tests share: an assertion for each type, so that the prover meets each once.
use std::process::Abort;

pub fn holds(rt: &impl Abort, what: &str, so: bool) {
    assert!(rt; so, "{what}");
}

pub fn same_bytes(rt: &impl Abort, what: &str, found: &[u8], wanted: &[u8]) {
    assert_eq!(rt; found, wanted, "{what}");
}

pub fn same_text(rt: &impl Abort, what: &str, found: &str, wanted: &str) {
    assert_eq!(rt; found, wanted, "{what}");
}
