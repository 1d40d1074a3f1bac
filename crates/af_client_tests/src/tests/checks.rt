// What the tests share: bytes that hexadecimal digits state, words, and a check with a name for the message.
use af_io::Args;
use std::alloc::Global;
use std::process::Abort;
use std::test::Fail;

// The reply to the setup of a server with one device of 16-bit samples at 8000 frames a second.
pub const SETUP_REPLY: &str = "01000000 00000005 00010000 00000001 02010000 00001f40 00007d00";

// The same for a server whose device has two channels.
pub const STEREO_REPLY: &str = "01000000 00000005 00010000 00000001 02020000 00001f40 00007d00";

// The bytes that hexadecimal digits state. Blanks count for nothing.
pub fn bytes_of(alloc: Global, text: &str) -> Result<Vec<u8>, Fail> {
    let mut bytes = Vec::new(alloc);
    let mut high = None;
    for c in text.chars() {
        let Some(digit) = c.to_digit(16) else {
            continue;
        };
        let digit = u8::try_from(digit)?;
        match high.take() {
            None => high = Some(digit),
            Some(upper) => bytes.push(16u8.wrapping_mul(upper) | digit)?,
        }
    }
    Ok(bytes)
}

// A command line of these words.
pub fn words_of(alloc: Global, words: &[&str]) -> Result<Args, Fail> {
    let mut args = Args::new(alloc);
    for word in words {
        args.push(word)?;
    }
    Ok(args)
}

pub fn same_bytes(rt: &impl Abort, what: &str, found: &[u8], wanted: &[u8]) {
    assert_eq!(rt; found, wanted, "{what}");
}

// Compares two values, and does not print them: that would be dear to prove.
pub fn holds(rt: &impl Abort, what: &str, true_of_it: bool) {
    assert!(rt; true_of_it, "{what}");
}
