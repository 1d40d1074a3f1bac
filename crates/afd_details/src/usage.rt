// What is wrong with the arguments of the server's program.
use crate::page::{Page, tell_page};
use af_io::Args;
use af_limits::LONGEST_ADDRESS;
use af_shown::Shown;
use af_text::long_number_between;
use std::alloc::Global;

/// The most waits that may be asked for, and the most turns of an exercise.
pub(crate) const MOST_WAITS: u64 = 9223372036854775807;

const MOST_TURNS: u64 = 10000;

/// Says which of the words is wrong, and how the program is used; or, where that is asked for, which version it is.
pub fn tell_usage(rt: &impl Eprint, alloc: Global, words: &Args) {
    match words.word(0) {
        None => {}
        Some("--version") => return tell_page(rt, alloc, Page::Version),
        Some(_) if asks_for_help(words) => {}
        Some("serve") => tell_serve(rt, words),
        Some("exercise") => tell_exercise(rt, words),
        Some("script" | "help" | "version") => tell_excess(rt, words.word(1)),
        Some(name) => {
            let _ = eprintln!(rt;
                "afd: there is no command '{}'",
                Shown::new(name.as_bytes())
            );
        }
    }
    tell_page(rt, alloc, Page::Commands);
}

/// Says that a word is no text.
pub fn tell_not_text(rt: &impl Eprint, alloc: Global) {
    let _ = eprintln!(rt; "afd: a word is not UTF-8");
    tell_page(rt, alloc, Page::Commands);
}

/// Whether a word asks for help.
fn asks_for_help(words: &Args) -> bool {
    for word in words.as_slice() {
        if matches!(word.as_str(), "--help" | "-h") {
            return true;
        }
    }
    false
}

/// What is wrong with `serve ADDRESS WAITS`.
fn tell_serve(rt: &impl Eprint, words: &Args) {
    let Some(address) = words.word(1) else {
        let _ = eprintln!(rt; "afd: ADDRESS is missing");
        return;
    };
    if address.is_empty() {
        let _ = eprintln!(rt; "afd: ADDRESS is empty");
        return;
    }
    if address.len() > LONGEST_ADDRESS {
        let _ = eprintln!(rt; "afd: ADDRESS has more than {LONGEST_ADDRESS} bytes");
        return;
    }
    tell_waits(rt, words.word(2));
    tell_excess(rt, words.word(3));
}

/// What is wrong with `exercise SEED TURNS`.
fn tell_exercise(rt: &impl Eprint, words: &Args) {
    tell_number(rt, "SEED", 0, u64::MAX, words.word(1));
    tell_number(rt, "TURNS", 1, MOST_TURNS, words.word(2));
    tell_excess(rt, words.word(3));
}

/// What is wrong with the number of waits, if something is.
fn tell_waits(rt: &impl Eprint, word: Option<&str>) {
    match word {
        None => {
            let _ = eprintln!(rt; "afd: WAITS is missing: it is forever, or 1 to {MOST_WAITS}");
        }
        Some("forever") => {}
        Some(word) => {
            if long_number_between(1, MOST_WAITS, word.as_bytes()).is_none() {
                let word = Shown::new(word.as_bytes());
                let _ = eprintln!(rt;
                    "afd: '{word}' is no WAITS: it is forever, or 1 to {MOST_WAITS}"
                );
            }
        }
    }
}

/// What is wrong with a number, if something is.
fn tell_number(rt: &impl Eprint, name: &str, low: u64, high: u64, word: Option<&str>) {
    match word {
        None => {
            let _ = eprintln!(rt; "afd: {name} is missing: it is {low} to {high}");
        }
        Some(word) => {
            if long_number_between(low, high, word.as_bytes()).is_none() {
                let word = Shown::new(word.as_bytes());
                let _ = eprintln!(rt; "afd: '{word}' is no {name}: it is {low} to {high}");
            }
        }
    }
}

/// What is wrong if there is a word after the last.
fn tell_excess(rt: &impl Eprint, word: Option<&str>) {
    if let Some(word) = word {
        let word = Shown::new(word.as_bytes());
        let _ = eprintln!(rt; "afd: '{word}' is a word too many");
    }
}
