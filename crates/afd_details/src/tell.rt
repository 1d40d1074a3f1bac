// The lines after that of an end.
use crate::config_line::config_finding;
use crate::finding::Finding;
use crate::script_line::script_finding;
use crate::stated::line_numbered;
use af_io::Reason;
use af_limits::LONGEST_CONFIG;
use af_shown::Shown;
use std::str;

/// Says what is wrong with a line of a configuration, or that it is none.
pub fn tell_config_fault(rt: &impl Eprint, text: &[u8], number: u32) {
    if tell_sound(rt, text) {
        return tell_see_config(rt);
    }
    let (line, before) = line_numbered(text, number);
    match line {
        Some(line) if str::from_utf8(line).is_err() => {
            tell_line(rt, line, None);
            let _ = eprintln!(rt; "afd: the line is not UTF-8");
        }
        Some(line) => tell_line(rt, line, config_finding(line, &before)),
        None => {
            let _ = eprintln!(rt;
                "afd: the configuration has no device: 1 to 8 lines that begin with device were expected"
            );
        }
    }
    tell_see_config(rt);
}

/// Says that a configuration is too long, of which this is the beginning.
pub fn tell_long_config(rt: &impl Eprint, first: &[u8]) {
    if !tell_sound(rt, first) {
        let _ = eprintln!(rt;
            "afd: standard input is to be the configuration, of at most {LONGEST_CONFIG} bytes"
        );
    }
    tell_see_config(rt);
}

fn tell_see_config(rt: &impl Eprint) {
    let _ = eprintln!(rt; "afd: see afd(8), CONFIGURATION");
}

/// Says that standard input is a sound file, if it begins as one.
fn tell_sound(rt: &impl Eprint, text: &[u8]) -> bool {
    let Some(kind) = sound_kind(text) else {
        return false;
    };
    let _ = eprintln!(rt;
        "afd: standard input is {kind}, and is to be the configuration; a tool plays sound: af aplay"
    );
    true
}

/// The kind of sound file that a text begins as, if it does.
fn sound_kind<'a>(text: &[u8]) -> Option<&'a str> {
    match text {
        [b'R', b'I', b'F', b'F', ..] => Some("WAVE"),
        [b'.', b's', b'n', b'd', ..] => Some(".au"),
        [b'I', b'D', b'3', ..] => Some("MP3"),
        [b'f', b'L', b'a', b'C', ..] => Some("FLAC"),
        [b'O', b'g', b'g', b'S', ..] => Some("Ogg"),
        [b'F', b'O', b'R', b'M', ..] => Some("AIFF"),
        _ => None,
    }
}

/// Says what is wrong with a line of a script.
pub fn tell_script_fault(rt: &impl Eprint, text: &[u8], number: u32) {
    let (line, before) = line_numbered(text, number);
    match line {
        Some(line) => tell_line(rt, line, script_finding(line, &before)),
        None => {
            let _ = eprintln!(rt;
                "afd: the script has no device: 1 to 8 lines that begin with device were expected"
            );
        }
    }
    let _ = eprintln!(rt; "afd: see afd-script(5)");
}

/// Says how a line stands there, which of its words is wrong, and whether it has what text of other systems has.
fn tell_line(rt: &impl Eprint, line: &[u8], finding: Option<Finding<'_>>) {
    let _ = eprintln!(rt; "afd: the line is: {}", Shown::new(line));
    if let Some(finding) = finding {
        let _ = eprintln!(rt; "afd: {finding}");
    }
    if line.contains(&b'\r') {
        let _ = eprintln!(rt;
            "afd: \\x0d is a CR: lines end with LF alone, and not with CR and LF"
        );
    }
    if line.contains(&b'\t') {
        let _ = eprintln!(rt; "afd: \\x09 is a tab: words are separated by spaces alone");
    }
}

/// Says why the system refused to read or to write something, if it said why.
pub fn tell_reason(rt: &impl Eprint, what: &str, reason: Option<Reason>) {
    if let Some(reason) = reason {
        let _ = eprintln!(rt; "afd: {what}: {reason}");
    }
}
