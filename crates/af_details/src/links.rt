// What went wrong between a tool and its servers.
use crate::asked::{channels_text, type_name};
use crate::dial::Seen;
use crate::talk::Talk;
use af_io::Reason;
use af_request::DeviceInfo;
use af_shown::Shown;

/// The talk in which something was asked that was not answered, or else the last one.
pub fn waiting(seen: &Seen) -> Option<&Talk> {
    match (&seen.first, &seen.second) {
        (Some(first), Some(second)) => Some(if first.waits { first } else { second }),
        (Some(first), None) => Some(first),
        (None, _) => None,
    }
}

/// Tells why a server was not reached.
pub fn tell_dial(rt: &impl Eprint, seen: &Seen) {
    let address = Shown::new(seen.address.as_str().as_bytes());
    if !seen.address.as_str().contains(":") {
        let _ = eprintln!(rt;
            "af: {address} has no port; an address is HOST:PORT, such as 127.0.0.1:1701"
        );
    } else if let Some(reason) = seen.reason {
        let _ = eprintln!(rt; "af: {address}: {reason}");
    }
}

/// Tells why a link has failed, or that it ended.
pub fn tell_link(rt: &impl Eprint, seen: &Seen) {
    let Some(talk) = waiting(seen) else {
        return;
    };
    if talk.silent {
        tell_silence(rt, talk);
        return;
    }
    let address = talk.shown_address();
    match talk.reason {
        Some(reason) => {
            let _ = eprintln!(rt; "af: {address}: {reason}");
        }
        None => {
            let _ = eprintln!(rt; "af: {address} closed the connection");
        }
    }
    if talk.heard {
        tell_asked(rt, talk);
    } else {
        let _ = eprintln!(rt; "af: it did so at once, as a server does that has 32 clients");
    }
}

// Tells that a setup was not answered in time.
fn tell_silence(rt: &impl Eprint, talk: &Talk) {
    let address = talk.shown_address();
    if talk.heard {
        let _ = eprintln!(rt;
            "af: the setup was not answered whole by {address} in 10 seconds, so it may be no AudioFile server"
        );
    } else {
        let _ = eprintln!(rt;
            "af: nothing came from {address} in 10 seconds, so it may be no AudioFile server"
        );
    }
}

/// Tells what a server was asked last.
pub fn tell_asked(rt: &impl Eprint, talk: &Talk) {
    let address = talk.shown_address();
    if let Some(asked) = talk.asked {
        let _ = eprintln!(rt; "af: {address} was asked {asked}");
    }
}

/// Tells what a server refused, and why.
pub fn tell_refusal(rt: &impl Eprint, seen: &Seen, code: u8) {
    let why = refusal(code);
    let _ = eprintln!(rt; "af: {why}");
    if let Some(talk) = waiting(seen) {
        tell_asked(rt, talk);
    }
}

// The name of a refusal, and what it says.
fn refusal<'a>(code: u8) -> &'a str {
    match code {
        1 => "bad setup: the server speaks another protocol, or another version",
        2 => "bad value: a field is outside its range",
        3 => "bad device: the server has no such device",
        4 => "bad context: the connection has no such context",
        5 => "bad ID choice: the number of the context is in use",
        6 => "bad match: the channels are not those of the device",
        7 => "too many contexts: the connection has sixteen",
        8 => "bad line: the device has no telephone line, or a dead one",
        _ => "the server's reason is not known here",
    }
}

/// Tells that what came is no answer.
pub fn tell_bad_reply(rt: &impl Eprint, seen: &Seen) {
    let Some(talk) = waiting(seen) else {
        return;
    };
    let address = talk.shown_address();
    let _ = eprintln!(rt; "af: {address} does not answer as an AudioFile server does: is it one?");
    tell_asked(rt, talk);
}

/// Tells which devices a server has, if it has not the one that was asked for.
pub fn tell_no_device(rt: &impl Eprint, talk: &Talk, device: u8) {
    let address = talk.shown_address();
    let _ = eprintln!(rt; "af: {address} has no device {device}; its devices are:");
    tell_devices(rt, talk);
}

/// Tells which devices of a server have a telephone line, if the one that was asked for has none.
pub fn tell_no_line(rt: &impl Eprint, talk: &Talk, device: u8) {
    let address = talk.shown_address();
    let _ = eprintln!(rt;
        "af: device {device} of {address} has no telephone line; the devices there are:"
    );
    tell_devices(rt, talk);
}

/// Tells which devices a server has, if none of them has a telephone line.
pub fn tell_no_lines(rt: &impl Eprint, talk: &Talk) {
    let address = talk.shown_address();
    let _ = eprintln!(rt;
        "af: no device of {address} has a telephone line; the devices there are:"
    );
    tell_devices(rt, talk);
}

fn tell_devices(rt: &impl Eprint, talk: &Talk) {
    for (number, info) in talk.devices.as_slice().iter().enumerate() {
        tell_device(rt, number, info);
    }
}

fn tell_device(rt: &impl Eprint, number: usize, info: &DeviceInfo) {
    let ty = type_name(info.ty);
    let rate = info.rate;
    let channels = channels_text(info.channels);
    let line = if info.line { ", a telephone line" } else { "" };
    let _ = eprintln!(rt; "af:   device {number}: {ty}, {rate} frames a second, {channels}{line}");
}

/// Tells why a write to standard output has failed, if one did.
pub fn tell_output(rt: &impl Eprint, reason: Option<Reason>) {
    tell_stream(rt, "standard output", reason);
}

/// Tells why a read of standard input, or a write to standard output, has failed.
pub fn tell_stream(rt: &impl Eprint, stream: &str, reason: Option<Reason>) {
    if let Some(reason) = reason {
        let _ = eprintln!(rt; "af: {stream}: {reason}");
    }
}
