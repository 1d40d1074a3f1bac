// A log is printed as its transcript, piece by piece.
ghost use Rattle.std.specs.Prelude.{◌≡◌, ◌≤◌, ◌<◌, length, decimal};
ghost use Rattle.hex.specs.Hex.{encode_lower};
ghost use Rattle.af_io.specs.Observed.{CountsFault};
ghost use Rattle.af_io.specs.Flow.{Written};
ghost use Rattle.af_script.specs.Transcript.{transcript, line_for, line_of, head_of, read_line, taken_line, cause_word, hook_word};
ghost use Rattle.af_script.specs.Printing.{Puts};

use af_io::{Put, Sink};
use af_world::{Happening, ReadGot, Why};
use itoa::Buffer;

/// How many bytes are written in hexadecimal at once.
const CHUNK: usize = 1024;

/// The sink has failed.
#[derive(Clone, Copy, Debug, PartialEq, Eq)]
pub(crate) struct Broken;

/// Prints the transcript of a log. Failed comes only where the sink has failed; then a prefix was written.
pub fn print_log<K: Sink>(log: &[Happening], sink: &mut K) -> Put
    ensures written { Written result (K.held sink.old) (transcript log.now) (K.held sink.new) }
    ensures faults { CountsFault (result ≡ Put.Failed) (K.faults sink.old) (K.faults sink.new) }
{
    match print_all(log, sink) {
        Ok(()) => Put::Done,
        Err(Broken) => Put::Failed,
    }
}

/// Prints the lines of these happenings.
fn print_all<K: Sink>(log: &[Happening], sink: &mut K) -> Result<(), Broken>
    ensures { Puts K.held K.faults result sink.old (transcript log.now) sink.new }
{
    for happening in log {
        print_happening(happening, sink)?;
    }
    Ok(())
}

/// Prints the line of a happening, if it has one.
fn print_happening<K: Sink>(happening: &Happening, sink: &mut K) -> Result<(), Broken>
    ensures { Puts K.held K.faults result sink.old (line_for happening.now) sink.new }
{
    match happening {
        Happening::Woke(_) | Happening::Captured { got: Some(_), .. } => Ok(()),
        Happening::Read { link, got } => print_read(*link, got, sink),
        Happening::Wrote {
            link,
            took: None,
            ..
        } => print_word(b"write", *link, b"failed", sink),
        Happening::Wrote {
            link,
            took: Some(bytes),
            ..
        } => print_taken(*link, bytes.as_slice(), sink),
        Happening::Closed { link, why } => print_word(b"closed", *link, cause(*why), sink),
        Happening::Captured {
            device,
            got: None,
            ..
        } => print_word(b"capture", *device, b"failed", sink),
        Happening::Emitted {
            device,
            sound,
            done: true,
        } => print_bytes(b"emit", *device, sound.as_slice(), sink),
        Happening::Emitted {
            device,
            done: false,
            ..
        } => print_word(b"emit", *device, b"failed", sink),
        Happening::Hooked { device, off, done } => print_word(
            b"hook",
            *device,
            hook_word(*off, *done),
            sink,
        ),
    }
}

/// The word for why a link was closed.
fn cause(why: Why) -> &'static [u8]
    ensures value { result.now ≡ cause_word why }
    ensures some { 0 < length result.now }
{
    match why {
        Why::BadSetup => b"setup",
        Why::Malformed => b"malformed",
        Why::Ended => b"ended",
        Why::LinkFault => b"fault",
        Why::Overrun => b"overrun",
    }
}

/// The word for a hook that was to be off, or on, and was done or has failed.
fn hook_word(off: bool, done: bool) -> &'static [u8]
    ensures value { result.now ≡ hook_word off done }
    ensures some { 0 < length result.now }
{
    match (off, done) {
        (_, false) => b"failed",
        (true, true) => b"offhook",
        (false, true) => b"onhook",
    }
}

/// Prints the line of a read of a link, which has one where it failed.
fn print_read<K: Sink>(link: u8, got: &ReadGot, sink: &mut K) -> Result<(), Broken>
    ensures { Puts K.held K.faults result sink.old (read_line link got.now) sink.new }
{
    match got {
        ReadGot::Given(_) | ReadGot::NotYet | ReadGot::Ended => Ok(()),
        ReadGot::Failed => print_word(b"read", link, b"failed", sink),
    }
}

/// Prints the line of a link that took these bytes, if they are some.
fn print_taken<K: Sink>(link: u8, bytes: &[u8], sink: &mut K) -> Result<(), Broken>
    ensures { Puts K.held K.faults result sink.old (taken_line link bytes.now) sink.new }
{
    match bytes {
        [] => Ok(()),
        _ => print_bytes(b"link", link, bytes, sink),
    }
}

/// Prints a line of a name, a number and a word.
fn print_word<K: Sink>(name: &[u8], number: u8, word: &[u8], sink: &mut K) -> Result<(), Broken>
    requires named { 0 < length name.now }
    requires some { 0 < length word.now }
    ensures { Puts K.held K.faults result sink.old (line_of name.now number word.now) sink.new }
{
    print_head(name, number, sink)?;
    put(word, sink)?;
    put(b"\n", sink)
}

/// Prints a line of a name, a number and bytes in hexadecimal.
fn print_bytes<K: Sink>(name: &[u8], number: u8, bytes: &[u8], sink: &mut K) -> Result<(), Broken>
    requires { 0 < length name.now }
    ensures { Puts K.held K.faults result sink.old (line_of name.now number (encode_lower bytes.now)) sink.new }
{
    print_head(name, number, sink)?;
    print_hex(bytes, sink)?;
    put(b"\n", sink)
}

/// Prints the beginning of a line: its name, and a number between two spaces.
fn print_head<K: Sink>(name: &[u8], number: u8, sink: &mut K) -> Result<(), Broken>
    requires { 0 < length name.now }
    ensures { Puts K.held K.faults result sink.old (head_of name.now number) sink.new }
{
    put(name, sink)?;
    put(b" ", sink)?;
    print_number(number as u128, sink)?;
    put(b" ", sink)
}

/// Prints a number in decimal digits.
pub(crate) fn print_number<K: Sink>(number: u128, sink: &mut K) -> Result<(), Broken>
    ensures { Puts K.held K.faults result sink.old (decimal number) sink.new }
{
    let mut buffer = Buffer::new();
    put(buffer.format(number).as_bytes(), sink)
}

/// Prints bytes in hexadecimal.
fn print_hex<K: Sink>(bytes: &[u8], sink: &mut K) -> Result<(), Broken>
    ensures { Puts K.held K.faults result sink.old (encode_lower bytes.now) sink.new }
{
    let mut rest = bytes;
    while !rest.is_empty() {
        let (chunk, after) = rest.split_at(rest.len().min(CHUNK));
        print_chunk(chunk, sink)?;
        rest = after;
    }
    Ok(())
}

/// Prints a chunk of bytes in hexadecimal.
fn print_chunk<K: Sink>(bytes: &[u8], sink: &mut K) -> Result<(), Broken>
    requires some { 0 < length bytes.now }
    requires bound { length bytes.now ≤ 1024 }
    ensures { Puts K.held K.faults result sink.old (encode_lower bytes.now) sink.new }
{
    let mut text = [0u8; 2 * CHUNK];
    let digits = &mut text[..2 * bytes.len()];
    let _ = hex::encode_to_slice(bytes, digits);
    put(digits, sink)
}

/// Adds a piece to the sink.
pub(crate) fn put<K: Sink>(piece: &[u8], sink: &mut K) -> Result<(), Broken>
    requires { 0 < length piece.now }
    ensures { Puts K.held K.faults result sink.old piece.now sink.new }
{
    match sink.write(piece) {
        Put::Done => Ok(()),
        Put::Failed => Err(Broken),
    }
}
