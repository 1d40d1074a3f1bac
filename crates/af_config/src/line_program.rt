// What a phone line of a configuration states: the program that is the exchange of a telephone line.
ghost use Rattle.std.specs.Prelude.{◌≡◌, map, option_map};
ghost use Rattle.std.specs.Str.{IsUtf8};
ghost use Rattle.af_text.specs.Lines.{words};
ghost use Rattle.af_config.specs.Stating.{is_phone_line, line_program_of, line_program_with, has_program};
ghost use Rattle.af_config.specs.Kept.{owned_program};

use crate::command_line::{LONGEST_WORD, command_line_stated};
use af_limits::MOST_DEVICES;
use af_process::CommandLine;
use af_text::{is_word, next_word, number_between};
use af_world::MOST_CARD_RESTARTS;

/// Devices are numbered from 0 to this.
const LAST_DEVICE: u32 = MOST_DEVICES as u32 - 1;

/// The program that is the exchange of a telephone line.
#[derive(Drop)]
pub struct OwnedLineProgram {
    /// The device that has the line.
    pub device: u8,
    /// How often the program may be started again.
    pub restarts: u32,
    pub words: CommandLine,
}

/// Whether a line begins with the word `phone`.
pub(crate) fn is_phone_line(line: &[u8]) -> bool
    ensures { result ≡ is_phone_line (words line.now) }
{
    match next_word(line) {
        Some((name, _)) => is_word(name, b"phone"),
        None => false,
    }
}

/// The program that a line of text states.
pub(crate) fn line_program_stated(line: &[u8]) -> Option<OwnedLineProgram>
    requires { IsUtf8 line.now }
    ensures { option_map owned_program result ≡ line_program_of (words line.now) }
{
    let (name, arguments) = next_word(line)?;
    if is_word(name, b"phone") {
        program_stated(arguments)
    } else {
        None
    }
}

/// `DEVICE RESTARTS WORD ..`, after `phone`.
fn program_stated(arguments: &[u8]) -> Option<OwnedLineProgram>
    requires { IsUtf8 arguments.now }
    ensures { option_map owned_program result ≡ line_program_with (words arguments.now) }
{
    let (device, rest) = next_word(arguments)?;
    let device = number_between(0, LAST_DEVICE, device)?;
    let (restarts, rest) = next_word(rest)?;
    let restarts = number_between(0, MOST_CARD_RESTARTS, restarts)?;
    let words = command_line_stated(rest, LONGEST_WORD)?;
    Some(OwnedLineProgram {
        device: device as u8,
        restarts,
        words,
    })
}

/// Whether one of these programs is of this device.
pub(crate) fn has_program(programs: &[OwnedLineProgram], device: u8) -> bool
    ensures { result ≡ has_program (map owned_program programs.now) device }
{
    for program in programs {
        if program.device == device {
            return true;
        }
    }
    false
}
