// A text is read as a configuration, line by line.
ghost use Rattle.std.specs.Prelude.{◌≡◌, ◌≤◌, ◌⊎◌, ℕ, [], length, All, IfOk, IfErr, IsTrue};
ghost use Rattle.std.specs.Str.{is_utf8};
ghost use Rattle.af_limits.specs.Limits.{most_devices, longest_config};
ghost use Rattle.af_sample.specs.Channels.{IsChannelCount};
ghost use Rattle.af_sample.specs.Rates.{IsListedRate};
ghost use Rattle.af_text.specs.Words.{then_some};
ghost use Rattle.af_world.specs.Outside.{spec_has_line};
ghost use Rattle.af_config.specs.Configuration.{config_of, IsConfigFault};
ghost use Rattle.af_config.specs.Reading.{with_device_line, with_phone_line, IsSound};

use crate::device::{device_stated, is_text};
use crate::line_program::{is_phone_line, line_program_stated};
use crate::{ConfigFault, Setting};
use af_limits::MOST_DEVICES;
use af_text::{LineFault, LineParser, passes_over, read_lines};
use af_time::OutOfMemory;
use std::alloc::Global;

/// Reads the configuration that a text is. If the text is none, the fault has the number of its first line that may not
/// stand where it stands; OutOfMemory can come in the place of any answer. The text has at most 65536 bytes.
pub fn read_config(alloc: Global, text: &[u8]) -> Result<Setting, ConfigFault>
    requires { length text.now ≤ longest_config }
    ensures setting { IfOk result (λ s. config_of text.now ≡ Ok s) }
    ensures fault { IfErr result (λ e. IsConfigFault text.now e) }
    ensures found { (n : ℕ) → config_of text.now ≡ Err n →
        (result ≡ Err (ConfigFault.Line n)) ⊎ (result ≡ Err ConfigFault.OutOfMemory) }
    ensures devices { IfOk result (λ s. (1 ≤ length s.config) × (length s.config ≤ most_devices)) }
    ensures kinds { IfOk result (λ s. length s.kinds ≡ length s.config) }
    ensures rates { IfOk result (λ s. All (λ device. IsListedRate device.rate) s.config) }
    ensures channels { IfOk result (λ s. All (λ device. IsChannelCount device.channels) s.config) }
    ensures phones { IfOk result (λ s. length s.phones ≤ most_devices) }
    ensures lines { IfOk result (λ s. All (λ program. IsTrue (spec_has_line s.config program.device)) s.phones) }
{
    let mut setting = Setting::new(alloc);
    match read_lines(alloc, text, &mut setting) {
        Ok(()) => Ok(setting),
        Err(LineFault::Line(line)) => Err(ConfigFault::Line(line)),
        Err(LineFault::OutOfMemory) => Err(ConfigFault::OutOfMemory),
    }
}

impl LineParser for Setting {
    ghost use Rattle.af_config.specs.Reading.{with_config_line, lacks_configured, IsSound};

    ghost with_line = { with_config_line };

    ghost wants = { lacks_configured };

    ghost keeps = { IsSound };

    fn add_line(&mut self, alloc: Global, line: &[u8]) -> Result<bool, OutOfMemory> {
        if !is_text(line) {
            return Ok(false);
        }
        if passes_over(line) {
            return Ok(true);
        }
        if self.has_programs() || is_phone_line(line) {
            return add_phone_line(self, line);
        }
        add_device_line(self, alloc, line)
    }

    fn is_wanting(&self) -> bool {
        self.config().is_empty()
    }
}

/// Adds the device that a line of text states, and says whether the line was allowed there.
fn add_device_line(setting: &mut Setting, alloc: Global, line: &[u8]) -> Result<bool, OutOfMemory>
    requires { IsTrue (is_utf8 line.now) }
    ensures value { IfOk result (λ allowed. with_device_line setting.old line.now ≡ then_some allowed setting.new) }
    ensures kept { IsSound setting.old → setting.old.phones ≡ [] → IfOk result (λ _. IsSound setting.new) }
{
    if setting.config().len() >= MOST_DEVICES {
        return Ok(false);
    }
    match device_stated(alloc, line)? {
        Some(device) => {
            if setting.has_codec() && device.kind.is_codec() {
                return Ok(false);
            }
            setting.add_device(device)?;
            Ok(true)
        }
        None => Ok(false),
    }
}

/// Adds the program that a line of text states, and says whether the line was allowed there.
fn add_phone_line(setting: &mut Setting, line: &[u8]) -> Result<bool, OutOfMemory>
    requires { IsTrue (is_utf8 line.now) }
    ensures value { IfOk result (λ allowed. with_phone_line setting.old line.now ≡ then_some allowed setting.new) }
    ensures kept { IsSound setting.old → IfOk result (λ _. IsSound setting.new) }
{
    match line_program_stated(line) {
        Some(program) => {
            if !setting.has_free_line(program.device) {
                return Ok(false);
            }
            setting.add_program(program)?;
            Ok(true)
        }
        None => Ok(false),
    }
}
