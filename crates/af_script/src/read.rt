// A text is read as a script, line by line.
ghost use Rattle.std.specs.Prelude.{◌≡◌, ◌≤◌, ◌&&◌, ◌⊎◌, ℕ, [], Some, length, All, IfOk, IfErr, option_map, ◌++◌, ◌∷◌, ◌<◌};
ghost use Rattle.af_limits.specs.Limits.{most_devices, longest_script};
ghost use Rattle.af_sample.specs.Rates.{IsListedRate};
ghost use Rattle.af_sample.specs.Channels.{IsChannelCount};
ghost use Rattle.af_world.specs.Outside.{IsStep};
ghost use Rattle.af_script.specs.Lines.{words};
ghost use Rattle.af_script.specs.Script.{script_of, IsScriptFault};
ghost use Rattle.af_script.specs.Words.{then_some};
ghost use Rattle.af_script.specs.Statement.{is_device_kind, device_with, step_of_kind};
ghost use Rattle.af_script.specs.Reading.{with_line, can_take_device};

use crate::statement::{LineKind, device_stated, kind_named, step_stated};
use crate::{ScriptFault, Steps};
use af_limits::MOST_DEVICES;
use af_text::{LineFault, LineParser, next_word, passes_over, read_lines};
use af_time::OutOfMemory;
use af_world::{Config, DeviceSpec, Step};
use arrayvec::ArrayVec;
use std::alloc::Global;
use std::marker::Model;

/// A script: its devices, which are numbered from 0, and its steps, in order.
#[derive(Drop)]
pub struct Script {
    pub config: Config,
    pub steps: Steps,
}

/// Reads the script that a text is. If the text is none, the fault has the number of its first line that is not
/// allowed where it stands; OutOfMemory can come in the place of any answer. The text has at most `LONGEST_SCRIPT` bytes.
pub fn read_script(alloc: Global, text: &[u8]) -> Result<Script, ScriptFault>
    requires { length text.now ≤ longest_script }
    ensures script { IfOk result (λ s. script_of text.now ≡ Ok (record { config = s.config.items; steps = s.steps })) }
    ensures fault { IfErr result (λ e. IsScriptFault text.now e) }
    ensures found { (n : ℕ) → script_of text.now ≡ Err n →
        (result ≡ Err (ScriptFault.Line n)) ⊎ (result ≡ Err ScriptFault.OutOfMemory) }
    ensures devices { IfOk result (λ s. (1 ≤ length s.config.items) × (length s.config.items ≤ most_devices)) }
    ensures rates { IfOk result (λ s. All (λ device. IsListedRate device.rate) s.config.items) }
    ensures channels { IfOk result (λ s. All (λ device. IsChannelCount device.channels) s.config.items) }
    ensures steps { IfOk result (λ s. All (IsStep s.config.items) s.steps) }
{
    let mut draft = Draft {
        config: ArrayVec::new(),
        steps: Vec::new(alloc),
    };
    match read_lines(alloc, text, &mut draft) {
        Ok(()) => Ok(Script {
            config: draft.config,
            steps: Steps::of(draft.steps),
        }),
        Err(LineFault::Line(line)) => Err(ScriptFault::Line(line)),
        Err(LineFault::OutOfMemory) => Err(ScriptFault::OutOfMemory),
    }
}

/// What is read of a script so far.
#[derive(Drop)]
struct Draft {
    config: Config,
    steps: Vec<Step>,
}

impl Model for Draft {
    ghost use Rattle.af_script.specs.Script.{StatedScript};

    ghost Value = { StatedScript };

    ghost view = { λ d. record { config = d.config.items; steps = d.steps.items } };
}

impl LineParser for Draft {
    ghost use Rattle.std.specs.Prelude.{⊤};
    ghost use Rattle.af_script.specs.Reading.{with_line, wants_device};

    ghost with_line = { with_line };

    ghost wants = { wants_device };

    ghost keeps = { λ _. ⊤ };

    fn add_line(&mut self, alloc: Global, line: &[u8]) -> Result<bool, OutOfMemory> {
        add_line(alloc, line, &mut self.config, &mut self.steps)
    }

    fn is_wanting(&self) -> bool {
        self.config.is_empty()
    }
}

/// Adds what a line states, and says whether the line was allowed there.
fn add_line(
    alloc: Global,
    line: &[u8],
    config: &mut Config,
    steps: &mut Vec<Step>,
) -> Result<bool, OutOfMemory>
    ensures { IfOk result (λ allowed. with_line (record { config = config.old.items; steps = steps.old.items }) line.now
        ≡ then_some allowed (record { config = config.new.items; steps = steps.new.items })) }
{
    if passes_over(line) {
        return Ok(true);
    }
    let Some((name, arguments)) = next_word(line) else {
        return Ok(true);
    };
    let Some(kind) = kind_named(name) else {
        return Ok(false);
    };
    if is_further_device(kind, config, steps) {
        return Ok(add_device(arguments, config));
    }
    if config.is_empty() {
        return Ok(false);
    }
    add_step(alloc, config, kind, arguments, steps)
}

/// Whether a line of this kind states a further device.
fn is_further_device(kind: LineKind, config: &Config, steps: &[Step]) -> bool
    ensures { result ≡ (can_take_device (record { config = config.now.items; steps = steps.now }) && is_device_kind (Some kind)) }
{
    kind == LineKind::Device && steps.is_empty() && config.len() < MOST_DEVICES
}

/// Adds the device that the words after `device` state, and says whether they state one.
fn add_device(arguments: &[u8], config: &mut Config) -> bool
    requires { length config.old.items < most_devices }
    ensures { option_map (λ device. config.old.items ++ device ∷ []) (device_with (words arguments.now))
        ≡ then_some result config.new.items }
{
    match device_stated(arguments) {
        Some(device) => {
            config.push(device);
            true
        }
        None => false,
    }
}

/// Adds the step that a line of this kind states by the words after its name, and says whether they state one.
fn add_step(
    alloc: Global,
    config: &[DeviceSpec],
    kind: LineKind,
    arguments: &[u8],
    steps: &mut Vec<Step>,
) -> Result<bool, OutOfMemory>
    requires { length config.now ≤ most_devices }
    ensures { IfOk result (λ allowed. option_map (λ step. steps.old.items ++ step ∷ [])
        (step_of_kind config.now (Some kind) (words arguments.now)) ≡ then_some allowed steps.new.items) }
{
    match step_stated(alloc, config, kind, arguments)? {
        Some(step) => {
            steps.push(step)?;
            Ok(true)
        }
        None => Ok(false),
    }
}
