// What a server is started with: its devices, the backend of each, and the programs of their telephone lines.
ghost use Rattle.std.specs.Prelude.{◌≡◌, ◌<◌, [], length, map, not, slice_get, Some, IsTrue, nat_eq, OnOk};
ghost use Rattle.af_limits.specs.Limits.{most_devices};
ghost use Rattle.af_text.specs.Lines.{is_nil};
ghost use Rattle.af_world.specs.Kinds.{told_kind};
ghost use Rattle.af_config.specs.Stating.{has_codec, has_free_line};
ghost use Rattle.af_config.specs.Kept.{told_device, owned_program};
ghost use Rattle.af_config.specs.Reading.{with_configured, with_program};

use crate::device::{ConfiguredDevice, OwnedKind};
use crate::line_program::{OwnedLineProgram, has_program};
use af_time::OutOfMemory;
use af_world::{Config, Kind, has_line};
use arrayvec::ArrayVec;
use std::alloc::Global;
use std::marker::Model;

/// The devices of a server, the backend of each, and the programs of their telephone lines.
#[derive(Drop)]
pub struct Setting {
    config: Config,
    kinds: Vec<OwnedKind>,
    phones: Vec<OwnedLineProgram>,
    is_codec_stated: bool,
}

impl Model for Setting {
    ghost use Rattle.std.specs.Prelude.{◌≡◌, length, map};
    ghost use Rattle.af_config.specs.Stating.{Settings, has_codec};
    ghost use Rattle.af_config.specs.Kept.{told_owned_kind, owned_program};

    ghost Value = { Settings };

    ghost view = { λ s. record {
      config = s.config.items;
      kinds = map told_owned_kind s.kinds.items;
      phones = map owned_program s.phones.items;
    } };

    ghost invariant = { λ s. (length s.kinds.items ≡ length s.config.items)
        × (s.is_codec_stated ≡ has_codec (map told_owned_kind s.kinds.items)) };
}

impl Setting {
    /// No devices so far.
    pub(crate) fn new(alloc: Global) -> Setting
        ensures config { result.config ≡ [] }
        ensures kinds { result.kinds ≡ [] }
        ensures phones { result.phones ≡ [] }
    {
        Setting {
            config: ArrayVec::new(),
            kinds: Vec::new(alloc),
            phones: Vec::new(alloc),
            is_codec_stated: false,
        }
    }

    /// Adds a device at the end. There may be 8. If memory runs out, nothing is promised of the setting.
    pub(crate) fn add_device(&mut self, device: ConfiguredDevice) -> Result<(), OutOfMemory>
        requires { length self.old.config < most_devices }
        ensures { OnOk result (self.new ≡ with_configured self.old (told_device device)) }
    {
        let is_codec = device.kind.is_codec();
        self.kinds.push(device.kind)?;
        self.is_codec_stated = self.is_codec_stated || is_codec;
        self.config.push(device.spec);
        Ok(())
    }

    /// Adds a program at the end. Where memory runs out nothing is promised of the setting.
    pub(crate) fn add_program(&mut self, program: OwnedLineProgram) -> Result<(), OutOfMemory>
        ensures { OnOk result (self.new ≡ with_program self.old (owned_program program)) }
    {
        self.phones.push(program)?;
        Ok(())
    }

    /// The devices.
    pub fn config(&self) -> &Config
        ensures config { result.now.items ≡ self.now.config }
        ensures kinds { length self.now.kinds ≡ length self.now.config }
    {
        &self.config
    }

    /// Whether one of the devices has the codec.
    pub(crate) fn has_codec(&self) -> bool
        ensures { result ≡ has_codec self.now.kinds }
    {
        self.is_codec_stated
    }

    /// The programs of the telephone lines, in the order of their lines.
    pub fn line_programs(&self) -> &[OwnedLineProgram]
        ensures { self.now.phones ≡ map owned_program result.now }
    {
        self.phones.as_slice()
    }

    /// Whether one of the telephone lines has a program.
    pub(crate) fn has_programs(&self) -> bool
        ensures { result ≡ not (is_nil self.now.phones) }
    {
        !self.phones.is_empty()
    }

    /// Whether a device has a telephone line that has no program.
    pub(crate) fn has_free_line(&self, device: u8) -> bool
        ensures { result ≡ has_free_line self.now.config self.now.phones device }
    {
        has_line(self.config.as_slice(), device) && !has_program(&self.phones, device)
    }

    /// The backend of a device, which is one of these.
    pub fn kind(&self, device: u8) -> Kind<'_>
        requires { device < length self.now.config }
        ensures { slice_get self.now.kinds device ≡ Some (told_kind result) }
    {
        match &self.kinds[device as usize] {
            OwnedKind::Silent => Kind::Silent,
            OwnedKind::Files { input, output } => Kind::Files {
                input: input.as_str(),
                output: output.as_str(),
            },
            OwnedKind::Loop => Kind::Loop,
            OwnedKind::Codec { restarts, words } => Kind::Codec {
                restarts: *restarts,
                words: words.words(),
            },
            OwnedKind::Card {
                card,
                restarts,
                words,
            } => Kind::Card {
                card: *card,
                restarts: *restarts,
                words: words.words(),
            },
        }
    }
}
