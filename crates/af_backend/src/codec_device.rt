// The codec of a world, which takes the sound of one device.
ghost use Rattle.std.specs.Prelude.{◌≡◌, ◌<◌, length, [], if◌then◌else◌};
ghost use Rattle.af_process.specs.Acts.{words_of};
ghost use Rattle.af_codec.specs.Codec.{TellsThese};
ghost use Rattle.af_backend.specs.CodecUse.{begun_codec, codec_allows, codec_with, CodecTakes, may_set, with_orders};

use af_codec::Codec;
use af_config::{LONGEST_CODEC_WORD, MOST_RESTARTS, is_command_line};
use af_io::Put;
use af_process::{Spawner, Words};
use af_world::Kind;
use std::alloc::Global;
use std::marker::Model;

/// How far a codec is.
#[derive(Clone, Copy, PartialEq, Eq)]
pub enum CodecStage {
    /// It waits for the command line of its child programs.
    Unset,
    /// It takes sound.
    Takes,
    /// An emit has failed, and none is made any more.
    Dead,
}

/// A codec with the device whose sound it takes, if there is one.
#[derive(Drop)]
pub struct CodecDevice<S: Spawner + Drop> {
    codec: Codec<S>,
    stage: CodecStage,
}

impl<S: Spawner + Drop> Model for CodecDevice<S> {
    ghost use Rattle.af_backend.specs.CodecUse.{CodecUse, IsInStage};

    ghost Value = { CodecUse };

    ghost view = { λ a. record {
      orders = a.codec.orders;
      feeding = a.codec.feeding;
      emitted = a.codec.emitted;
      acts = S.acts a.codec.spawner;
      stage = a.stage;
    } };

    ghost invariant = { λ a. IsInStage a.stage a.codec.orders a.codec.feeding a.codec.emitted };
}

impl<S: Spawner + Drop> CodecDevice<S> {
    /// A codec that waits for its command line, over a spawner with no acts so far.
    pub fn new(alloc: Global, spawner: S) -> CodecDevice<S>
        requires { TellsThese [] (S.acts spawner) }
        ensures { result ≡ begun_codec (S.acts spawner) }
    {
        CodecDevice {
            codec: Codec::new(alloc, spawner),
            stage: CodecStage::Unset,
        }
    }

    /// The codec.
    pub fn codec(&self) -> &Codec<S>
        ensures orders { result.now.orders ≡ self.now.orders }
        ensures feeding { result.now.feeding ≡ self.now.feeding }
        ensures acts { S.acts result.now.spawner ≡ self.now.acts }
    {
        &self.codec
    }

    /// Gives it its orders, if they are the first and in their ranges. The answer is whether they are.
    fn set(&mut self, restarts: u32, words: &Words) -> bool
        ensures answer { result ≡ may_set self.old.stage restarts (words_of words.now) }
        ensures set { self.new ≡ (if result then with_orders self.old restarts (words_of words.now) else self.old) }
    {
        if self.stage != CodecStage::Unset
            || restarts > MOST_RESTARTS
            || !is_command_line(words, LONGEST_CODEC_WORD)
        {
            return false;
        }
        self.codec.set(restarts, words);
        self.stage = CodecStage::Takes;
        true
    }

    /// Gives it the orders of a device that is to be attached, if that has some. The answer is whether it can be attached.
    pub fn prepare(&mut self, kind: Kind<'_>) -> bool
        ensures answer { result ≡ codec_allows self.old kind.entry }
        ensures set { self.new ≡ (if result then codec_with kind.entry self.old else self.old) }
    {
        match kind {
            Kind::Silent => true,
            Kind::Files { .. } => true,
            Kind::Loop => true,
            Kind::Card { .. } => true,
            Kind::Codec { restarts, words } => self.set(restarts, words),
        }
    }

    /// Hands it sound, where it takes some.
    pub fn emit(&mut self, sound: &[u8]) -> Put
        requires { 0 < length sound.now }
        ensures { CodecTakes result sound.now self.old self.new }
    {
        if self.stage != CodecStage::Takes {
            return Put::Failed;
        }
        let put = self.codec.emit(sound);
        if put == Put::Failed {
            self.stage = CodecStage::Dead;
        }
        put
    }
}
