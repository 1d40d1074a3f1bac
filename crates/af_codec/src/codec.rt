// The codec of a device: it gives the sound to child programs of a spawner.
ghost use Rattle.std.specs.Prelude.{◌≡◌, ◌≤◌, ◌<◌, ◌+◌, true, false, [], length, IfSome};
ghost use Rattle.std.specs.declared.option.Option.TheVariants.{Some};
ghost use Rattle.arrayvec.specs.ArrayVec.{array_vec_len};
ghost use Rattle.af_io.specs.Observed.{FaultCounted};
ghost use Rattle.af_process.specs.Acts.{words_of};
ghost use Rattle.af_codec.specs.Fed.{feeding_start};
ghost use Rattle.af_codec.specs.Codec.{TellsThese, Feeds, IsFed};
ghost use Rattle.af_codec.specs.Runs.{FeedsOnce};

use crate::feeding::Feeding;
use crate::orders::Orders;
use af_io::Put;
use af_process::{Spawner, Words};
use std::alloc::Global;
use std::marker::Model;

/// Gives sound to a child program, which is started for the first sound. A child that does not take a sound whole is finished,
/// and the next sound starts another, as often as was ordered; no sound is given twice.
#[derive(Drop)]
pub struct Codec<S: Spawner + Drop> {
    alloc: Global,
    spawner: S,
    orders: Orders,
    feeding: Feeding,
    emitted: bool,
}

impl<S: Spawner + Drop> Model for Codec<S> {
    ghost use Rattle.af_codec.specs.Codec.{CodecState, IsFed};

    ghost Value = { CodecState S };

    ghost view = { λ a. record { spawner = a.spawner; orders = a.orders; feeding = a.feeding; emitted = a.emitted } };

    ghost invariant = { λ a. IsFed a.orders a.feeding a.emitted (S.acts a.spawner) };
}

impl<S: Spawner + Drop> Codec<S> {
    /// A codec that was given no orders, over a spawner that tells of no act.
    pub fn new(alloc: Global, spawner: S) -> Codec<S>
        requires { TellsThese [] (S.acts spawner) }
        ensures { result
            ≡ record {
              spawner = spawner;
              orders = record { restarts = 0; words = [] };
              feeding = feeding_start;
              emitted = false;
            } }
    {
        Codec {
            alloc,
            spawner,
            orders: Orders::none(),
            feeding: Feeding::new(),
            emitted: false,
        }
    }

    /// Orders these words for each child, and so many starts beyond the first.
    pub fn set(&mut self, restarts: u32, words: &Words)
        requires before { self.old.emitted ≡ false }
        requires restarts { restarts ≤ 100 }
        requires some { 1 ≤ array_vec_len words.now }
        ensures { self.new ≡ record self.old { orders = record { restarts = restarts; words = words_of words.now } } }
    {
        self.orders = Orders::new(restarts, words);
    }

    /// Gives a sound to a child. Failed says that this needed a start beyond those that were ordered, or the last child failed.
    pub fn emit(&mut self, sound: &[u8]) -> Put
        requires set { 1 ≤ length self.old.orders.words }
        requires some { 0 < length sound.now }
        requires live { self.old.feeding.failed ≡ false }
        ensures feeds { Feeds self.old.orders self.old.feeding self.new.feeding sound.now (S.acts self.old.spawner)
            (S.acts self.new.spawner) result }
        ensures all { IsFed self.new.orders self.new.feeding true (S.acts self.new.spawner) }
        ensures once { IfSome (S.acts self.new.spawner) (λ acts. FeedsOnce self.new.orders.restarts acts) }
        ensures starts { self.new.feeding.starts ≤ self.new.orders.restarts + 1 }
        ensures live { result ≡ Put.Done → self.new.feeding.failed ≡ false }
        ensures count { S.faults self.old.spawner ≤ S.faults self.new.spawner }
        ensures cause { result ≡ Put.Failed → FaultCounted (S.faults self.old.spawner) (S.faults self.new.spawner) }
        ensures rest { self.new ≡ record self.old { spawner = self.new.spawner; feeding = self.new.feeding; emitted = true } }
    {
        self.emitted = true;
        self.spawner.note(sound);
        self.feeding
            .start(&self.orders, self.alloc, &mut self.spawner);
        self.feeding.give(&self.orders, &mut self.spawner, sound);
        self.feeding.answer()
    }

    /// The spawner.
    pub fn spawner(&self) -> &S
        ensures { result.now ≡ self.now.spawner }
    {
        &self.spawner
    }
}
