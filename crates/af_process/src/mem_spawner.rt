// Child programs in memory, whose calls fail as listed.
ghost use Rattle.std.specs.Prelude.{◌≡◌, ◌≢◌, ◌↔◌, ◌⊎◌, ◌≤◌, ◌^◌, ◌-◌, [], ◌∷◌, map, is_some, Contains, IfOk, IfSome};
ghost use Rattle.std.specs.declared.option.Option.TheVariants.{None, Some};
ghost use Rattle.arrayvec.specs.ArrayVec.{array_vec_len};
ghost use Rattle.af_io.specs.Observed.{Appended, CountsOneFault, next_count};
ghost use Rattle.af_process.specs.Acts.{told_of, noted, began, given, finished, began_got, status_of, is_given, words_of, started_after, IsNextChild, RunsWhereTold};
ghost use Rattle.af_process.specs.Memory.{MemStarts, MemGives, MemFinishes};

use crate::{Act, BeganGot, Finished, Spawner, Started, Words, acts};
use af_io::{Calls, Notes, Put, Stated};
use af_time::OutOfMemory;
use std::alloc::Global;
use std::marker::Model;

/// Numbers its children, keeps every act, and does nothing else. The starts, gives and finishes whose numbers are listed fail,
/// counted together from 0; a give that fails gives nothing. The children end with the statuses that are stated, in the order of
/// their ends, and with 0 past them.
///
/// The number of a call and the counts stand still at 2^64 - 1.
#[derive(Drop)]
pub struct MemSpawner {
    notes: Notes<Act>,
    fails: Vec<u64>,
    calls: Calls,
    statuses: Stated<i32>,
    started: u32,
}

impl Model for MemSpawner {
    ghost use Rattle.std.specs.Prelude.{◌≡◌, IfSome};
    ghost use Rattle.af_process.specs.Acts.{children_in, told_acts};
    ghost use Rattle.af_process.specs.Memory.{MemSpawnerState};

    ghost Value = { MemSpawnerState };

    ghost view = { λ a. record {
      acts = told_acts a.notes;
      fails = a.fails.items;
      statuses = a.statuses.answers.items;
      calls = a.calls.number;
      faults = a.calls.faults;
      started = a.started;
      ended = a.statuses.number;
    } };

    ghost invariant = { λ a. IfSome (told_acts a.notes) (λ acts. a.started ≡ children_in acts) };
}

impl MemSpawner {
    /// A spawner that has done nothing. The starts, gives and finishes with these numbers, from 0, fail, and the children end
    /// with these statuses.
    pub fn new(alloc: Global, fails: &[u64], statuses: &[i32]) -> Result<MemSpawner, OutOfMemory>
        ensures { IfOk result
            (λ spawner. spawner
            ≡ record {
              acts = Some [];
              fails = fails.now;
              statuses = statuses.now;
              calls = 0;
              faults = 0;
              started = 0;
              ended = 0;
            }) }
    {
        Ok(MemSpawner {
            notes: Notes::new(alloc),
            fails: Vec::from_slice(alloc, fails)?,
            calls: Calls::new(),
            statuses: Stated::new(alloc, statuses)?,
            started: 0,
        })
    }

    /// All acts so far, in order, if they are observed.
    pub fn acts(&self) -> &[Act]
        ensures { IfSome self.now.acts (λ acts. acts ≡ map told_of result.now) }
    {
        self.notes.entries()
    }

    /// Whether the acts are observed: always, but after memory ran out for one.
    pub fn tells(&self) -> bool
        ensures { result ≡ is_some self.now.acts }
    {
        self.notes.tells()
    }
}

impl Spawner for MemSpawner {
    ghost acts = { λ spawner. spawner.acts };

    ghost started = { λ spawner. spawner.started };

    ghost faults = { λ spawner. spawner.faults };

    ghost notes = { λ before _ after. after ≡ record before { acts = after.acts } };

    ghost starts = { λ before _ answer after. MemStarts before answer after };

    ghost gives = { λ before _ _ answer after. MemGives before answer after };

    ghost finishes = { λ before _ answer after. MemFinishes before answer after };

    fn note(&mut self, sound: &[u8])
        ensures acts { Appended self.old.acts (noted sound.now ∷ []) self.new.acts }
        ensures step { self.new ≡ record self.old { acts = self.new.acts } }
    {
        let act = acts::noted(self.notes.allocator(), sound);
        self.notes.add(act);
    }

    fn start(&mut self, alloc: Global, words: &Words) -> Started
        requires { 1 ≤ array_vec_len words.now }
        ensures acts { Appended self.old.acts (began (words_of words.now) (began_got result) ∷ []) self.new.acts }
        ensures next { IsNextChild self.old.acts result }
        ensures step { MemStarts self.old result self.new }
    {
        let number = self.started;
        let is_refused = number == u32::MAX;
        if self.calls.next_fails_or(self.fails.as_slice(), is_refused) {
            self.notes.add(Ok(acts::began(words, BeganGot::Failed)));
            return Started::Failed;
        }
        self.started = number + 1;
        self.notes
            .add(Ok(acts::began(words, BeganGot::Child(number))));
        Started::Child(number)
    }

    fn give(&mut self, child: u32, bytes: &[u8]) -> Put
        requires { RunsWhereTold child self.old.acts }
        ensures acts { Appended self.old.acts (given child bytes.now (is_given result) ∷ []) self.new.acts }
        ensures step { MemGives self.old result self.new }
    {
        let fails = self.calls.next_fails(self.fails.as_slice());
        let act = acts::given(self.notes.allocator(), child, bytes, !fails);
        self.notes.add(act);
        if fails { Put::Failed } else { Put::Done }
    }

    fn finish(&mut self, child: u32) -> Finished
        requires { RunsWhereTold child self.old.acts }
        ensures acts { Appended self.old.acts (finished child (status_of result) ∷ []) self.new.acts }
        ensures step { MemFinishes self.old result self.new }
    {
        if self.calls.next_fails(self.fails.as_slice()) {
            self.notes.add(Ok(Act::Finished {
                child,
                status: None,
            }));
            return Finished::Failed;
        }
        let status = self.statuses.next_answer().unwrap_or(0);
        self.notes.add(Ok(Act::Finished {
            child,
            status: Some(status),
        }));
        Finished::Ended(status)
    }
}
