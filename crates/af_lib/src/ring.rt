// The ring of events that a client has not taken yet. If it is full, the oldest one is lost.
ghost use Rattle.std.specs.Prelude.{◌≡◌, [], drop, slice_get, IfOk};
ghost use Rattle.std.specs.declared.option.Option.TheVariants.{None};
ghost use Rattle.af_lib.specs.Ring.{with_event};

use af_limits::MOST_KEPT_EVENTS;
use af_time::OutOfMemory;
use af_wire::Event;
use circular_buffer::HeapCircularBuffer;
use std::alloc::Global;
use std::marker::Model;

/// At most 64 events, the oldest first, and a count of those that were lost since there was no room. It takes its memory
/// when it is made.
#[derive(Drop)]
pub struct Ring {
    events: HeapCircularBuffer<Event>,
    lost: u64,
}

impl Model for Ring {
    ghost use Rattle.std.specs.Prelude.{◌≡◌};
    ghost use Rattle.af_limits.specs.Limits.{most_kept_events};
    ghost use Rattle.af_lib.specs.Ring.{RingState};

    ghost Value = { RingState };

    ghost view = { λ r. record { events = r.events.items; lost = r.lost } };

    ghost invariant = { λ r. r.events.capacity ≡ most_kept_events };
}

impl Ring {
    pub fn new(alloc: Global) -> Result<Ring, OutOfMemory>
        ensures { IfOk result (λ ring. ring ≡ record { events = []; lost = 0 }) }
    {
        let events = HeapCircularBuffer::with_capacity(alloc, MOST_KEPT_EVENTS)?;
        Ok(Ring { events, lost: 0 })
    }

    /// An event more. If there is no room, the oldest is lost.
    pub fn note(&mut self, event: Event)
        ensures { self.new ≡ with_event event self.old }
    {
        if self.events.len() >= MOST_KEPT_EVENTS {
            self.lost = self.lost.saturating_add(1);
        }
        self.events.push_back(event);
    }

    /// Takes the oldest event.
    #[tactic(auto, using(crate::proofs::EventRingLemmas::none_taken))]
    pub fn take(&mut self) -> Option<Event>
        ensures value { result ≡ slice_get self.old.events 0 }
        ensures rest { self.new ≡ record self.old { events = drop 1 self.old.events } }
        ensures none { result ≡ None → self.new ≡ self.old }
    {
        self.events.pop_front()
    }

    /// How many events were lost.
    pub fn lost(&self) -> u64
        ensures { result ≡ self.now.lost }
    {
        self.lost
    }
}
