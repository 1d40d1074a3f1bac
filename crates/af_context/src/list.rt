// The list of a link's contexts.
ghost use Rattle.std.specs.Prelude.{◌≡◌, ◌==◌, ◌↔◌, ◌<◌, false, true, [], ◌∷◌, ◌++◌, length, Err, IsOk, IsTrue, IsSome, IfSome, OnOk, OnErr, Contains, position};
ghost use Rattle.af_limits.specs.Limits.{most_contexts};
ghost use Rattle.af_context.specs.Contexts.{context_of, creation, is_in_use, reference, with_changed, with_settings, without_context, AreContexts, IsPlaceOf};

use crate::{Context, ContextFault};
use af_limits::MOST_CONTEXTS;
use af_sample::Gain;
use arrayvec::ArrayVec;
use std::marker::Model;

/// The contexts of a link, 16 at most, in order of creation. Clauses see the list of them.
#[derive(Drop)]
pub struct Contexts {
    contexts: ArrayVec<Context, MOST_CONTEXTS>,
}

impl Model for Contexts {
    ghost use Rattle.std.specs.Prelude.{List};
    ghost use Rattle.af_context.specs.declared.Context.{Context};
    ghost use Rattle.af_context.specs.Contexts.{AreContexts};

    ghost Value = { List Context };

    ghost view = { λ c. c.contexts.items };

    ghost invariant = { λ c. AreContexts c.contexts.items };
}

impl Contexts {
    /// No context.
    pub fn new() -> Contexts
        ensures { result ≡ [] }
    {
        Contexts {
            contexts: ArrayVec::new(),
        }
    }

    /// No context any more, as of a link that is opened again.
    pub fn clear(&mut self)
        ensures { self.new ≡ [] }
    {
        self.contexts.clear();
    }

    /// One context more, after the others.
    pub fn create(&mut self, context: Context) -> Result<(), ContextFault>
        ensures answer { result ≡ creation self.old context.ac }
        ensures bad_id_choice { (result ≡ Err ContextFault.BadIdChoice) ↔ IsTrue (is_in_use self.old context.ac) }
        ensures too_many { (result ≡ Err ContextFault.TooMany)
            ↔ ((is_in_use self.old context.ac ≡ false) × (length self.old ≡ most_contexts)) }
        ensures ok { IsOk result ↔ ((is_in_use self.old context.ac ≡ false) × (length self.old < most_contexts)) }
        ensures created { OnOk result (self.new ≡ self.old ++ context ∷ []) }
        ensures refused { OnErr result (self.new ≡ self.old) }
        ensures list { AreContexts self.new }
    {
        if place_of(&self.contexts, context.ac).is_ok() {
            return Err(ContextFault::BadIdChoice);
        }
        if self.contexts.is_full() {
            return Err(ContextFault::TooMany);
        }
        self.contexts.push(context);
        Ok(())
    }

    /// Changes the settings that are stated of the context of a number.
    pub fn change(
        &mut self,
        ac: u32,
        play: Option<Gain>,
        record_to: Option<Gain>,
        preempt: Option<bool>,
    ) -> Result<(), ContextFault>
        ensures answer { result ≡ reference self.old ac }
        ensures bad_ac { (result ≡ Err ContextFault.BadAc) ↔ (is_in_use self.old ac ≡ false) }
        ensures changed { OnOk result (self.new ≡ with_changed self.old ac (with_settings play record_to preempt)) }
        ensures refused { OnErr result (self.new ≡ self.old) }
        ensures list { AreContexts self.new }
    {
        let at = place_of(&self.contexts, ac)?;
        let context = &mut self.contexts[at];
        change_settings(context, play, record_to, preempt);
        Ok(())
    }

    /// The context of a number is no more.
    pub fn free(&mut self, ac: u32) -> Result<(), ContextFault>
        ensures answer { result ≡ reference self.old ac }
        ensures bad_ac { (result ≡ Err ContextFault.BadAc) ↔ (is_in_use self.old ac ≡ false) }
        ensures freed { OnOk result (self.new ≡ without_context self.old ac) }
        ensures refused { OnErr result (self.new ≡ self.old) }
        ensures list { AreContexts self.new }
    {
        let at = place_of(&self.contexts, ac)?;
        self.contexts.remove(at);
        Ok(())
    }

    /// The context of a number. None where the number is not in use.
    pub fn get(&self, ac: u32) -> Option<Context>
        ensures value { result ≡ context_of self.now ac }
        ensures some { IsSome result ↔ IsTrue (is_in_use self.now ac) }
        ensures number { IfSome result (λ c. (c.ac ≡ ac) × Contains self.now c) }
        ensures list { AreContexts self.now }
    {
        match place_of(&self.contexts, ac) {
            Ok(at) => Some(self.contexts[at]),
            Err(_) => None,
        }
    }
}

// The first place whose context has the number.
fn first_place(contexts: &[Context], ac: u32) -> Option<usize>
    ensures { result ≡ position (λ c. c.ac == ac) contexts.now }
{
    contexts.iter().position(|c| c.ac == ac)
}

// The place of the context with a number, or BadAc if the number is not in use.
fn place_of(contexts: &[Context], ac: u32) -> Result<usize, ContextFault>
    ensures { IsPlaceOf contexts.now ac result }
{
    first_place(contexts, ac).ok_or(ContextFault::BadAc)
}

// Changes the settings that are stated.
fn change_settings(
    context: &mut Context,
    play: Option<Gain>,
    record_to: Option<Gain>,
    preempt: Option<bool>,
)
    ensures { context.new ≡ with_settings play record_to preempt context.old }
{
    context.play_gain = play.unwrap_or(context.play_gain);
    context.record_gain = record_to.unwrap_or(context.record_gain);
    context.preempt = preempt.unwrap_or(context.preempt);
}
