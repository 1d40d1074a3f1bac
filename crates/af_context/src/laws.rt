//! Laws of a link's contexts, each the contract of a function that does nothing.
ghost use Rattle.std.specs.Prelude.{◌≡◌, ◌≢◌, ◌==◌, ◌++◌, ◌∷◌, [], ℕ, ℤ, Bool, false, if◌then◌else◌, Option, Some, None, List, option_map};
ghost use Rattle.af_context.specs.declared.Context.{Context};
ghost use Rattle.af_context.specs.Contexts.{context_of, is_in_use, with_changed, with_settings, without_context, AreContexts};

/// A request changes what its number means, and what no other number means.
pub fn other_numbers_stay()
    ensures created { (contexts : List Context) (c : Context) (n : ℕ) → is_in_use contexts c.ac ≡ false →
        context_of (contexts ++ c ∷ []) n ≡ (if c.ac == n then Some c else context_of contexts n) }
    ensures changed { (contexts : List Context) (ac n : ℕ) (play record_to : Option ℤ) (preempt : Option Bool) →
        context_of (with_changed contexts ac (with_settings play record_to preempt)) n
        ≡ (if ac == n then option_map (with_settings play record_to preempt) (context_of contexts n)
        else context_of contexts n) }
    ensures freed { (contexts : List Context) (ac n : ℕ) →
        context_of (without_context contexts ac) n ≡ (if ac == n then None else context_of contexts n) }
{}

/// The context that is freed leaves alone, and the others keep their order.
pub fn one_is_freed()
    ensures { (before after : List Context) (c : Context) → AreContexts (before ++ c ∷ after) →
        without_context (before ++ c ∷ after) c.ac ≡ before ++ after }
{}
