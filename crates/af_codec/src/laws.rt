//! Laws of what child programs are fed, each the contract of a function that does nothing.
ghost use Rattle.std.specs.Prelude.{◌≡◌, ◌≤◌, ◌+◌, List};
ghost use Rattle.af_codec.specs.Fed.{Emit, OrdersState, acts_of, fed_runs, fed_after, feeding_start, sounds_of};
ghost use Rattle.af_codec.specs.Runs.{ArePartsInOrder, FeedsOnce, runs_told};

/// The runs are contiguous parts of all sounds, in their order, and no sound is in two of them.
pub fn no_sound_is_in_two_runs()
    ensures { (orders : OrdersState) (emits : List Emit) →
        ArePartsInOrder (fed_runs orders feeding_start emits) (sounds_of emits) }
{}

/// The starts never pass one and the restarts.
pub fn no_start_beyond_the_restarts()
    ensures { (orders : OrdersState) (emits : List Emit) → (fed_after orders feeding_start emits).starts ≤ orders.restarts + 1 }
{}

/// The pieces that each child is given are its run. The last of them may have been given only in part.
pub fn each_child_is_given_its_run()
    ensures runs { (orders : OrdersState) (emits : List Emit) →
        runs_told (acts_of orders feeding_start emits) ≡ fed_runs orders feeding_start emits }
    ensures once { (orders : OrdersState) (emits : List Emit) → FeedsOnce orders.restarts (acts_of orders feeding_start emits) }
{}
