//! Laws of telephone lines, each the contract of a function that does nothing.
ghost use Rattle.std.specs.Prelude.{◌≡◌, ◌≢◌, ◌↔◌, true, false, Bool, None, Some, IsTrue};
ghost use Rattle.af_wire.specs.Event.{detail_of};
ghost use Rattle.af_wire.specs.declared.event.EventKind.{EventKind};
ghost use Rattle.af_request.specs.declared.reply.Phone.{Phone};
ghost use Rattle.af_phone.specs.Lines.{line_after_change, line_after_hook, hook_due, selects, with_wanted_hook};
ghost use Rattle.af_phone.specs.declared.line.LineChange.{LineChange};

/// A hook moves once, whatever was wanted before: none is due where the last wish is the hook that the line has, none
/// after a try, and one where a live line is wanted otherwise.
pub fn a_hook_is_given_once()
    ensures back { (line : Phone) (off : Bool) → hook_due (with_wanted_hook line.given_off (with_wanted_hook off line)) ≡ None }
    ensures tried { (line : Phone) (done : Bool) → hook_due (line_after_hook done line) ≡ None }
    ensures other { (line : Phone) (off : Bool) → line.dead ≡ false → off ≢ line.given_off →
        hook_due (with_wanted_hook off line) ≡ Some off }
{}

/// What changes on a line and what is wanted of it revive no dead line and move no hook.
pub fn only_a_try_moves_the_hook()
    ensures changes { (line : Phone) (change : LineChange) →
        ((line_after_change change line).dead ≡ line.dead) × ((line_after_change change line).given_off ≡ line.given_off)
        × (hook_due (line_after_change change line) ≡ hook_due line) }
    ensures wishes { (line : Phone) (off : Bool) →
        ((with_wanted_hook off line).dead ≡ line.dead) × ((with_wanted_hook off line).given_off ≡ line.given_off) }
    ensures dead { (line : Phone) (done : Bool) → line.dead ≡ true → (line_after_hook done line).dead ≡ true }
{}

/// Each kind of event has a bit of its own in a mask, which is the detail of its message.
pub fn each_kind_has_its_bit()
    ensures one { (a b : EventKind) → IsTrue (selects (detail_of a) b) ↔ (a ≡ b) }
    ensures none { (kind : EventKind) → selects 0 kind ≡ false }
    ensures all { (kind : EventKind) → selects 15 kind ≡ true }
{}
