//! Laws of headers, each the contract of a function that does nothing.
ghost use Rattle.std.specs.Prelude.{◌≡◌, ◌≤◌, ◌++◌, ℕ, List, [], length, take};
ghost use Rattle.af_sound.specs.declared.head.SoundForm.{SoundForm};
ghost use Rattle.af_sound.specs.declared.head.SoundHead.{SoundHead};
ghost use Rattle.af_sound.specs.declared.head.SoundFault.{SoundFault};
ghost use Rattle.af_sound.specs.declared.head.HeadStep.TheVariants as step;
ghost use Rattle.af_sound.specs.Fronts.{front_of, Front};
ghost use Rattle.af_sound.specs.Heads.{HasFault, IsHead};

/// Bytes that end with a fault are the beginning of no header, and of no bytes that end with another fault.
pub fn a_fault_is_final()
    ensures no_head { (form : SoundForm) (bytes rest : List ℕ) (fault : SoundFault) (head : SoundHead) →
        HasFault form bytes fault → IsHead form (bytes ++ rest) head → ⊥ }
    ensures one { (form : SoundForm) (bytes rest : List ℕ) (fault other : SoundFault) →
        HasFault form bytes fault → HasFault form (bytes ++ rest) other → (rest ≡ []) × (other ≡ fault) }
{}

/// A header is the beginning of no other header, says one thing, and is the beginning of no bytes that end with a fault.
pub fn a_head_is_final()
    ensures one { (form : SoundForm) (bytes rest : List ℕ) (head other : SoundHead) →
        IsHead form bytes head → IsHead form (bytes ++ rest) other → (rest ≡ []) × (other ≡ head) }
    ensures no_fault { (form : SoundForm) (bytes rest : List ℕ) (head : SoundHead) (fault : SoundFault) →
        IsHead form bytes head → HasFault form (bytes ++ rest) fault → ⊥ }
{}

/// What the front of some bytes says is what it is: where they begin with a header or with a fault, that one is said after it;
/// what is said is so; and where nothing is, they end inside of a header.
pub fn a_front_is_decided()
    ensures head { (form : SoundForm) (bytes rest : List ℕ) (head : SoundHead) → IsHead form bytes head →
        front_of form (bytes ++ rest) ≡ record { says = step.Head head; size = length bytes } }
    ensures fault { (form : SoundForm) (bytes rest : List ℕ) (fault : SoundFault) → HasFault form bytes fault →
        front_of form (bytes ++ rest) ≡ record { says = step.Bad fault; size = length bytes } }
    ensures is_head { (form : SoundForm) (bytes : List ℕ) (n : ℕ) (head : SoundHead) →
        front_of form bytes ≡ record { says = step.Head head; size = n } → (n ≤ length bytes) × IsHead form (take n bytes) head }
    ensures has_fault { (form : SoundForm) (bytes : List ℕ) (n : ℕ) (fault : SoundFault) →
        front_of form bytes ≡ record { says = step.Bad fault; size = n } → (n ≤ length bytes)
        × HasFault form (take n bytes) fault }
    ensures is_whole { (form : SoundForm) (bytes : List ℕ) (n : ℕ) →
        front_of form bytes ≡ record { says = step.More; size = n } → n ≡ length bytes }
{}
