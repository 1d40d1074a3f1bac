//! Laws of samples, each the contract of a function that does nothing.
ghost use Rattle.std.specs.Prelude.{◌≡◌, ◌≢◌, ◌+◌, ◌-◌, ◌*◌, ◌<◌, ◌≤◌, ◌↔◌, ℕ, ℤ, List, [], ◌∷◌, ◌++◌, length, IsTrue, FitsSigned};
ghost use Rattle.std.specs.Int.{w16};
ghost use Rattle.std.specs.List.{All};
ghost use Rattle.af_sample.specs.Gains.{is_within, multiplier};
ghost use Rattle.af_sample.specs.Heard.{heard_sample, with_entry, AcceptedPlay};
ghost use Rattle.af_sample.specs.Samples.{decoded, encoded};
ghost use Rattle.af_sample.specs.Window.{recorded_sample};

use crate::SampleType;

/// A byte that is decoded and encoded again is itself: in A-law each, in mu-law each but 0x7F, the
/// second code of 0, which becomes the first.
pub fn bytes_round_trip()
    ensures alaw { (byte : ℕ) → byte < 256 →
        encoded SampleType.Alaw (decoded SampleType.Alaw (byte ∷ [])) ≡ byte ∷ [] }
    ensures mu_law { (byte : ℕ) → byte < 256 → byte ≢ 127 →
        encoded SampleType.Mu255 (decoded SampleType.Mu255 (byte ∷ [])) ≡ byte ∷ [] }
    ensures second_zero { encoded SampleType.Mu255 (decoded SampleType.Mu255 (127 ∷ [])) ≡ 255 ∷ [] }
{}

/// A sample that is encoded in a linear type and decoded again is itself.
pub fn samples_round_trip()
    ensures lin16 { (x : ℤ) → FitsSigned w16 x → decoded SampleType.Lin16 (encoded SampleType.Lin16 x) ≡ x }
    ensures lin32 { (x : ℤ) → FitsSigned w16 x → decoded SampleType.Lin32 (encoded SampleType.Lin32 x) ≡ x }
{}

/// The multiplier of a gain is the greatest number that is within its decibels.
pub fn greatest_multiplier()
    ensures { (db : ℤ) (m : ℕ) → IsTrue (is_within db m) ↔ (m ≤ multiplier db) }
{}

/// A play that is accepted is blended into what was heard before, channel by channel, and what was past by then stays.
pub fn heard_grows()
    ensures next { (channels : ℕ) (accepted : List AcceptedPlay) (e : AcceptedPlay) (t channel : ℕ) →
        heard_sample channels (accepted ++ e ∷ []) t channel
        ≡ with_entry channels t channel (heard_sample channels accepted t channel) e }
    ensures past { (channels : ℕ) (accepted more : List AcceptedPlay) (t channel : ℕ) → All (λ e. t < e.at) more →
        heard_sample channels (accepted ++ more) t channel ≡ heard_sample channels accepted t channel }
{}

/// What was captured stays recorded, in each channel, until the horizon has passed it.
pub fn recorded_stays()
    ensures { (channels : ℕ) (captured more : List ℤ) (begin now n horizon t channel : ℕ) →
        length captured ≡ channels * (now - begin) → channel < channels → t < now → now + n ≤ t + horizon →
        recorded_sample channels (captured ++ more) begin (now + n) horizon t channel
        ≡ recorded_sample channels captured begin now horizon t channel }
{}
