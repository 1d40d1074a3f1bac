//! Laws of what a device captures that hears itself, each the contract of a function that does nothing.
ghost use Rattle.std.specs.Prelude.{◌≡◌, ◌≤◌, ◌*◌, ℕ, List, length};
ghost use Rattle.af_io.specs.declared.flow.Put.{Put};
ghost use Rattle.af_io.specs.declared.flow.Put.TheVariants.{Done};
ghost use Rattle.af_loop.specs.DelayLine.{DelayState, silent_line, Captures, Emits};
ghost use Rattle.af_loop.specs.Ticks.{Tick, TicksOn, captured_in, emitted_in, HearsItself};

/// Whatever the ticks were, long or short: each frame is captured so many frames after it was emitted, and before that silence.
pub fn what_is_emitted_is_captured_later()
    ensures { (frame_bytes delay silent : ℕ) (ticks : List Tick) (now : DelayState) →
        TicksOn (silent_line (delay * frame_bytes) silent) ticks now →
        HearsItself frame_bytes delay silent (captured_in ticks) (emitted_in ticks) }
{}

/// No call of a tick fails that is at most as long as the delay, and after it the line is full again.
pub fn no_short_tick_fails()
    ensures captures { (answer : Put) (line between : DelayState) (into : List ℕ) → length line.held ≡ line.delay →
        length into ≤ line.delay → Captures answer line into between → answer ≡ Done }
    ensures emits { (answer : Put) (line between now : DelayState) (into sound : List ℕ) → length line.held ≡ line.delay →
        Captures Done line into between → length sound ≡ length into → Emits answer between sound now → answer ≡ Done }
    ensures full { (line between now : DelayState) (into sound : List ℕ) → length line.held ≡ line.delay →
        Captures Done line into between → length sound ≡ length into → Emits Done between sound now →
        length now.held ≡ now.delay }
{}
