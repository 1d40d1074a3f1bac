// The law of a log: each frame is in exactly one piece.
ghost use Rattle.std.specs.Prelude.{◌≡◌, ◌<◌, ◌^◌, ℕ, List};
ghost use Rattle.af_logger.specs.declared.plan.Plan.{Plan as IsAPlan};
ghost use Rattle.af_logger.specs.Pieces.{blocks_of, frames_of, times_from, times_of_pieces, AreWhole, Piece};

/// The frames of pieces, one piece after another, are those from the start on, each once and in order: there is no gap and no
/// overlap, also where the time wraps. So each frame of what was recorded is in exactly one piece.
pub fn each_frame_once()
    ensures { (plan : IsAPlan) (start : ℕ) (pieces : List Piece) → start < 2 ^ 32 → AreWhole plan pieces →
        times_of_pieces plan start pieces ≡ times_from start (frames_of (blocks_of pieces)) }
{}
