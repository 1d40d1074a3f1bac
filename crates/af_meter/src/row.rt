// Whether it is quiet, and what is written of an interval.
ghost use Rattle.std.specs.Prelude.{◌≡◌, ◌≤◌, [], ◌∷◌, List};
ghost use Rattle.af_meter.specs.declared.level.Levels.{Levels as AreLevels};
ghost use Rattle.af_meter.specs.Lines.{line_of, line_of_change};
ghost use Rattle.af_meter.specs.Plans.{IsPlan};
ghost use Rattle.af_meter.specs.Rows.{IsRow, KeepsRow};

use crate::level::Levels;
use crate::plan::{Plan, QuietSpan};

/// What is written of an interval.
#[derive(Clone, Copy)]
pub enum Line {
    /// How loud it was.
    Levels,
    /// That it has become quiet.
    Quiet,
    /// That it is no longer quiet.
    Sound,
}

/// Whether it is quiet, and, while it is not, for how many frames all peaks have been below the limit.
#[derive(Clone, Copy)]
pub struct Row {
    pub quiet: bool,
    pub frames: u32,
}

// Whether it is quiet after one interval more.
fn row_after(span: QuietSpan, frames: u32, row: Row, levels: &Levels) -> Row
    requires interval { frames ≤ 2880000 }
    requires span { (1 ≤ span.frames) × (span.frames ≤ 172800000) }
    requires low { row.frames ≤ 172800000 }
    ensures row { (before : List AreLevels) → IsRow span frames row before → IsRow span frames result (levels.now ∷ before) }
    ensures low { result.frames ≤ 172800000 }
{
    if !levels.are_below(span.below) {
        return Row {
            quiet: false,
            frames: 0,
        };
    }
    let quiet = row.quiet;
    if quiet {
        return row;
    }
    let low = row.frames + frames;
    let least = span.frames;
    if low >= least {
        Row {
            quiet: true,
            frames: 0,
        }
    } else {
        Row {
            quiet: false,
            frames: low,
        }
    }
}

// The line of a change.
fn line_of_change(was: bool, is: bool) -> Option<Line>
    ensures { result ≡ line_of_change was is }
{
    match (was, is) {
        (false, true) => Some(Line::Quiet),
        (true, false) => Some(Line::Sound),
        _ => None,
    }
}

impl Row {
    /// Before the first interval it is not quiet.
    pub fn new(plan: Plan) -> Row
        requires { IsPlan plan }
        ensures row { KeepsRow plan result [] }
        ensures low { result.frames ≤ 172800000 }
    {
        Row {
            quiet: false,
            frames: 0,
        }
    }

    /// Whether it is quiet after one interval more, and the line of that.
    pub fn after(self, plan: Plan, levels: &Levels) -> (Row, Option<Line>)
        requires plan { IsPlan plan }
        requires low { self.frames ≤ 172800000 }
        ensures row { (before : List AreLevels) → KeepsRow plan self before →
            KeepsRow plan result.0 (levels.now ∷ before) × (result.1 ≡ line_of plan levels.now before) }
        ensures low { result.0.frames ≤ 172800000 }
    {
        match plan.quiet {
            Some(span) => {
                let row = row_after(span, plan.frames, self, levels);
                (row, line_of_change(self.quiet, row.quiet))
            }
            None => (self, Some(Line::Levels)),
        }
    }
}
