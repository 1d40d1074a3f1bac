// How far the writing of a sound file has come.
ghost use Rattle.af_true_header.specs.Sinks.{IsStage, IsStageAfter};

use crate::header::head_of;
use crate::sound_file::SoundFile;
use af_io::Put;
use af_sound::SoundForm;

/// Where the writing is.
#[derive(Clone, Copy)]
pub enum Stage {
    /// Nothing is corrected.
    Plain,
    /// The next write is the header of a file of this form.
    Before(SoundForm),
    /// The header was written.
    Begun(SoundFile),
}

// The stage after the header of a file, if this is one.
fn begun(form: SoundForm, piece: &[u8]) -> Stage
    ensures after { IsStageAfter (Stage.Before form) piece.now Put.Done result }
    ensures stage { IsStage result }
{
    match head_of(form, piece) {
        Some(head) => Stage::Begun(SoundFile::new(form, head)),
        None => Stage::Plain,
    }
}

impl Stage {
    /// The stage after a write of this piece.
    pub fn after(&self, piece: &[u8], put: Put) -> Stage
        requires stage { IsStage self.now }
        ensures after { IsStageAfter self.now piece.now put result }
        ensures stage { IsStage result }
    {
        match self {
            Stage::Plain => Stage::Plain,
            Stage::Before(form) => match put {
                Put::Done => begun(*form, piece),
                Put::Failed => Stage::Plain,
            },
            Stage::Begun(file) => Stage::Begun(file.after(piece, put)),
        }
    }
}
