// A sound file that is being written: its header, and what was written after it.
ghost use Rattle.std.specs.Prelude.{◌≡◌};
ghost use Rattle.af_true_header.specs.Files.{IsFile, begun_file, file_after, is_due, stating};

use crate::extent::{Extent, is_pad, second_bytes};
use af_io::Put;
use af_sound::{SoundForm, SoundHead};

/// A file whose header was written.
#[derive(Clone, Copy)]
pub struct SoundFile {
    pub form: SoundForm,
    /// What the header says, as it was written.
    pub head: SoundHead,
    /// What was written after it, as long as no write failed.
    pub extent: Extent,
    /// What the header is true to, once it was corrected.
    pub stated: Option<Extent>,
    /// Whether each write was done.
    pub unbroken: bool,
}

impl SoundFile {
    /// A file of which the header was written, and nothing else.
    pub fn new(form: SoundForm, head: SoundHead) -> SoundFile
        ensures { result ≡ begun_file form head }
    {
        SoundFile {
            form,
            head,
            extent: Extent {
                bytes: 0,
                padded: false,
            },
            stated: None,
            unbroken: true,
        }
    }

    /// The file after a write of this piece. One that failed is not counted, and nothing is from then on.
    pub fn after(&self, piece: &[u8], put: Put) -> SoundFile
        ensures after { result ≡ file_after self.now piece.now put }
        ensures file { IsFile self.now → IsFile result }
    {
        match put {
            Put::Failed => SoundFile {
                unbroken: false,
                ..*self
            },
            Put::Done if !self.unbroken => *self,
            Put::Done => match self.extent.bytes.checked_add(piece.len() as u64) {
                Some(bytes) => SoundFile {
                    extent: Extent {
                        bytes,
                        padded: is_pad(self.form, &self.head, self.extent, piece),
                    },
                    ..*self
                },
                None => SoundFile {
                    unbroken: false,
                    ..*self
                },
            },
        }
    }

    /// Whether the header is to be corrected: a second of sound was written since it was, or it never was.
    pub fn is_due(&self) -> bool
        ensures { result ≡ is_due self.now }
    {
        match self.stated {
            Some(stated) => {
                let more = self.extent.bytes.saturating_sub(stated.bytes);
                self.unbroken && more >= second_bytes(&self.head)
            }
            None => self.unbroken,
        }
    }

    /// The file after a correction with this answer.
    pub fn stating(&self, put: Put) -> SoundFile
        ensures { result ≡ stating put self.now }
    {
        match put {
            Put::Done => SoundFile {
                stated: Some(self.extent),
                ..*self
            },
            Put::Failed => *self,
        }
    }
}
