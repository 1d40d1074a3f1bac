// Reading the header of a sound file, byte by byte.
ghost use Rattle.std.specs.Prelude.{◌≡◌, ◌↔◌, ◌++◌, ℕ, List, [], ◌∷◌};
ghost use Rattle.af_sound.specs.declared.head.HeadStep.TheVariants as step;
ghost use Rattle.af_sound.specs.declared.head.SoundForm.{SoundForm};
ghost use Rattle.af_sound.specs.declared.head.SoundHead.{SoundHead};
ghost use Rattle.af_sound.specs.declared.head.SoundFault.{SoundFault};
ghost use Rattle.af_sound.specs.Heads.{HasFault, IsHead};
ghost use Rattle.af_sound.specs.Reading.{HasTaken, IsOpen, field_start, place_after_byte, after_field, field_after_byte, start, step_at};

use crate::au::AuField;
use crate::wave::{Format, WaveField};
use crate::{HeadStep, SoundFault, SoundForm, SoundHead};

/// Reads a header byte by byte. It keeps where it is and the fields that it still needs.
#[derive(Clone, Copy, Debug)]
pub struct HeadReader {
    place: Place,
}

// Where a reader is.
#[derive(Clone, Copy, Debug)]
pub(crate) enum Place {
    /// In a field of four bytes. Some of them are there.
    Field { of: Field, part: Part },
    /// Before the last bytes of an annotation.
    Annotation { left: u32, head: SoundHead },
    /// Before the last bytes of a chunk, with its pad byte.
    Chunk { left: u64, format: Option<Format> },
    /// After the header.
    Head(SoundHead),
    /// After a fault.
    Bad(SoundFault),
}

// A field of four bytes.
#[derive(Clone, Copy, Debug)]
pub(crate) enum Field {
    Au(AuField),
    Wave(WaveField),
}

// The bytes of a field that were read so far.
#[derive(Clone, Copy, Debug)]
pub(crate) enum Part {
    Nothing,
    One(u8),
    Two(u8, u8),
    Three(u8, u8, u8),
}

impl HeadReader {
    /// A reader that has taken nothing.
    #[tactic(auto, unfolding(crate::specs::Reading::HasTaken))]
    pub fn new(form: SoundForm) -> HeadReader
        ensures taken { HasTaken result form [] }
        ensures open { IsOpen result }
    {
        let first = match form {
            SoundForm::Au => Field::Au(AuField::Name),
            SoundForm::Wave => Field::Wave(WaveField::Riff),
        };
        HeadReader {
            place: first.field_begun(),
        }
    }

    /// Takes the next byte, as long as each answer was More. It is Bad where the bytes end at the first fault of a header, Head
    /// where they are a complete header, and else More.
    pub fn take(&mut self, byte: u8) -> HeadStep
        requires { IsOpen self.old }
        ensures taken { (form : SoundForm) (bytes : List ℕ) → HasTaken self.old form bytes →
            HasTaken self.new form (bytes ++ (byte ∷ [])) }
        ensures bad { (form : SoundForm) (bytes : List ℕ) (fault : SoundFault) → HasTaken self.old form bytes →
            (result ≡ step.Bad fault) ↔ HasFault form (bytes ++ (byte ∷ [])) fault }
        ensures head { (form : SoundForm) (bytes : List ℕ) (head : SoundHead) → HasTaken self.old form bytes →
            (result ≡ step.Head head) ↔ IsHead form (bytes ++ (byte ∷ [])) head }
        ensures open { (result ≡ step.More) ↔ IsOpen self.new }
    {
        self.place = self.place.after(byte);
        self.place.step()
    }
}

impl Place {
    // The place after a byte.
    fn after(self, byte: u8) -> Place
        ensures { result ≡ place_after_byte self byte }
    {
        match self {
            Place::Field { of, part } => part.grown(of, byte),
            Place::Annotation { left, head } if left > 1 => Place::Annotation {
                left: left - 1,
                head,
            },
            Place::Annotation { head, .. } => Place::Head(head),
            Place::Chunk { left, format } if left > 1 => Place::Chunk {
                left: left - 1,
                format,
            },
            Place::Chunk { format, .. } => Field::Wave(WaveField::ChunkName {
                format,
            }).field_begun(),
            Place::Head(_) | Place::Bad(_) => self,
        }
    }

    // What the reader says at this place.
    fn step(self) -> HeadStep
        ensures { result ≡ step_at self }
    {
        match self {
            Place::Head(head) => HeadStep::Head(head),
            Place::Bad(fault) => HeadStep::Bad(fault),
            _ => HeadStep::More,
        }
    }
}

impl Field {
    // The place before the field.
    pub(crate) fn field_begun(self) -> Place
        ensures { result ≡ field_start self }
    {
        Place::Field {
            of: self,
            part: Part::Nothing,
        }
    }

    // The place after the field.
    fn after(self, bytes: [u8; 4]) -> Place
        ensures { result ≡ after_field self bytes }
    {
        match self {
            Field::Au(field) => field.after(bytes),
            Field::Wave(field) => field.after(bytes),
        }
    }
}

impl Part {
    // The place with one more byte of a field.
    fn grown(self, of: Field, byte: u8) -> Place
        ensures { result ≡ field_after_byte of self byte }
    {
        let part = match self {
            Part::Nothing => Part::One(byte),
            Part::One(a) => Part::Two(a, byte),
            Part::Two(a, b) => Part::Three(a, b, byte),
            Part::Three(a, b, c) => return of.after([a, b, c, byte]),
        };
        Place::Field { of, part }
    }
}
