// A sink whose bytes go into a file that can be corrected.
ghost use Rattle.std.specs.Prelude.{◌≡◌};
ghost use Rattle.std.specs.declared.option.Option.TheVariants.{None};
ghost use Rattle.af_true_header.specs.Sinks.{first_stage};

use crate::correct::Correct;
use crate::place::FilePlace;
use crate::true_header::TrueHeader;
use af_io::{Put, Sink};
use af_sound::SoundForm;

/// A sink, as standard output, and where its bytes lie in a file, if that is known. Each of its writes is that write of the sink
/// below. What it holds is not observed.
#[derive(Drop)]
pub struct FileOutput<S: Sink + Drop> {
    sink: S,
    place: Option<FilePlace>,
}

impl<S: Sink + Drop> FileOutput<S> {
    /// A sink over one whose bytes lie in a file from this place on, or in none.
    pub fn new(sink: S, place: Option<FilePlace>) -> FileOutput<S>
        ensures { result.sink ≡ sink }
    {
        FileOutput { sink, place }
    }

    /// The sink below it.
    pub fn sink(&self) -> &S
        ensures { result.now ≡ self.now.sink }
    {
        &self.sink
    }
}

impl<S: Sink + Drop> Sink for FileOutput<S> {
    ghost held = { λ _. None };

    ghost faults = { λ output. S.faults output.sink };

    ghost writes = { λ before piece answer after. S.writes before.sink piece answer after.sink };

    fn write(&mut self, piece: &[u8]) -> Put {
        self.sink.write(piece)
    }
}

impl<S: Sink + Drop> Correct for FileOutput<S> {
    ghost corrects = { λ before at bytes answer after. after.sink ≡ before.sink };

    fn correct(&mut self, at: u64, bytes: &[u8]) -> Put {
        match &self.place {
            Some(place) => place.write(at, bytes),
            None => Put::Failed,
        }
    }
}

/// A sink that keeps the header of a file of this form true, where the bytes of the sink below lie in a file from this place on.
/// Without a form it is just the sink below.
pub fn kept_true<S: Sink + Drop>(
    sink: S,
    form: Option<SoundForm>,
    place: Option<FilePlace>,
) -> TrueHeader<FileOutput<S>>
    ensures sink { result.sink.sink ≡ sink }
    ensures stage { result.stage ≡ first_stage form }
{
    TrueHeader::new(FileOutput::new(sink, place), form)
}
