// A sink that keeps a header true.
ghost use Rattle.std.specs.Prelude.{◌≡◌, ◌≤◌, ◌<◌, IfSome, [], length, option_map};
ghost use Rattle.std.specs.declared.option.Option.{Option};
ghost use Rattle.std.specs.declared.option.Option.TheVariants.{None, Some};
ghost use Rattle.af_io.specs.Flow.{Written};
ghost use Rattle.af_io.specs.Observed.{FaultCounted, Unchanged};
ghost use Rattle.af_true_header.specs.Files.{HoldsFile, IsFile, stating, written_file};
ghost use Rattle.af_true_header.specs.Headers.{true_header};
ghost use Rattle.af_true_header.specs.Sinks.{Corrects, HoldsIfTold, IsStage, IsStageAfter, WritesThrough, begun_in, due_file, first_stage, written_in};

use crate::correct::Correct;
use crate::header::{LONGEST_HEADER, write_true_header};
use crate::sound_file::SoundFile;
use crate::stage::Stage;
use af_io::{Put, Sink};
use af_sound::SoundForm;
use std::marker::Model;

/// A sink over one that can be corrected. If what is written begins with the header of a sound file, that header is kept true to
/// what was written after it: it is corrected once it was written, after each second of sound, and by `finish`.
#[derive(Drop)]
pub struct TrueHeader<K: Correct + Drop> {
    sink: K,
    stage: Stage,
}

impl<K: Correct + Drop> Model for TrueHeader<K> {
    ghost use Rattle.af_true_header.specs.Sinks.{HeaderState, HoldsIfTold, IsStage};

    ghost Value = { HeaderState K };

    ghost view = { λ a. record { sink = a.sink; stage = a.stage } };

    ghost invariant = { λ a. IsStage a.stage × HoldsIfTold a.stage (K.Sink.held a.sink) };
}

// Makes the header of a file true to what was written so far.
fn correct<K: Correct>(sink: &mut K, file: &SoundFile) -> (Put, SoundFile)
    requires file { IsFile file.now }
    requires holds { IfSome (K.Sink.held sink.old) (λ held. HoldsFile file.now held) }
    ensures step { K.corrects sink.old 0 (true_header file.now.form file.now.head file.now.extent) result.0 sink.new }
    ensures faults { K.Sink.faults sink.new ≡ K.Sink.faults sink.old }
    ensures stated { result.1 ≡ stating result.0 file.now }
    ensures file { IsFile result.1 }
    ensures holds { IfSome (K.Sink.held sink.new) (λ held. HoldsFile result.1 held) }
    ensures written { Unchanged (option_map (λ held. written_file file.now held) (K.Sink.held sink.old))
        (option_map (λ held. written_file result.1 held) (K.Sink.held sink.new)) }
{
    let mut room = [0; LONGEST_HEADER];
    let size = write_true_header(file.form, &file.head, file.extent, &mut room);
    let put = sink.correct(0, &room[..size]);
    (put, file.stating(put))
}

// Writes a piece to the sink below, and sees how far the writing has come.
fn write_on<K: Correct>(sink: &mut K, stage: &mut Stage, piece: &[u8]) -> Put
    requires piece { 0 < length piece.now }
    requires stage { IsStage stage.old }
    requires holds { HoldsIfTold stage.old (K.Sink.held sink.old) }
    ensures step { K.Sink.writes sink.old piece.now result sink.new }
    ensures count { K.Sink.faults sink.old ≤ K.Sink.faults sink.new }
    ensures cause { result ≡ Put.Failed → FaultCounted (K.Sink.faults sink.old) (K.Sink.faults sink.new) }
    ensures after { IsStageAfter stage.old piece.now result stage.new }
    ensures stage { IsStage stage.new }
    ensures holds { HoldsIfTold stage.new (K.Sink.held sink.new) }
    ensures written { Written result (option_map (λ held. written_in stage.old held) (K.Sink.held sink.old)) piece.now
        (option_map (λ held. written_in stage.new held) (K.Sink.held sink.new)) }
{
    let put = sink.write(piece);
    *stage = stage.after(piece, put);
    put
}

// Corrects the header, if that is due.
fn correct_due<K: Correct>(sink: &mut K, stage: &mut Stage)
    requires stage { IsStage stage.old }
    requires holds { HoldsIfTold stage.old (K.Sink.held sink.old) }
    ensures corrected { Corrects K.corrects (due_file stage.old) (record { sink = sink.old; stage = stage.old })
        (record { sink = sink.new; stage = stage.new }) }
    ensures faults { K.Sink.faults sink.new ≡ K.Sink.faults sink.old }
    ensures stage { IsStage stage.new }
    ensures holds { HoldsIfTold stage.new (K.Sink.held sink.new) }
    ensures written { Unchanged (option_map (λ held. written_in stage.old held) (K.Sink.held sink.old))
        (option_map (λ held. written_in stage.new held) (K.Sink.held sink.new)) }
{
    if let Stage::Begun(file) = *stage
        && file.is_due()
    {
        let (_, file) = correct(sink, &file);
        *stage = Stage::Begun(file);
    }
}

impl<K: Correct + Drop> TrueHeader<K> {
    /// A sink over one to which nothing was written. It keeps the header of a file of this form true, or it is just the other
    /// sink.
    pub fn new(sink: K, form: Option<SoundForm>) -> TrueHeader<K>
        requires fresh { IfSome (K.Sink.held sink) (λ held. held ≡ []) }
        ensures { result ≡ record { sink = sink; stage = first_stage form } }
    {
        let stage = match form {
            Some(form) => Stage::Before(form),
            None => Stage::Plain,
        };
        TrueHeader { sink, stage }
    }

    /// The sink below it.
    pub fn sink(&self) -> &K
        ensures { result.now ≡ self.now.sink }
    {
        &self.sink
    }

    /// Makes the header true to all that was written, at the end of the writing.
    pub fn finish(&mut self)
        ensures corrected { Corrects K.corrects (begun_in self.old.stage) self.old self.new }
        ensures faults { K.Sink.faults self.new.sink ≡ K.Sink.faults self.old.sink }
        ensures holds { HoldsIfTold self.new.stage (K.Sink.held self.new.sink) }
        ensures written { Unchanged (option_map (λ held. written_in self.old.stage held) (K.Sink.held self.old.sink))
            (option_map (λ held. written_in self.new.stage held) (K.Sink.held self.new.sink)) }
    {
        if let Stage::Begun(file) = self.stage {
            let (_, file) = correct(&mut self.sink, &file);
            self.stage = Stage::Begun(file);
        }
    }
}

impl<K: Correct + Drop> Sink for TrueHeader<K> {
    ghost held = { λ s. option_map (λ held. written_in s.stage held) (K.Sink.held s.sink) };

    ghost faults = { λ s. K.Sink.faults s.sink };

    ghost writes = { λ before piece answer after. WritesThrough K.Sink.writes K.corrects before piece answer after };

    fn write(&mut self, piece: &[u8]) -> Put {
        let put = write_on(&mut self.sink, &mut self.stage, piece);
        correct_due(&mut self.sink, &mut self.stage);
        put
    }
}
