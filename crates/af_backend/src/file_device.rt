// A device over two files.
ghost use Rattle.std.specs.Prelude.{◌≡◌, ◌<◌, length, IfOk};
ghost use Rattle.af_io.specs.Observed.{CountsOneFault};
ghost use Rattle.af_world.specs.Outside.{silent_byte};
ghost use Rattle.af_io.specs.Real.{WritesOn};
ghost use Rattle.af_backend.specs.FileBytes.{FillsRoom};

use af_io::{Got, Put, Sink, Source, StdSink, StdSource};
use af_sample::SampleType;
use af_world::silent_byte;
use std::fs::{self, OpenOptions};
use std::io::{self, Read, Write};
use std::marker::Model;
use std::rt::Files;

/// A device that captures what one file has, and adds what it hands out to another. A file that makes a call wait makes the
/// server wait.
#[derive(Drop)]
pub struct FileDevice<F: Read + Write + Drop> {
    silent: u8,
    input: StdSource<F>,
    output: StdSink<F>,
}

impl<F: Read + Write + Drop> Model for FileDevice<F> {
    ghost use Rattle.af_backend.specs.FileBytes.{FileState};

    ghost Value = { FileState };

    ghost view = { λ f. record { silent = f.silent; input = f.input.remaining; output = f.output.contents } };
}

impl<F: Read + Write + Drop> FileDevice<F> {
    /// Opens both files. The output is made if it does not exist.
    pub fn open<R: Files<File = F>>(
        rt: &R,
        ty: SampleType,
        input: &str,
        output: &str,
    ) -> io::Result<FileDevice<F>>
        ensures { IfOk result (λ file_device. file_device.silent ≡ silent_byte ty) }
    {
        let input = fs::open(rt, input)?;
        let output = OpenOptions::new()
            .append(true)
            .create(true)
            .open(rt, output)?;
        Ok(FileDevice {
            silent: silent_byte(ty),
            input: StdSource::new(input),
            output: StdSink::new(output),
        })
    }

    /// Captures as many bytes as there is room for. Past the end of its input there is silence.
    pub fn capture(&mut self, into: &mut [u8]) -> Put
        ensures fills { FillsRoom self.old.silent result self.old.input into.new self.new.input }
        ensures rest { self.new ≡ record self.old { input = self.new.input } }
    {
        fill(&mut self.input, self.silent, into)
    }

    /// Adds all of its sound to its output.
    pub fn emit(&mut self, sound: &[u8]) -> Put
        requires { 0 < length sound.now }
        ensures writes { WritesOn result self.old.output sound.now self.new.output }
        ensures rest { self.new ≡ record self.old { output = self.new.output } }
    {
        self.output.write(sound)
    }
}

/// Fills the room with what a source gives, and with silence past its end.
fn fill<F: Read + Drop>(source: &mut StdSource<F>, silent: u8, into: &mut [u8]) -> Put
    ensures fills { FillsRoom silent result source.old.remaining into.new source.new.remaining }
    ensures faults { CountsOneFault (result ≡ Put.Failed) source.old.faults source.new.faults }
{
    let mut count = 0;
    while count < into.len() {
        match source.read(&mut into[count..]) {
            Got::Bytes(n) => count += n,
            Got::Ended => {
                into[count..].fill(silent);
                return Put::Done;
            }
            Got::Failed => return Put::Failed,
        }
    }
    Put::Done
}
