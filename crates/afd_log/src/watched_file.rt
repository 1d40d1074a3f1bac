// A file whose faults are noted.
ghost use Rattle.std.specs.Prelude.{◌≡◌};

use crate::Log;
use af_io::Reason;
use std::fs::{Metadata, OpenFile};
use std::io::{self, ErrorKind, Read, Seek, SeekFrom, Write};

/// A file that notes in a log why the system refused a call of it last.
#[derive(Drop)]
pub struct WatchedFile<'a, F: Read + Write + Seek + OpenFile + Drop> {
    file: F,
    log: &'a Log<'a>,
}

impl<'a, F: Read + Write + Seek + OpenFile + Drop> WatchedFile<'a, F> {
    /// This file, whose faults are noted there.
    pub(crate) fn new(file: F, log: &'a Log<'a>) -> WatchedFile<'a, F> {
        WatchedFile { file, log }
    }
}

/// Notes why a call was refused, if it was. One that is to be made again was not.
fn note<T>(done: &io::Result<T>, log: &Log<'_>) {
    if let Err(e) = done
        && e.kind() != ErrorKind::Interrupted
    {
        log.note(Reason::new(*e));
    }
}

impl<F: Read + Write + Seek + OpenFile + Drop> Read for WatchedFile<'_, F> {
    ghost remaining = { λ watched. F.Read.remaining watched.file };

    fn read(&mut self, buf: &mut [u8]) -> io::Result<usize> {
        let done = self.file.read(buf);
        note(&done, self.log);
        done
    }
}

impl<F: Read + Write + Seek + OpenFile + Drop> Write for WatchedFile<'_, F> {
    ghost contents = { λ watched. F.Write.contents watched.file };

    fn write(&mut self, buf: &[u8]) -> io::Result<usize> {
        let done = self.file.write(buf);
        note(&done, self.log);
        done
    }

    fn flush(&mut self) -> io::Result<()> {
        let done = self.file.flush();
        note(&done, self.log);
        done
    }
}

impl<F: Read + Write + Seek + OpenFile + Drop> Seek for WatchedFile<'_, F> {
    fn seek(&mut self, to: SeekFrom) -> io::Result<u64> {
        self.file.seek(to)
    }
}

impl<F: Read + Write + Seek + OpenFile + Drop> OpenFile for WatchedFile<'_, F> {
    fn metadata(&self) -> io::Result<Metadata> {
        self.file.metadata()
    }

    fn set_len(&self, size: u64) -> io::Result<()> {
        self.file.set_len(size)
    }

    fn sync_all(&self) -> io::Result<()> {
        self.file.sync_all()
    }

    fn sync_data(&self) -> io::Result<()> {
        self.file.sync_data()
    }
}
