// Where standard output lies in a file.
use af_io::Put;
use std::fs;
use std::fs::{File, OpenOptions};
use std::os::unix::fs::FileExt;

// O_ACCMODE, O_RDONLY and O_APPEND of Linux.
const ACCESS: u64 = 3;

const READ_ONLY: u64 = 0;

const APPEND: u64 = 0o2000;

/// A file, and the place in it from which the bytes of a sink lie.
#[derive(Drop)]
pub struct FilePlace {
    file: File,
    start: u64,
}

impl FilePlace {
    /// Writes over the bytes from a place after the start on. The position of whoever else has the file stays.
    pub fn write(&self, at: u64, bytes: &[u8]) -> Put {
        let Some(place) = self.start.checked_add(at) else {
            return Put::Failed;
        };
        match self.file.write_all_at(bytes, place) {
            Ok(()) => Put::Done,
            Err(_) => Put::Failed,
        }
    }
}

// What a line of this name says.
fn line_of<'a>(text: &'a str, name: &str) -> Option<&'a str> {
    for line in text.lines() {
        if let Some((word, value)) = line.split_once(':')
            && word == name
        {
            return Some(value.trim());
        }
    }
    None
}

/// Where the bytes of standard output will lie, if it is a regular file that can be written at a place. None for a pipe, a
/// terminal or a device, and for a file to which all is appended.
pub fn output_place(rt: &HostRuntime) -> Option<FilePlace> {
    let info = fs::read_to_string(rt, "/proc/self/fdinfo/1").ok()?;
    let start = u64::from_str_radix(line_of(info.as_str(), "pos")?, 10).ok()?;
    let flags = u64::from_str_radix(line_of(info.as_str(), "flags")?, 8).ok()?;
    if flags & APPEND != 0 || flags & ACCESS == READ_ONLY {
        return None;
    }
    // Only a regular file is opened: a pipe that nobody reads would hold the open up.
    let seen = fs::metadata(rt, "/proc/self/fd/1").ok()?;
    if !seen.is_file() {
        return None;
    }
    let file = OpenOptions::new()
        .write(true)
        .open(rt, "/proc/self/fd/1")
        .ok()?;
    Some(FilePlace { file, start })
}
