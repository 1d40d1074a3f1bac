// Standard error, as the log writes to it: nobody waits for what reads it.
use crate::gate::Gate;
use crate::level::Front;
use std::fmt::Display;
use std::fs::{File, OpenOptions};
use std::io::{IsTerminal, Write};
use std::os::fd::AsRawFd;

/// How many bytes a line has at most, but for one of a very long reason.
const LONGEST_LINE: usize = 4096;

/// The name of what is open as standard error. An open of it has flags of its own.
const STANDARD_ERROR: &str = "/proc/self/fd/2";

/// Where the lines of the log go.
#[derive(Drop)]
pub(crate) enum Outlet {
    /// A terminal, to which a write does not wait.
    Terminal(Terminal),
    /// Anything else. It is asked before each line whether it takes one.
    Gated(Gate),
    /// The system gave neither, or there was no memory: a write may wait.
    Plain,
}

impl Outlet {
    /// Standard error. All its memory is taken here.
    pub fn new(rt: &HostRuntime) -> Outlet {
        if rt.stderr().is_terminal()
            && let Some(terminal) = Terminal::open(rt)
        {
            return Outlet::Terminal(terminal);
        }
        match Gate::new(rt, rt.alloc()) {
            Ok(gate) => Outlet::Gated(gate),
            Err(_) => Outlet::Plain,
        }
    }

    /// Writes what is left of a line of which a part was taken.
    pub fn catch_up(&mut self) {
        if let Outlet::Terminal(terminal) = self {
            let _ = terminal.finish_line();
        }
    }

    /// Writes a line with this front. Whether it found room.
    pub fn put<D: Display + Drop>(&mut self, rt: &HostRuntime, front: Front, text: D) -> bool {
        match self {
            Outlet::Terminal(terminal) => terminal.put(front, text),
            Outlet::Gated(gate) => {
                if !gate.is_open() {
                    return false;
                }
                if gate.is_file() {
                    let front = front.with_time(rt);
                    let _ = eprintln!(rt; "{front}{text}");
                } else {
                    let _ = eprintln!(rt; "{front}{text}");
                }
                true
            }
            Outlet::Plain => {
                let _ = eprintln!(rt; "{front}{text}");
                true
            }
        }
    }
}

/// A terminal that was opened once more, since the flags of standard error are those of the shell too. A write to it takes what
/// finds room at once, and be it a part of a line: the rest of it goes before any other.
#[derive(Drop)]
pub(crate) struct Terminal {
    file: File,
    line: String,
    /// How many bytes of the line were taken.
    taken: usize,
}

impl Terminal {
    /// The terminal of standard error. None if the system does not let it be opened, as where it is that of another user.
    fn open(rt: &HostRuntime) -> Option<Terminal> {
        let file = OpenOptions::new()
            .write(true)
            .open(rt, STANDARD_ERROR)
            .ok()?;
        if os::set_nonblocking(file.as_raw_fd(), true) != 0 {
            return None;
        }
        Some(Terminal {
            file,
            line: String::with_capacity(rt.alloc(), LONGEST_LINE).ok()?,
            taken: 0,
        })
    }

    /// Writes a line, if nothing is left of the one before it. Whether the terminal took it, or its beginning.
    fn put<D: Display + Drop>(&mut self, front: Front, text: D) -> bool {
        if !self.finish_line() {
            return false;
        }
        self.line.clear();
        self.taken = 0;
        if writeln!(self.line, "{front}{text}").is_err() {
            self.line.clear();
            return false;
        }
        let _ = self.finish_line();
        if self.taken == 0 {
            self.line.clear();
            return false;
        }
        true
    }

    /// Writes what is left of the line. Whether all of it was taken.
    fn finish_line(&mut self) -> bool {
        let line = self.line.as_str().as_bytes();
        for _attempt in 0..line.len() {
            let rest = line.get(self.taken..).unwrap_or(&[]);
            if rest.is_empty() {
                return true;
            }
            match self.file.write(rest) {
                Ok(0) | Err(_) => return false,
                Ok(count) => self.taken = self.taken.saturating_add(count),
            }
        }
        self.taken >= line.len()
    }
}
