//! How far a long write is, told on one line of a terminal that is rewritten in place.
use std::fs::{File, OpenOptions};
use std::io::{self, Write};
use std::rt::Files;

/// Writes of so many bytes or fewer are not worth a line.
const SHORT: u64 = 256 << 20;

/// The line, with what it last told. A terminal that fails is left alone: it is no reason to stop.
#[derive(Drop)]
pub(crate) struct Progress {
    terminal: File,
    total: u64,
    written: u64,
    percent: u64,
}

impl Progress {
    /// A line for a write of `total` bytes, if that is long, on the terminal at a path.
    pub(crate) fn of<R: Files<File = File>>(
        rt: &R,
        terminal: &str,
        total: u64,
    ) -> io::Result<Option<Progress>> {
        if total <= SHORT {
            return Ok(None);
        }
        let terminal = OpenOptions::new().write(true).open(rt, terminal)?;
        Ok(Some(Progress {
            terminal,
            total,
            written: 0,
            percent: 0,
        }))
    }

    /// Counts bytes that were written, and tells each new percentage.
    pub(crate) fn add(&mut self, bytes: u64) {
        self.written = self.written.saturating_add(bytes);
        let percent = (self.written / (self.total / 100).max(1)).min(100);
        if percent > self.percent {
            self.percent = percent;
            let _ = write!(
                self.terminal,
                "\r{percent}% ({} of {} bytes)",
                self.written, self.total
            );
        }
    }

    /// Removes the line, if there is one.
    pub(crate) fn remove(&mut self) {
        if self.percent > 0 {
            let _ = self.terminal.write_all(b"\r\x1b[K");
        }
    }
}
