//! A sink over a file, the standard output or the standard error.
ghost use Rattle.std.specs.Prelude.{◌≡◌, ◌≤◌, None, length, IfOk, OnErr, OnOk, IsErr, IsErrOf};
ghost use Rattle.vc_base.specs.Faults.{HasCause};

use crate::file_store::FileStore;
use crate::obstacle::Obstacle;
use crate::stream_sink::StreamSink;
use std::fs::{File, OpenOptions};
use std::io::{self, Stderr, Stdout, Write};
use std::rt::Files;
use vc_outside::{Failed, OutError, Sink};

/// A sink over a file, which may be a pipe that has a name, or over a standard stream. Contracts know nothing of
/// what it holds.
#[derive(Drop)]
pub struct FileSink {
    stream: StreamSink<Output>,
}

// Where the bytes go.
#[derive(Drop)]
enum Output {
    File(File),
    Standard(Stdout),
    Error(Stderr),
}

impl Write for Output {
    fn write(&mut self, buf: &[u8]) -> io::Result<usize> {
        match self {
            Output::File(file) => file.write(buf),
            Output::Standard(stdout) => stdout.write(buf),
            Output::Error(stderr) => stderr.write(buf),
        }
    }

    // No buffer is before the system's calls.
    fn flush(&mut self) -> io::Result<()> {
        Ok(())
    }
}

impl FileSink {
    /// Opens a file to write it from the start. Makes one if it is missing, and empties an existing one.
    /// Fails if the system does.
    pub fn open<R: Files<File = File>>(rt: &R, path: &str) -> Result<FileSink, Failed>
        ensures { IfOk result (λ s. ⟦<FileSink as Sink>⟧.faults s ≡ 0) }
    {
        let opened = OpenOptions::new()
            .write(true)
            .create(true)
            .truncate(true)
            .open(rt, path);
        match opened {
            Ok(file) => Ok(FileSink::over(Output::File(file))),
            Err(_) => Err(Failed),
        }
    }

    /// Opens a file as `open` does, but refuses the container, before anything is emptied. Says what is in the
    /// way.
    pub fn open_beside<R: Files<File = File>>(
        rt: &R,
        path: &str,
        container: &FileStore,
    ) -> Result<FileSink, Obstacle>
        ensures { IfOk result (λ s. ⟦<FileSink as Sink>⟧.faults s ≡ 0) }
    {
        let file = OpenOptions::new().write(true).create(true).open(rt, path)?;
        container.refuse_own(&file)?;
        // A pipe or a device has no length.
        if file.metadata()?.is_file() {
            file.set_len(0)?;
        }
        Ok(FileSink::over(Output::File(file)))
    }

    /// The standard output, whatever it is.
    pub fn output(stdout: Stdout) -> FileSink
        ensures { ⟦<FileSink as Sink>⟧.faults result ≡ 0 }
    {
        FileSink::over(Output::Standard(stdout))
    }

    /// The standard error, whatever it is.
    pub fn error(stderr: Stderr) -> FileSink
        ensures { ⟦<FileSink as Sink>⟧.faults result ≡ 0 }
    {
        FileSink::over(Output::Error(stderr))
    }

    fn over(output: Output) -> FileSink
        ensures { ⟦<FileSink as Sink>⟧.faults result ≡ 0 }
    {
        FileSink {
            stream: StreamSink::new(output),
        }
    }
}

impl Sink for FileSink {
    ghost contents = { λ _. None };

    ghost faults = { λ s. s.stream.faults };

    fn faults(&self) -> u64 {
        self.stream.faults()
    }

    /// Each error is a failed call: nothing here runs out of memory.
    fn write(&mut self, piece: &[u8]) -> Result<usize, OutError>
        ensures within { IfOk result (λ n. n ≤ length piece.now) }
        ensures stuck { IfOk result (λ n. n ≡ 0 → length piece.now ≡ 0) }
        ensures cause { HasCause self.old.stream.faults self.new.stream.faults (IsErr result) }
        ensures failed { OnErr result (IsErrOf result OutError.Failed) }
        ensures no_fault { OnOk result (self.new.stream.faults ≡ self.old.stream.faults) }
    {
        self.stream.write(piece)
    }
}
