//! A source over a file or the standard input.
ghost use Rattle.std.specs.Prelude.{◌≡◌, ◌≤◌, None, length, IfOk, OnOk, IsErr};
ghost use Rattle.vc_base.specs.Faults.{HasCause};

use crate::file_store::FileStore;
use crate::obstacle::Obstacle;
use crate::stream_source::StreamSource;
use std::fs::File;
use std::io::{self, ErrorKind, Read, Stdin};
use std::rt::Files;
use vc_outside::{Failed, Source};

/// A source over a file, which may be a pipe that has a name, or over the standard input. Contracts know nothing
/// of what is left in it.
#[derive(Drop)]
pub struct FileSource {
    stream: StreamSource<Input>,
}

// Where the bytes come from.
#[derive(Drop)]
enum Input {
    File(File),
    // As it is: opened anew by a name, a regular file would start again, and a socket can't be opened.
    Standard(Stdin),
}

impl Read for Input {
    fn read(&mut self, buf: &mut [u8]) -> io::Result<usize> {
        match self {
            Input::File(file) => file.read(buf),
            Input::Standard(stdin) => stdin.read(buf),
        }
    }
}

impl FileSource {
    /// Opens an existing file to read it from the start. A pipe is awaited until a program writes to it. Fails if
    /// there is none, if it is a folder, or if the system fails.
    pub fn open<R: Files<File = File>>(rt: &R, path: &str) -> Result<FileSource, Failed>
        ensures { IfOk result (λ s. ⟦<FileSource as Source>⟧.faults s ≡ 0) }
    {
        match readable(rt, path) {
            Ok(file) => Ok(FileSource::over(Input::File(file))),
            Err(_) => Err(Failed),
        }
    }

    /// Opens a file as `open` does, and refuses the container. Says what is in the way.
    pub fn open_beside<R: Files<File = File>>(
        rt: &R,
        path: &str,
        container: &FileStore,
    ) -> Result<FileSource, Obstacle>
        ensures { IfOk result (λ s. ⟦<FileSource as Source>⟧.faults s ≡ 0) }
    {
        let file = readable(rt, path)?;
        container.refuse_own(&file)?;
        Ok(FileSource::over(Input::File(file)))
    }

    /// Takes the standard input, whatever it is, and refuses the container. That it is the container is seen at
    /// `/dev/stdin`.
    pub fn standard_beside<R: Files<File = File>>(
        rt: &R,
        stdin: Stdin,
        container: &FileStore,
    ) -> Result<FileSource, Obstacle>
        ensures { IfOk result (λ s. ⟦<FileSource as Source>⟧.faults s ≡ 0) }
    {
        if container.is_at(rt, "/dev/stdin") {
            return Err(Obstacle::Container);
        }
        Ok(FileSource::over(Input::Standard(stdin)))
    }

    fn over(input: Input) -> FileSource
        ensures { ⟦<FileSource as Source>⟧.faults result ≡ 0 }
    {
        FileSource {
            stream: StreamSource::new(input),
        }
    }
}

// A file that is open for reading. A folder can be opened too, but not be read.
fn readable<R: Files<File = File>>(rt: &R, path: &str) -> io::Result<File> {
    let file = File::open(rt, path)?;
    if file.metadata()?.is_dir() {
        return Err(io::Error::from(ErrorKind::IsADirectory));
    }
    Ok(file)
}

impl Source for FileSource {
    ghost left = { λ _. None };

    ghost faults = { λ s. s.stream.faults };

    fn faults(&self) -> u64 {
        self.stream.faults()
    }

    fn read(&mut self, buf: &mut [u8]) -> Result<usize, Failed>
        ensures within { IfOk result (λ n. n ≤ length buf.old) }
        ensures cause { HasCause self.old.stream.faults self.new.stream.faults (IsErr result) }
        ensures no_fault { OnOk result (self.new.stream.faults ≡ self.old.stream.faults) }
    {
        self.stream.read(buf)
    }
}
