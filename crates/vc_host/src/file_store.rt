//! A container in a file.
//!
//! What a file reads and writes is the system's: contracts know this store's length and count of faults,
//! and nothing of its contents.
ghost use Rattle.std.specs.Prelude.{◌≡◌, ◌≤◌, ◌+◌, ⊤, false, None, length, IfOk, OnOk, OnErr, IsErr, IsErrOf};
ghost use Rattle.std.proofs.lemmas.Bool.{false≢true};
ghost use Rattle.vc_base.specs.Faults.{HasCause, Rose};

use crate::file_name::FileName;
use crate::obstacle::{Obstacle, Purpose, Trouble};
use crate::progress::Progress;
use std::fs::{self, File, Metadata, OpenFile, OpenOptions};
use std::io::{self, ErrorKind};
use std::os::unix::fs::{FileExt, MetadataExt, OpenOptionsExt};
use std::rt::Files;
use vc_outside::{Failed, OutError, Store};

/// A container in a file, with its length as it was when the file was opened or last resized. While it is
/// open, its file is locked: no other store that may write is open over the same file, and if this one may
/// write, none at all. The system's lock binds only programs that ask for it.
#[derive(Drop)]
pub struct FileStore {
    file: File,
    len: u64,
    faults: u64,
    // The last fault, for a person.
    trouble: Option<Trouble>,
    progress: Option<Progress>,
    is_made: bool,
    // The name of a made file, once it is known.
    name: Option<FileName>,
}

impl FileStore {
    /// Opens an existing file to read and write, or only to read if writing isn't allowed. Fails if there
    /// is none, if it isn't a regular file, or if it is locked.
    pub fn open<R: Files<File = File>>(rt: &R, path: &str) -> Result<FileStore, Failed>
        ensures { IfOk result (λ s. ⟦<FileStore as Store>⟧.faults s ≡ 0) }
    {
        FileStore::open_for(rt, path, Purpose::Writing).map_err(|_| Failed)
    }

    /// Opens a file to read and write. Makes an empty one, for its owner alone, if it is missing, and leaves
    /// an existing one as it is. Fails if it isn't a regular file, or if it is locked.
    pub fn create<R: Files<File = File>>(rt: &R, path: &str) -> Result<FileStore, Failed>
        ensures { IfOk result (λ s. ⟦<FileStore as Store>⟧.faults s ≡ 0) }
    {
        FileStore::open_for(rt, path, Purpose::Making).map_err(|_| Failed)
    }

    /// Opens a file as `open` and `create` do, or for reading alone: then each write fails, and stores that
    /// only read may be open over the file beside this one. Says what is in the way.
    pub fn open_for<R: Files<File = File>>(
        rt: &R,
        path: &str,
        purpose: Purpose,
    ) -> Result<FileStore, Obstacle>
        ensures { IfOk result (λ s. ⟦<FileStore as Store>⟧.faults s ≡ 0) }
    {
        if matches!(purpose, Purpose::Making) {
            if let Some(file) = new_file(rt, path)? {
                return FileStore::over_made(rt, path, file);
            }
        }
        // To open a pipe would wait for its other end.
        if !fs::metadata(rt, path)?.is_file() {
            return Err(Obstacle::NotRegular);
        }
        let mut options = OpenOptions::new();
        options
            .read(true)
            .write(!matches!(purpose, Purpose::Reading));
        let file = match options.open(rt, path) {
            Err(error) if matches!(purpose, Purpose::Writing) && forbids_writing(error.kind()) => {
                File::open(rt, path)?
            }
            opened => opened?,
        };
        FileStore::over(file, purpose)
    }

    /// Finds the name of a file that `create` made, for `sync` and `discard`. Does nothing for another file.
    /// Fails if the system does, or if memory runs out, and then tries to remove the file.
    pub fn find_name<R: Files<File = File> + AllocGlobal>(
        &mut self,
        rt: &R,
        path: &str,
    ) -> Result<(), Obstacle>
        ensures len { self.new.len ≡ self.old.len }
        ensures faults { self.new.faults ≡ self.old.faults }
    {
        if !self.is_made {
            return Ok(());
        }
        match FileName::of(rt, path) {
            Ok(name) => {
                self.name = Some(name);
                Ok(())
            }
            Err(error) => {
                let _ = self.remove_at(rt, path);
                Err(Obstacle::System(error))
            }
        }
    }

    // Removes the file at a path, if that names this one without a link.
    fn remove_at<R: Files<File = File>>(&self, rt: &R, path: &str) -> io::Result<()> {
        remove_same(rt, path, &self.file.metadata()?)
    }

    /// Removes a file that `create` made, and only that, if its name is known and still names it.
    pub fn discard<R: Files<File = File>>(&self, rt: &R) -> io::Result<()> {
        match &self.name {
            Some(name) => self.remove_at(rt, name.path()),
            None => Ok(()),
        }
    }

    /// Whether a path names this file, as `/dev/stdout` does if the standard output goes there.
    pub fn is_at<R: Files<File = File>>(&self, rt: &R, path: &str) -> bool {
        match (self.file.metadata(), fs::metadata(rt, path)) {
            (Ok(this), Ok(that)) => is_same(&this, &that),
            _ => false,
        }
    }

    // Refuses a file that is open for a client, if it is this one by whatever name.
    pub(crate) fn refuse_own(&self, file: &File) -> Result<(), Obstacle> {
        if is_same(&self.file.metadata()?, &file.metadata()?) {
            return Err(Obstacle::Container);
        }
        Ok(())
    }

    // A store over a file that was made at a path. If that file can't be locked or looked at, it is removed again,
    // unless another program has locked it meanwhile. By a link it is left.
    fn over_made<R: Files<File = File>>(
        rt: &R,
        path: &str,
        file: File,
    ) -> Result<FileStore, Obstacle>
        ensures { IfOk result (λ s. ⟦<FileStore as Store>⟧.faults s ≡ 0) }
    {
        let made = file.metadata()?;
        match FileStore::over(file, Purpose::Making) {
            Ok(mut store) => {
                store.is_made = true;
                Ok(store)
            }
            Err(obstacle) => {
                if !matches!(obstacle, Obstacle::Locked) {
                    let _ = remove_same(rt, path, &made);
                }
                Err(obstacle)
            }
        }
    }

    // A store over an open file, if that is a regular one and can be locked. A file that was removed before it
    // was locked has no name any more, and what is written to it would be lost.
    fn over(file: File, purpose: Purpose) -> Result<FileStore, Obstacle>
        ensures { IfOk result (λ s. ⟦<FileStore as Store>⟧.faults s ≡ 0) }
    {
        match purpose {
            Purpose::Reading => file.try_lock_shared()?,
            _ => file.try_lock()?,
        }
        let metadata = file.metadata()?;
        if !metadata.is_file() {
            return Err(Obstacle::NotRegular);
        }
        if metadata.nlink() == 0 {
            return Err(Obstacle::Locked);
        }
        Ok(FileStore {
            file,
            len: metadata.len(),
            faults: 0,
            trouble: None,
            progress: None,
            is_made: false,
            name: None,
        })
    }

    /// Tells a person at the terminal at this path, such as `/dev/stderr`, how much of a long write of so many
    /// bytes is done, until the next `sync`.
    pub fn tell_progress<R: Files<File = File>>(
        &mut self,
        rt: &R,
        terminal: &str,
        total: u64,
    ) -> io::Result<()>
        ensures len { self.new.len ≡ self.old.len }
        ensures faults { self.new.faults ≡ self.old.faults }
    {
        self.progress = Progress::of(rt, terminal, total)?;
        Ok(())
    }

    fn tell_written(&mut self, bytes: u64)
        ensures len { self.new.len ≡ self.old.len }
        ensures faults { self.new.faults ≡ self.old.faults }
    {
        if let Some(progress) = &mut self.progress {
            progress.add(bytes);
        }
    }

    /// Removes the line that tells the progress.
    pub fn end_progress(&mut self)
        ensures len { self.new.len ≡ self.old.len }
        ensures faults { self.new.faults ≡ self.old.faults }
    {
        if let Some(progress) = &mut self.progress {
            progress.remove();
        }
        self.progress = None;
    }

    fn sync_with_name(&self) -> io::Result<()> {
        self.file.sync_all()?;
        match &self.name {
            Some(name) => name.sync(),
            None => Ok(()),
        }
    }

    /// The last call that failed, and why.
    pub fn trouble(&self) -> Option<&Trouble> {
        self.trouble.as_ref()
    }

    // Counts a failed call.
    fn failed(&mut self, call: &'static str, error: io::Error) -> Failed
        ensures len { self.new.len ≡ self.old.len }
        ensures later { self.old.faults ≤ self.new.faults }
        ensures rose { Rose self.old.faults self.new.faults }
    {
        self.faults = self.faults.saturating_add(1);
        self.trouble = Some(Trouble { call, error });
        Failed
    }
}

// Whether both are about one file.
fn is_same(this: &Metadata, that: &Metadata) -> bool {
    this.dev() == that.dev() && this.ino() == that.ino()
}

// Removes the file at a path, if that names the file that this is about, without a link.
fn remove_same<R: Files<File = File>>(rt: &R, path: &str, this: &Metadata) -> io::Result<()> {
    if is_same(this, &fs::symlink_metadata(rt, path)?) {
        fs::remove_file(rt, path)?;
    }
    Ok(())
}

// A new file for its owner alone, if there is none at a path. A link may lead to a file that is missing.
fn new_file<R: Files<File = File>>(rt: &R, path: &str) -> io::Result<Option<File>> {
    let mut options = OpenOptions::new();
    options.read(true).write(true).mode(0o600);
    match options.create_new(true).open(rt, path) {
        Ok(file) => return Ok(Some(file)),
        Err(error) if error.kind() == ErrorKind::AlreadyExists => {}
        Err(error) => return Err(error),
    }
    match fs::metadata(rt, path) {
        Err(error) if error.kind() == ErrorKind::NotFound => {
            Ok(Some(options.create_new(false).create(true).open(rt, path)?))
        }
        _ => Ok(None),
    }
}

// Whether a file wasn't opened only because it can't be written.
fn forbids_writing(kind: ErrorKind) -> bool {
    matches!(
        kind,
        ErrorKind::PermissionDenied | ErrorKind::ReadOnlyFilesystem | ErrorKind::ExecutableFileBusy
    )
}

impl Store for FileStore {
    ghost image = { λ _. None };

    ghost size = { λ s. s.len };

    ghost faults = { λ s. s.faults };

    ghost tells = { false };

    ghost may_leave = { λ _ _. ⊤ };

    ghost moment = { λ _. 0 };

    ghost left_since = { λ _ _ _. ⊤ };

    fn len(&self) -> u64 {
        self.len
    }

    fn faults(&self) -> u64 {
        self.faults
    }

    fn read_at(&mut self, at: u64, out: &mut [u8]) -> Result<(), Failed>
        requires { at + length out.old ≤ self.old.len }
        ensures size { self.new.len ≡ self.old.len }
        ensures cause { HasCause self.old.faults self.new.faults (IsErr result) }
        ensures no_fault { OnOk result (self.new.faults ≡ self.old.faults) }
    {
        match self.file.read_exact_at(out, at) {
            Ok(()) => Ok(()),
            Err(error) => Err(self.failed("read", error)),
        }
    }

    fn write_at(&mut self, at: u64, bytes: &[u8]) -> Result<(), Failed>
        requires { at + length bytes.now ≤ self.old.len }
        ensures size { self.new.len ≡ self.old.len }
        ensures cause { HasCause self.old.faults self.new.faults (IsErr result) }
        ensures no_fault { OnOk result (self.new.faults ≡ self.old.faults) }
    {
        match self.file.write_all_at(bytes, at) {
            Ok(()) => {
                self.tell_written(bytes.len() as u64);
                Ok(())
            }
            Err(error) => Err(self.failed("write", error)),
        }
    }

    /// Each error is a failed call: nothing here runs out of memory.
    fn set_len(&mut self, len: u64) -> Result<(), OutError>
        ensures size { OnOk result (self.new.len ≡ len) }
        ensures same_size { OnErr result (self.new.len ≡ self.old.len) }
        ensures cause { HasCause self.old.faults self.new.faults (IsErr result) }
        ensures failed { OnErr result (IsErrOf result OutError.Failed) }
        ensures no_fault { OnOk result (self.new.faults ≡ self.old.faults) }
    {
        match self.file.set_len(len) {
            Ok(()) => {
                self.len = len;
                Ok(())
            }
            Err(error) => {
                let Failed = self.failed("set the length", error);
                Err(OutError::Failed)
            }
        }
    }

    /// Syncs the folder of a made file too, so that its name isn't lost.
    fn sync(&mut self) -> Result<(), Failed>
        ensures size { self.new.len ≡ self.old.len }
        ensures cause { HasCause self.old.faults self.new.faults (IsErr result) }
        ensures no_fault { OnOk result (self.new.faults ≡ self.old.faults) }
    {
        self.end_progress();
        match self.sync_with_name() {
            Ok(()) => Ok(()),
            Err(error) => Err(self.failed("sync", error)),
        }
    }

    ghost image_is_whole = { λ _. tt };

    ghost counts_now = { λ _ _ _ _ _ _. tt };

    ghost only_now = { λ _ _ _ _. tt };

    ghost image_may_stay = { λ _ modelled. absurd (false≢true modelled) };
}
