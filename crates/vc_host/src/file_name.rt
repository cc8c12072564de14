//! Where a file that was made is: what has to be synced, and perhaps removed.
use std::fs::{self, File};
use std::io;
use std::rt::Files;

/// The whole path of a file, without links, and its folder.
#[derive(Drop)]
pub(crate) struct FileName {
    path: String,
    folder: File,
}

impl FileName {
    /// The name of the file that a path leads to. Fails if there is none, or if its folder can't be read.
    pub(crate) fn of<R: Files<File = File> + AllocGlobal>(
        rt: &R,
        path: &str,
    ) -> io::Result<FileName> {
        let path = fs::canonicalize(rt, path)?.into_string();
        let folder = match path.rfind('/') {
            Some(0) | None => "/",
            Some(end) => &path[..end],
        };
        let folder = File::open(rt, folder)?;
        Ok(FileName { path, folder })
    }

    pub(crate) fn path(&self) -> &str {
        self.path.as_str()
    }

    /// Syncs the folder.
    pub(crate) fn sync(&self) -> io::Result<()> {
        self.folder.sync_all()
    }
}
