//! The container that a command names: how it is opened, and what becomes of its file.
use cmd_words::Command;
use std::fs::File;
use std::io;
use std::rt::Files;
use vc_app::Status;
use vc_host::{FileStore, Obstacle, Purpose};
use vc_layout::GROUP;
use vc_outside::Store;

/// Why a container isn't opened.
#[derive(Drop)]
pub(crate) enum Refusal {
    Obstacle(Obstacle),
    /// The standard output goes into it: what is printed would overwrite it.
    OwnOutput,
    /// The standard error goes into it, so nobody can be told.
    OwnError,
}

impl From<Obstacle> for Refusal {
    fn from(obstacle: Obstacle) -> Refusal {
        Refusal::Obstacle(obstacle)
    }
}

/// The container at the path that the command names. `format` makes it if it is missing; `info` and `cat` can
/// only read it.
pub(crate) fn opened<R: Files<File = File> + AllocGlobal>(
    rt: &R,
    command: &Command,
    path: &str,
) -> Result<FileStore, Refusal> {
    let purpose = match command {
        Command::Format { .. } => Purpose::Making,
        Command::Info { .. } | Command::Cat { .. } => Purpose::Reading,
        _ => Purpose::Writing,
    };
    let mut disk = FileStore::open_for(rt, path, purpose)?;
    if disk.is_at(rt, "/dev/stderr") {
        return Err(Refusal::OwnError);
    }
    if disk.is_at(rt, "/dev/stdout") {
        return Err(Refusal::OwnOutput);
    }
    disk.find_name(rt, path)?;
    Ok(disk)
}

/// Tells a person how much of a long `format` or `expand` is done.
pub(crate) fn show_progress<R: Files<File = File>>(
    rt: &R,
    command: &Command,
    disk: &mut FileStore,
) -> io::Result<()> {
    match command {
        Command::Format { size, .. } => disk.tell_progress(rt, "/dev/stderr", *size),
        Command::Expand { size, .. } => {
            // The new end begins where the backup headers are.
            let kept = disk.len().saturating_sub(GROUP);
            disk.tell_progress(rt, "/dev/stderr", size.saturating_sub(kept))
        }
        _ => Ok(()),
    }
}

/// Removes a file that `format` made for a container, if it made no container in it.
pub(crate) fn leave<R: Files<File = File>>(rt: &R, status: Status, disk: &FileStore) {
    match status {
        Status::Done | Status::OutFault => {}
        // A file that can't be removed stays where it is; the status has told that it is no container.
        _ => {
            let _ = disk.discard(rt);
        }
    }
}

/// Tells a person why the container at a path wasn't opened.
pub(crate) fn tell_refusal<R: Eprint>(rt: &R, path: &str, refusal: &Refusal) -> io::Result<()> {
    match refusal {
        Refusal::OwnOutput => eprintln!(rt; "  {path}: the standard output goes into it"),
        Refusal::OwnError => Ok(()),
        Refusal::Obstacle(Obstacle::NotRegular) => {
            eprintln!(rt; "  {path}: it isn't a regular file")
        }
        Refusal::Obstacle(Obstacle::Locked) => {
            eprintln!(rt; "  {path}: another vcserve has it open")
        }
        Refusal::Obstacle(Obstacle::Container) => {
            eprintln!(rt; "  {path}: a client's file is the container")
        }
        Refusal::Obstacle(Obstacle::System(error)) => eprintln!(rt; "  {path}: open: {error}"),
    }
}

/// Tells a person which call on the container failed, if one did.
pub(crate) fn tell_trouble<R: Eprint>(rt: &R, path: &str, disk: &FileStore) -> io::Result<()> {
    match disk.trouble() {
        Some(trouble) => {
            let (call, error) = (trouble.call, &trouble.error);
            eprintln!(rt; "  {path}: {call}: {error}")
        }
        None => Ok(()),
    }
}
