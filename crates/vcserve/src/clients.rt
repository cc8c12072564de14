//! The clients of `serve`: the files that the arguments after `--` name, an input and an output for each.
//!
//! `-` is the standard input or the standard output, whatever it is, and only one client can have it. The files are
//! opened in the order in which they are named: to open a pipe waits for its other end, so a client that opens its
//! own pipes in this order too is never waited for in vain.
use std::fs::File;
use std::io::{self, Stderr, Stdin, Stdout};
use std::rt::Files;
use vc_host::{FileSink, FileSource, FileStore, Obstacle};
use vc_outside::Client;

/// The standard streams, which a client may have.
#[derive(Clone, Copy)]
pub(crate) struct Streams {
    pub(crate) stdin: Stdin,
    pub(crate) stdout: Stdout,
    pub(crate) stderr: Stderr,
}

/// Why the clients have no files.
#[derive(Drop)]
pub(crate) enum ClientRefusal<'a> {
    /// What is in the way of the file at this path.
    File(&'a str, Obstacle),
    NoMemory,
}

/// Whether these are pairs of files, with each standard stream at most once.
pub(crate) fn are_pairs(files: &[String]) -> bool {
    let (pairs, rest) = files.as_chunks::<2>();
    let mut has_input = false;
    let mut has_output = false;
    for [input, output] in pairs {
        if is_standard(input) && has_input || is_standard(output) && has_output {
            return false;
        }
        has_input |= is_standard(input);
        has_output |= is_standard(output);
    }
    rest.is_empty()
}

fn is_standard(file: &str) -> bool {
    file == "-"
}

/// Whether the replies to a client go to the standard output.
pub(crate) fn has_output(files: &[String]) -> bool {
    let (pairs, _) = files.as_chunks::<2>();
    pairs.iter().any(|[_, output]| is_standard(output))
}

/// Opens the files of all clients. None may be the container.
pub(crate) fn clients_of<'a, R: Files<File = File> + AllocGlobal>(
    rt: &R,
    streams: Streams,
    files: &'a [String],
    container: &FileStore,
) -> Result<Vec<Client<FileSource, FileSink>>, ClientRefusal<'a>> {
    let mut clients = Vec::new(rt.alloc());
    let (pairs, _) = files.as_chunks::<2>();
    for [input, output] in pairs {
        let source = source_at(rt, streams, input.as_str(), container).map_err(
            |obstacle| ClientRefusal::File(input.as_str(), obstacle),
        )?;
        let sink = sink_at(rt, streams, output.as_str(), container).map_err(
            |obstacle| ClientRefusal::File(output.as_str(), obstacle),
        )?;
        clients
            .push(Client { source, sink })
            .map_err(|_| ClientRefusal::NoMemory)?;
    }
    Ok(clients)
}

fn source_at<R: Files<File = File>>(
    rt: &R,
    streams: Streams,
    path: &str,
    container: &FileStore,
) -> Result<FileSource, Obstacle> {
    if is_standard(path) {
        return FileSource::standard_beside(rt, streams.stdin, container);
    }
    FileSource::open_beside(rt, path, container)
}

// That the standard output isn't the container is known since that was opened.
fn sink_at<R: Files<File = File>>(
    rt: &R,
    streams: Streams,
    path: &str,
    container: &FileStore,
) -> Result<FileSink, Obstacle> {
    if is_standard(path) {
        return Ok(FileSink::output(streams.stdout));
    }
    FileSink::open_beside(rt, path, container)
}

/// Tells a person why a client has no files.
pub(crate) fn tell_client_refusal<R: Eprint>(
    rt: &R,
    refusal: &ClientRefusal<'_>,
) -> io::Result<()> {
    match refusal {
        ClientRefusal::File(path, Obstacle::Container) => {
            eprintln!(rt; "  {path}: a client's file is the container")
        }
        ClientRefusal::File(path, Obstacle::System(error)) => {
            eprintln!(rt; "  {path}: open: {error}")
        }
        _ => Ok(()),
    }
}
