//! The program `vcserve`: real files, real output, and nothing else.
//!
//! Options that name a file with a secret become the options that they stand for. The arguments then go to
//! a top call of `vc_app` with the container that they name and with the standard output, and for `serve` with its
//! clients' files. The status that comes back is the exit status, and if it isn't 0, one line on the standard error
//! says why.
//!
//! A file that is opened takes the lowest descriptor that is free. Where the standard input, output or
//! error is closed, that is its number, and what is printed would be written into a container. So
//! `main` opens /dev/null three times first, and keeps it open until the end.
#![tactic(auto)]

use cmd_words::{Command, WordsError, read_words};
use std::fs::File;
use std::io::IsTerminal;
use std::process::ExitCode;
use std::rt::{Env, Files};
use std::sync::Wait;
use std::thread::Threads;
use std::{env, io};
use vc_app::{Status, run_plain};
use vc_host::StreamSink;
use vc_outside::{Store, SureStore};

mod clients;
mod container;
mod reasons;
mod secrets;
mod serve;
mod synopsis;

use crate::clients::{Streams, are_pairs};
use crate::container::{Refusal, leave, opened, show_progress, tell_refusal, tell_trouble};
use crate::reasons::explain;
use crate::secrets::{SecretError, overwrite, overwrite_secrets, warn, with_secrets};
use crate::serve::{drill, serve};

/// How the program ends.
#[derive(Clone, Copy)]
enum Ending {
    Status(Status),
    /// The files for clients aren't pairs, or the command has no clients.
    Files,
    /// An option that names a file with a secret has no path.
    NoPath,
    /// A file that has to hold a secret doesn't.
    SecretFile,
}

impl From<SecretError> for Ending {
    fn from(error: SecretError) -> Ending {
        match error {
            SecretError::Usage => Ending::NoPath,
            SecretError::File => Ending::SecretFile,
            SecretError::NoMemory => Ending::Status(Status::NoMemory),
        }
    }
}

impl Ending {
    fn code(&self) -> u8 {
        match self {
            Ending::Status(status) => status.code(),
            Ending::Files | Ending::NoPath | Ending::SecretFile => Status::Usage.code(),
        }
    }
}

fn main(rt: HostRuntime) -> ExitCode {
    let kept = keep_standard(&rt);
    let is_person = rt.stderr().is_terminal();
    let streams = Streams {
        stdin: rt.stdin(),
        stdout: rt.stdout(),
        stderr: rt.stderr(),
    };
    let ending = match words(&rt) {
        Ok(words) => {
            let ending = if kept.is_ok() {
                run(&rt, streams, words.as_slice(), is_person)
            } else {
                ended(&rt, Ending::Status(Status::DiskFault), &[], false)
            };
            overwrite(words);
            ending
        }
        Err(status) => ended(&rt, Ending::Status(status), &[], false),
    };
    ExitCode::from(ending.code())
}

// Tells how the program ends, with the reason if there is a person to read it.
fn ended<R: Eprint + AllocGlobal>(
    rt: &R,
    ending: Ending,
    words: &[String],
    is_person: bool,
) -> Ending {
    // If the standard error is closed, nothing is left to tell it to.
    let told = tell(rt, ending);
    if is_person && told.is_ok() {
        let _ = explain(rt, ending, words);
    }
    ending
}

// Files that are no container, for those of the descriptors 0 to 2 that are closed. They can only be
// read, so that output to a closed standard output is a fault as before.
fn keep_standard<R: Files<File = File>>(rt: &R) -> io::Result<(File, File, File)> {
    let first = File::open(rt, "/dev/null")?;
    let second = File::open(rt, "/dev/null")?;
    let third = File::open(rt, "/dev/null")?;
    Ok((first, second, third))
}

// The arguments after the program's name. If one isn't text, they are no command.
fn words<R: Env + AllocGlobal>(rt: &R) -> Result<Vec<String>, Status> {
    let all = match env::args(rt) {
        Ok(all) => all,
        Err(error) if error.kind() == io::ErrorKind::OutOfMemory => return Err(Status::NoMemory),
        Err(_) => return Err(Status::Usage),
    };
    all.skip(1)
        .collect(rt.alloc())
        .map_err(|_| Status::NoMemory)
}

// The arguments, with the secrets of the files that they name.
fn run<R: Files<File = File> + Print + Eprint + AllocGlobal + Threads + Wait + Sync>(
    rt: &R,
    streams: Streams,
    named: &[String],
    is_person: bool,
) -> Ending {
    if !has_right_files(named) {
        return ended(rt, Ending::Files, command_in(named), is_person);
    }
    let mut exposed = Vec::new(rt.alloc());
    let all = match with_secrets(rt, named, &mut exposed) {
        Ok(all) => all,
        Err(error) => return ended(rt, Ending::from(error), command_in(named), is_person),
    };
    let words = command_in(all.as_slice());
    let files = files_in(all.as_slice());
    let ending = run_command(rt, streams, words, files, exposed.as_slice(), is_person);
    overwrite(all);
    ending
}

// The arguments up to the first one that is `--` are the command. Those after it are pairs of files for the
// clients of `serve`.
fn command_in(all: &[String]) -> &[String] {
    let end = all.iter().position(|word| word.as_str() == "--");
    &all[..end.unwrap_or(all.len())]
}

fn files_in(all: &[String]) -> &[String] {
    match all.iter().position(|word| word.as_str() == "--") {
        Some(end) => &all[end + 1..],
        None => &[],
    }
}

fn has_right_files(all: &[String]) -> bool {
    let files = files_in(all);
    files.is_empty() || is_serve(command_in(all)) && are_pairs(files)
}

fn is_serve(words: &[String]) -> bool {
    is_command(words, "serve")
}

fn is_command(words: &[String], name: &str) -> bool {
    match words.first() {
        Some(word) => word.as_str() == name,
        None => false,
    }
}

// The command that is read here names the container alone: its secrets are overwritten at once, and the top
// call reads them anew. Warnings of exposed files come after the container was opened: until then the standard
// error may be the container.
fn run_command<R: Files<File = File> + Print + Eprint + AllocGlobal + Threads + Wait + Sync>(
    rt: &R,
    streams: Streams,
    words: &[String],
    files: &[String],
    exposed: &[String],
    is_person: bool,
) -> Ending {
    match read_words(rt.alloc(), words) {
        Ok(mut command) => {
            overwrite_secrets(&mut command);
            match command.path() {
                Some(path) => run_over_file(
                    rt, streams, &command, path, words, files, exposed, is_person,
                ),
                None => run_over_nothing(rt, words, exposed, is_person),
            }
        }
        Err(WordsError::Usage) => run_over_nothing(rt, words, exposed, is_person),
        Err(WordsError::NoMemory) => {
            ended(rt, Ending::Status(Status::NoMemory), words, is_person)
        }
    }
}

fn run_over_file<R: Files<File = File> + Print + Eprint + AllocGlobal + Threads + Wait + Sync>(
    rt: &R,
    streams: Streams,
    command: &Command,
    path: &str,
    words: &[String],
    files: &[String],
    exposed: &[String],
    is_person: bool,
) -> Ending {
    match opened(rt, command, path) {
        Ok(mut disk) => {
            warn(rt, exposed);
            if let Command::Serve { .. } = command {
                return serve(rt, streams, path, words, files, disk, is_person);
            }
            if is_person {
                // A terminal that can't be opened shows no progress.
                let _ = show_progress(rt, command, &mut disk);
            }
            let (status, mut disk) = call(rt, words, disk);
            disk.end_progress();
            leave(rt, status, &disk);
            let ending = ended(rt, Ending::Status(status), words, is_person);
            if is_person {
                let _ = tell_trouble(rt, path, &disk);
            }
            ending
        }
        // The line would be written into the container.
        Err(Refusal::OwnError) => Ending::Status(Status::DiskFault),
        Err(refusal) => {
            warn(rt, exposed);
            let ending = ended(rt, Ending::Status(Status::DiskFault), words, is_person);
            if is_person {
                let _ = tell_refusal(rt, path, &refusal);
            }
            ending
        }
    }
}

fn run_over_nothing<R: Print + Eprint + AllocGlobal + Threads + Wait + Sync>(
    rt: &R,
    words: &[String],
    exposed: &[String],
    is_person: bool,
) -> Ending {
    warn(rt, exposed);
    let disk = SureStore::new(Vec::new(rt.alloc()));
    let status = if is_command(words, "drill") {
        drill(rt, words, disk)
    } else {
        let (status, _) = call(rt, words, disk);
        status
    };
    ended(rt, Ending::Status(status), words, is_person)
}

// The top call over the standard output.
fn call<R: Print + AllocGlobal + Threads + Sync, D: Store + Drop>(
    rt: &R,
    words: &[String],
    disk: D,
) -> (Status, D) {
    let out = StreamSink::new(io::writer(rt));
    let (status, disk, _) = run_plain(rt, rt.alloc(), words, disk, out);
    (status, disk)
}

fn tell<R: Eprint>(rt: &R, ending: Ending) -> io::Result<()> {
    let status = match ending {
        Ending::Status(status) => status,
        Ending::Files | Ending::NoPath => Status::Usage,
        Ending::SecretFile => return eprintln!(rt; "vcserve: secret file"),
    };
    match status {
        Status::Done => Ok(()),
        Status::Usage => eprintln!(rt; "vcserve: usage"),
        Status::NoHeader => eprintln!(rt; "vcserve: no valid header"),
        Status::NoHidden => eprintln!(rt; "vcserve: no valid hidden header"),
        Status::Length(len) => eprintln!(rt; "vcserve: container length {len}"),
        Status::BadSize => eprintln!(rt; "vcserve: bad size"),
        Status::DiskFault => eprintln!(rt; "vcserve: container fault"),
        Status::OutFault => eprintln!(rt; "vcserve: output fault"),
        Status::NoMemory => eprintln!(rt; "vcserve: no memory"),
        Status::ClientCut(client) => eprintln!(rt;
            "vcserve: client {client}: input ends inside a request"
        ),
        Status::ClientMagic(client, bytes) => {
            let magic = u32::from_be_bytes(bytes);
            eprintln!(rt; "vcserve: client {client}: bad magic {magic:08x}")
        }
        Status::ClientFault(client) => eprintln!(rt;
            "vcserve: client {client}: input or output fault"
        ),
        Status::ClientHand(client, _) => eprintln!(rt;
            "vcserve: client {client}: handshake refused"
        ),
    }
}
