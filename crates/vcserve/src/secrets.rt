//! Secrets that are in files.
//!
//! Which options name a file, and what its content is as a secret, is `secret_options`' to say. Here the files
//! are read, and the buffers, texts and commands that held a secret are overwritten when they aren't needed any
//! more. The system, the compiler or the command that `run_plain` makes of the texts may have other copies.
ghost use Rattle.std.specs.Prelude.{◌≡◌, ◌≤◌, IfOk, length};

use cmd_words::Command;
use kdf_hmac::Password;
use secret_options::{
    ArgumentsError, Part, READ_AT_MOST, Secret, digits_of, filled, parts_of, password_in,
};
use std::fs::File;
use std::io::{self, ErrorKind, IsTerminal, Read};
use std::os::unix::fs::MetadataExt;
use std::rt::Files;

/// Why there are no arguments with the secrets.
pub(crate) enum SecretError {
    /// An option that names a file has no path.
    Usage,
    /// A file can't be read, or what it holds is no such secret.
    File,
    /// Out of memory.
    NoMemory,
}

impl From<ArgumentsError> for SecretError {
    fn from(error: ArgumentsError) -> SecretError {
        match error {
            ArgumentsError::Missing => SecretError::Usage,
            ArgumentsError::NoMemory => SecretError::NoMemory,
        }
    }
}

/// The arguments with the secrets of the files that they name. The paths of files that others may read are
/// added to `exposed`: they are told by `warn` once it is known that the standard error isn't the container.
pub(crate) fn with_secrets<R: Files<File = File> + AllocGlobal>(
    rt: &R,
    words: &[String],
    exposed: &mut Vec<String>,
) -> Result<Vec<String>, SecretError> {
    let parts = parts_of(rt.alloc(), words)?;
    let mut secrets = Vec::new(rt.alloc());
    let read = read_all(rt, parts.as_slice(), &mut secrets, exposed);
    let words = match read {
        Ok(()) => filled(rt.alloc(), parts.as_slice(), secrets.as_slice()).map_err(
            SecretError::from,
        ),
        Err(error) => Err(error),
    };
    overwrite(secrets);
    overwrite_parts(parts);
    words
}

/// Warns of files with a password that others may read.
pub(crate) fn warn<R: Eprint>(rt: &R, exposed: &[String]) {
    for path in exposed {
        // If the standard error is closed, nobody is there to be warned.
        let _ = eprintln!(rt; "vcserve: others may read the secret file {path}");
    }
}

/// Overwrites texts before they are dropped.
pub(crate) fn overwrite(texts: Vec<String>) {
    for text in texts {
        overwrite_text(text);
    }
}

fn overwrite_text(text: String) {
    let mut bytes = text.into_bytes();
    bytes.fill(0);
}

// A secret may be an argument beside a file.
fn overwrite_parts(parts: Vec<Part>) {
    for part in parts {
        match part {
            Part::Plain(text) | Part::Held(_, text) => overwrite_text(text),
        }
    }
}

/// Overwrites the passwords and the random key of a command, all 128 bytes of a password's buffer.
pub(crate) fn overwrite_secrets(command: &mut Command) {
    overwrite_key(command);
    overwrite_first(command);
    overwrite_second(command);
}

fn overwrite_key(command: &mut Command) {
    match command {
        Command::Format { random, .. } => random.fill(0),
        Command::Hide { random, .. } => random.fill(0),
        Command::Passwd { random, .. } => random.fill(0),
        Command::Restore { random, .. } => random.fill(0),
        Command::Expand { random, .. } => random.fill(0),
        _ => {}
    }
}

fn overwrite_first(command: &mut Command) {
    match command {
        Command::Format { password, .. } => overwrite_password(password),
        Command::Hide { password, .. } => overwrite_password(password),
        Command::Info { password, .. } => overwrite_password(password),
        Command::Cat { password, .. } => overwrite_password(password),
        Command::Passwd { password, .. } => overwrite_password(password),
        Command::Restore { password, .. } => overwrite_password(password),
        Command::Expand { password, .. } => overwrite_password(password),
        Command::Serve { password, .. } => overwrite_password(password),
        Command::Drill { .. } => {}
    }
}

fn overwrite_second(command: &mut Command) {
    match command {
        Command::Passwd { new_password, .. } => overwrite_password(new_password),
        Command::Serve { protect, .. } => {
            if let Some((password, _)) = protect {
                overwrite_password(password);
            }
        }
        _ => {}
    }
}

// By another password, of one byte, in the place of this one.
fn overwrite_password(password: &mut Password) {
    if let Some(other) = Password::new(&[0]) {
        *password = other;
    }
}

// Reads the files in their order.
fn read_all<R: Files<File = File> + AllocGlobal>(
    rt: &R,
    parts: &[Part],
    secrets: &mut Vec<String>,
    exposed: &mut Vec<String>,
) -> Result<(), SecretError> {
    for part in parts {
        if let Part::Held(secret, path) = part {
            let text = read_secret(rt, *secret, path.as_str(), exposed)?;
            secrets.push(text).map_err(|_| SecretError::NoMemory)?;
        }
    }
    Ok(())
}

fn read_secret<R: Files<File = File> + AllocGlobal>(
    rt: &R,
    secret: Secret,
    path: &str,
    exposed: &mut Vec<String>,
) -> Result<String, SecretError> {
    let Ok(mut file) = File::open(rt, path) else {
        return Err(SecretError::File);
    };
    if matches!(secret, Secret::Random) {
        return read_key(rt, &mut file);
    }
    if may_others_read(&file) {
        let path = String::from_str(rt.alloc(), path).map_err(|_| SecretError::NoMemory)?;
        exposed.push(path).map_err(|_| SecretError::NoMemory)?;
    }
    read_password(rt, &mut file)
}

// The first 32 bytes, as digits.
fn read_key<R: AllocGlobal>(rt: &R, file: &mut File) -> Result<String, SecretError> {
    let mut key = [0; 32];
    let read = file.read_exact(&mut key);
    let digits = match read {
        Ok(()) => digits_of(rt.alloc(), &key).map_err(|_| SecretError::NoMemory),
        Err(_) => Err(SecretError::File),
    };
    key.fill(0);
    digits
}

fn read_password<R: AllocGlobal>(rt: &R, file: &mut File) -> Result<String, SecretError> {
    let mut buffer = [0; READ_AT_MOST];
    let read = read_up_to(file, &mut buffer);
    let text = match read {
        Ok(len) => match password_in(&buffer[..len]) {
            Some(text) => String::from_str(rt.alloc(), text).map_err(|_| SecretError::NoMemory),
            None => Err(SecretError::File),
        },
        Err(_) => Err(SecretError::File),
    };
    buffer.fill(0);
    text
}

// How many bytes were read: up to the file's end, or to the end of a line that is typed at a terminal.
fn read_up_to(file: &mut File, buffer: &mut [u8]) -> io::Result<usize>
    ensures within { IfOk result (λ n. n ≤ length buffer.new) }
    ensures as_long { length buffer.new ≡ length buffer.old }
{
    let is_terminal = file.is_terminal();
    let mut len = 0;
    for _ in 0..u64::MAX {
        match file.read(&mut buffer[len..]) {
            Ok(0) => return Ok(len),
            Ok(more) => len += more,
            Err(error) if error.kind() == ErrorKind::Interrupted => {}
            Err(error) => return Err(error),
        }
        if is_terminal && buffer[..len].ends_with(b"\n") {
            return Ok(len);
        }
    }
    Ok(len)
}

// Whether the file's mode lets its group or others read it.
fn may_others_read(file: &File) -> bool {
    match file.metadata() {
        Ok(metadata) => metadata.is_file() && metadata.mode() & 0o044 != 0,
        Err(_) => false,
    }
}
