//! What a person at a terminal is told after the line that says why the program failed. No secret of a file, no
//! value of an option and no position that may belong to a password is told.
use crate::Ending;
use crate::synopsis::{COMMANDS, synopsis_of};
use cmd_words::{Fault, Reason, read_words, reason_of};
use nbd_hand::Refusal;
use secret_options::without_path;
use std::io;
use vc_app::Status;

/// Tells what can have been the reason, for these arguments up to `--`.
pub(crate) fn explain<R: Eprint + AllocGlobal>(
    rt: &R,
    ending: Ending,
    words: &[String],
) -> io::Result<()> {
    let command = match words.first() {
        Some(word) => word.as_str(),
        None => "",
    };
    match ending {
        Ending::Files => {
            eprintln!(rt;
                "  after `--` come pairs of files for the clients of serve, an input and an output each; `-` once in each place"
            )?;
            tell_synopsis(rt, command)
        }
        Ending::NoPath => tell_no_path(rt, words),
        Ending::SecretFile => {
            eprintln!(rt;
                "  a file has to hold a password of 1 to 128 bytes of UTF-8, or a key of 32 bytes"
            )
        }
        Ending::Status(Status::Usage) => explain_usage(rt, command, words),
        Ending::Status(Status::NoHeader) => {
            eprintln!(rt;
                "  a wrong password or PIM, another hash than sha512 and sha256, a cipher that isn't in the manual page,"
            )?;
            eprintln!(rt;
                "  a damaged header, or a container that was cut short all look like this"
            )?;
            if command == "restore" {
                return eprintln!(rt;
                    "  --kind hidden tries the hidden volume's backup header alone"
                );
            }
            if command == "expand" {
                return eprintln!(rt;
                    "  it opens the standard header alone; restore writes that from its backup"
                );
            }
            eprintln!(rt;
                "  --backup tries the backup headers, --kind hidden the hidden volume's header alone"
            )
        }
        Ending::Status(Status::NoHidden) => {
            eprintln!(rt;
                "  the standard header opens, but the protecting password and PIM open no hidden header"
            )?;
            eprintln!(rt;
                "  --protect-pim is the hidden volume's own PIM; without it there is none"
            )
        }
        Ending::Status(Status::ClientCut(_)) => {
            eprintln!(rt; "  that request had no effect; those before it had theirs")
        }
        Ending::Status(Status::ClientMagic(_, _)) => {
            eprintln!(rt;
                "  a request begins with 25609513; clients that begin with a handshake need --handshake"
            )
        }
        Ending::Status(Status::ClientFault(_)) => {
            eprintln!(rt; "  its input can't be read, or nothing takes the replies")
        }
        Ending::Status(Status::ClientHand(_, refusal)) => explain_refusal(rt, refusal),
        Ending::Status(Status::Length(_)) => {
            eprintln!(rt; "  a container has 262656 to 1152921504606846976 bytes")
        }
        Ending::Status(Status::BadSize) => explain_size(rt, command),
        _ => Ok(()),
    }
}

// Why a handshake was refused.
fn explain_refusal<R: Eprint>(rt: &R, refusal: Refusal) -> io::Result<()> {
    match refusal {
        Refusal::Flags(flags) => {
            eprintln!(rt;
                "  it sent the client flags {flags:08x}; only the two lowest bits are known"
            )
        }
        Refusal::Magic(_) => { eprintln!(rt; "  one of its options doesn't begin with IHAVEOPT") }
        Refusal::Name(len) => eprintln!(rt;
            "  it asked for an export whose name has {len} bytes; the only one has the empty name"
        ),
        Refusal::TooMany => {
            eprintln!(rt; "  it sent 1024 options, and none of them began a session")
        }
    }
}

/// Tells how every command is written.
pub(crate) fn tell_all<R: Eprint>(rt: &R) -> io::Result<()> {
    for command in COMMANDS {
        tell_synopsis(rt, command)?;
    }
    eprintln!(rt; "  a secret can be in a file: --password-file PATH, --random-file /dev/urandom")
}

/// Whether a person asks for help.
pub(crate) fn is_help(words: &[String]) -> bool {
    match words.first() {
        Some(word) => matches!(word.as_str(), "help" | "--help" | "-h"),
        None => true,
    }
}

// Which of the options that name a file has no path.
fn tell_no_path<R: Eprint>(rt: &R, words: &[String]) -> io::Result<()> {
    match without_path(words) {
        Some(secret) => {
            let option = secret.file_option();
            eprintln!(rt; "  no path: {option}; one that begins with `-` is written {option}=PATH")
        }
        None => Ok(()),
    }
}

fn tell_synopsis<R: Eprint>(rt: &R, command: &str) -> io::Result<()> {
    match synopsis_of(command) {
        Some(synopsis) => eprintln!(rt; "  {synopsis}"),
        None => Ok(()),
    }
}

fn explain_size<R: Eprint>(rt: &R, command: &str) -> io::Result<()> {
    match command {
        "format" => {
            eprintln!(rt;
                "  --size is a multiple of --sector, from 262144 plus one sector to 1099511627776"
            )
        }
        "hide" => {
            eprintln!(rt;
                "  --size is a multiple of --sector, from one sector to the container's length less 262144"
            )
        }
        "expand" => {
            eprintln!(rt;
                "  --size is a multiple of the sector size, above the container's length, to 1099511627776"
            )
        }
        _ => eprintln!(rt; "  the volume doesn't have these sectors; info tells its size"),
    }
}

fn explain_usage<R: Eprint + AllocGlobal>(
    rt: &R,
    command: &str,
    words: &[String],
) -> io::Result<()> {
    if is_help(words) {
        return tell_all(rt);
    }
    // `serve` is the only valid command line that is refused here: without clients, or with too many.
    if read_words(rt.alloc(), words).is_ok() {
        eprintln!(rt; "  serve needs the files of 1 to 16 clients: -- INPUT OUTPUT ..")?;
        return tell_synopsis(rt, command);
    }
    match reason_of(rt.alloc(), words) {
        Ok(Some(reason)) => tell_reason(rt, reason)?,
        _ => {}
    }
    tell_synopsis(rt, command)
}

fn tell_reason<R: Eprint>(rt: &R, reason: Reason<'_>) -> io::Result<()> {
    match reason {
        Reason::Nothing => tell_all(rt),
        Reason::NoCommand(word) => {
            let name = name_in(word);
            eprintln!(rt;
                "  no such command: {name}; there are format, hide, info, cat, passwd, restore, expand, serve and drill"
            )
        }
        Reason::NoOption(word, Some(nearest)) => {
            let name = name_in(word);
            eprintln!(rt; "  no such option: {name}; perhaps --{nearest}")
        }
        Reason::NoOption(word, None) => {
            let name = name_in(word);
            eprintln!(rt; "  no such option: {name}")
        }
        Reason::TooMany(word) => eprintln!(rt; "  one position too many: {word}"),
        Reason::AfterPassword(name) => {
            eprintln!(rt;
                "  one position too many after --{name}; a value with spaces is written in quotes"
            )
        }
        Reason::Twice(name) => eprintln!(rt; "  given twice: --{name}"),
        Reason::NoValue(name) => {
            eprintln!(rt;
                "  no value: --{name}; one that begins with `-` is written --{name}=VALUE"
            )
        }
        Reason::FlagValue(name) => eprintln!(rt; "  --{name} has no value"),
        Reason::NoPosition(name) => eprintln!(rt; "  {name} is missing"),
        Reason::NoSuchOption(name) => eprintln!(rt; "  --{name} is missing"),
        Reason::Value(name, fault) => tell_fault(rt, name, fault),
        Reason::PimAlone => eprintln!(rt; "  --protect-pim needs --protect"),
        Reason::ProtectHidden => eprintln!(rt; "  --protect and --kind hidden exclude each other"),
    }
}

// An option without its value, which may be a secret.
fn name_in(word: &str) -> &str {
    match word.split_once('=') {
        Some((name, _)) => name,
        None => word,
    }
}

fn tell_fault<R: Eprint>(rt: &R, name: &str, fault: Fault) -> io::Result<()> {
    match fault {
        Fault::Number => {
            eprintln!(rt; "  {name} isn't a number of 1 to 20 decimal digits below 2^64")
        }
        Fault::Range(least, most) => {
            eprintln!(rt; "  {name} isn't a number from {least} to {most}")
        }
        Fault::Password(len) => eprintln!(rt; "  {name} has {len} bytes and needs 1 to 128"),
        Fault::Key(len, digits) => {
            eprintln!(rt; "  {name} has {digits} hexadecimal digits in {len} bytes and needs 64")
        }
        Fault::Prf => eprintln!(rt; "  {name} is sha512 or sha256"),
        Fault::Algorithm => {
            eprintln!(rt;
                "  {name} is aes, serpent, twofish, aes-twofish, aes-twofish-serpent, serpent-aes, serpent-twofish-aes or twofish-serpent"
            )
        }
        Fault::Sector => eprintln!(rt; "  {name} is 512, 1024, 2048 or 4096"),
        Fault::Kind => eprintln!(rt; "  {name} is any, standard or hidden"),
    }
}
