//! The commands, with their values.
ghost use Rattle.std.specs.Prelude.{◌≡◌, option_map};
ghost use Rattle.cmd_words.specs.Meaning.{meaning, path_of};

use algorithm_names::Algorithm;
use kdf_hmac::{Password, Prf};
use vc_layout::Kind;

/// What the program is asked to do. Sizes are in bytes, `first` and `count` in sectors, and a PIM
/// of 0 is none.
#[derive(Drop)]
pub enum Command {
    Format {
        path: String,
        size: u64,
        password: Password,
        random: [u8; 32],
        pim: u32,
        prf: Prf,
        algorithm: Algorithm,
        /// The size of a sector in bytes.
        sector: u32,
    },
    Hide {
        path: String,
        size: u64,
        password: Password,
        random: [u8; 32],
        pim: u32,
        prf: Prf,
        algorithm: Algorithm,
        /// The size of a sector in bytes.
        sector: u32,
    },
    Info {
        path: String,
        password: Password,
        pim: u32,
        kind: Kind,
    },
    Cat {
        path: String,
        first: u64,
        count: u64,
        password: Password,
        pim: u32,
        kind: Kind,
    },
    Passwd {
        path: String,
        password: Password,
        new_password: Password,
        random: [u8; 32],
        pim: u32,
        new_pim: u32,
        /// None keeps the PRF of the header that is opened.
        new_prf: Option<Prf>,
        kind: Kind,
    },
    Restore {
        path: String,
        password: Password,
        random: [u8; 32],
        pim: u32,
        kind: Kind,
    },
    Expand {
        path: String,
        size: u64,
        password: Password,
        random: [u8; 32],
        pim: u32,
        /// The user says that the container has no hidden volume. Always true: without it there is no command.
        no_hidden: bool,
    },
    Serve {
        path: String,
        password: Password,
        pim: u32,
        kind: Kind,
        /// The password that opens the hidden volume, with its PIM.
        protect: Option<(Password, u32)>,
        helpers: u32,
        workers: u32,
        /// Each client's bytes begin with the handshake of NBD.
        handshake: bool,
    },
    Drill {
        n: u64,
    },
}

impl Command {
    /// The container that the command names. None for `drill`, which makes its own.
    pub fn path(&self) -> Option<&str>
        ensures { option_map (λ s. s.now) result ≡ path_of (meaning self.now) }
    {
        match self {
            Command::Format { path, .. }
            | Command::Hide { path, .. }
            | Command::Info { path, .. }
            | Command::Cat { path, .. }
            | Command::Passwd { path, .. }
            | Command::Restore { path, .. }
            | Command::Expand { path, .. }
            | Command::Serve { path, .. } => Some(path.as_str()),
            Command::Drill { .. } => None,
        }
    }
}
