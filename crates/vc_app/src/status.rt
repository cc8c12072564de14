//! How a call ended: one status for each cause. A command's own error says beside it which status it is.
ghost use Rattle.std.specs.Prelude.{◌≡◌};
ghost use Rattle.vc_app.specs.Status.{code_of, open_status, words_status, work_status};

use crate::counts::WorkError;
use cmd_words::WordsError;
use header_try::OpenError;
use nbd_hand::Refusal;

/// How a call ended. Each cause is a variant of its own.
#[derive(Clone, Copy, Debug, PartialEq, Eq)]
pub enum Status {
    /// All was done.
    Done,
    /// The arguments are no command of this call.
    Usage,
    /// No header of the kind is valid: a wrong password, or a damaged header.
    NoHeader,
    /// The password opens the outer volume, and no hidden header is valid.
    NoHidden,
    /// The container has this many bytes, fewer or more than a container may have.
    Length(u64),
    /// No container can have the asked size, or the asked sectors pass the volume's end.
    BadSize,
    /// The container failed.
    DiskFault,
    /// The output failed.
    OutFault,
    /// Out of memory.
    NoMemory,
    /// This client's input ended inside a request.
    ClientCut(u32),
    /// This client's request began with these four bytes, which are no magic.
    ClientMagic(u32, [u8; 4]),
    /// This client's input or output failed.
    ClientFault(u32),
    /// This client's handshake was refused.
    ClientHand(u32, Refusal),
}

impl Status {
    /// The program's exit status.
    pub fn code(&self) -> u8
        ensures { result ≡ code_of self.now }
    {
        match self {
            Status::Done => 0,
            Status::Usage => 2,
            Status::NoHeader => 3,
            Status::NoHidden => 4,
            Status::Length(_) => 5,
            Status::BadSize => 6,
            Status::DiskFault => 7,
            Status::OutFault => 8,
            Status::NoMemory => 9,
            Status::ClientCut(_) => 10,
            Status::ClientMagic(_, _) => 11,
            Status::ClientFault(_) => 12,
            Status::ClientHand(_, _) => 13,
        }
    }
}

impl From<WordsError> for Status {
    ghost from_gives = { λ e s. s ≡ words_status e };

    fn from(error: WordsError) -> Status {
        match error {
            WordsError::Usage => Status::Usage,
            WordsError::NoMemory => Status::NoMemory,
        }
    }
}

impl From<OpenError> for Status {
    ghost from_gives = { λ e s. s ≡ open_status e };

    fn from(error: OpenError) -> Status {
        match error {
            OpenError::Length(len) => Status::Length(len),
            OpenError::NoHeader => Status::NoHeader,
            OpenError::ReadFault => Status::DiskFault,
            OpenError::NoMemory => Status::NoMemory,
        }
    }
}

impl From<WorkError> for Status {
    ghost from_gives = { λ e s. s ≡ work_status e };

    fn from(error: WorkError) -> Status {
        match error {
            WorkError::DiskFault => Status::DiskFault,
            WorkError::OutFault => Status::OutFault,
            WorkError::NoMemory => Status::NoMemory,
        }
    }
}
