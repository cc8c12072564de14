//! What is in the way of opening a file, and what went wrong with an open one, for a person. No contract speaks
//! of it.
use std::fs::TryLockError;
use std::io;

/// What a file is opened for.
#[derive(Clone, Copy)]
pub enum Purpose {
    Reading,
    Writing,
    /// To make it if it is missing, and to write it.
    Making,
}

/// Why a file wasn't opened.
#[derive(Drop)]
pub enum Obstacle {
    /// It is no regular file.
    NotRegular,
    /// Another program has it open and may write to it, or reads it and it was to be written.
    Locked,
    /// It is the container, and was to be a client's file.
    Container,
    /// The system's reason.
    System(io::Error),
}

impl From<io::Error> for Obstacle {
    fn from(error: io::Error) -> Obstacle {
        Obstacle::System(error)
    }
}

impl From<TryLockError> for Obstacle {
    fn from(error: TryLockError) -> Obstacle {
        match error {
            TryLockError::WouldBlock => Obstacle::Locked,
            TryLockError::Error(error) => Obstacle::System(error),
        }
    }
}

/// A call that failed, and the system's reason.
#[derive(Drop)]
pub struct Trouble {
    pub call: &'static str,
    pub error: io::Error,
}
