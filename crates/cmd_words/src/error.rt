//! Why no command was read.

/// Why no command was read.
#[derive(Clone, Copy, Debug, PartialEq, Eq)]
pub enum WordsError {
    /// The arguments are not a valid command line.
    Usage,
    /// Out of memory.
    NoMemory,
}
