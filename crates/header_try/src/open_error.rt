//! Why no header was opened.

/// Why no header was opened. The container's bytes are as before in each case.
#[derive(Clone, Copy, Debug, PartialEq, Eq)]
pub enum OpenError {
    /// The container has this many bytes, fewer or more than a container may have.
    Length(u64),
    /// No header of the kind is valid. A wrong password and a damaged header look the same.
    NoHeader,
    /// A read failed.
    ReadFault,
    /// Out of memory. Opening by one thread takes none.
    NoMemory,
}
