//! Why nothing was formatted.

/// Why no volume was formatted.
#[derive(Clone, Copy, Debug, PartialEq, Eq)]
pub enum FormatError {
    /// No container or hidden volume of the asked size is formatted. Nothing changed.
    BadSize,
    /// The container failed. After a format it holds nothing of use; of a container that was to get a hidden
    /// volume, only the two slots for its headers may have changed.
    WriteFault,
    /// Out of memory, for the container's length. Nothing changed.
    NoMemory,
}
