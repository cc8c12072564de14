//! Why no container was expanded.

/// Why a container wasn't expanded.
#[derive(Clone, Copy, Debug, PartialEq, Eq)]
pub enum ExpandError {
    /// The container can't get this size. Nothing changed.
    BadSize,
    /// The container failed. Its old header opens, or the new backup does.
    DiskFault,
    /// Out of memory, for the container's length. Nothing changed.
    NoMemory,
}
