//! Which slots are tried, and in which order.

/// Which slots are tried.
#[derive(Clone, Copy, Debug, PartialEq, Eq)]
pub enum Kind {
    /// The standard slot, then the hidden one.
    Any,
    StandardOnly,
    HiddenOnly,
    /// The standard backup slot, then the hidden one.
    AnyBackup,
    StandardBackup,
    HiddenBackup,
}
