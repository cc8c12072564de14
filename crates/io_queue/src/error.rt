//! Why a request wasn't served.
use sector_model::FaultMark;

/// Why a read, write or flush wasn't served. What a refusal leaves as it was, the calls say.
#[derive(Clone, Copy, Debug, PartialEq, Eq)]
pub enum IoError {
    /// It passes the volume's end. Nothing changed.
    Range,
    /// The write touches a protected sector, and is the first such write. Later writes are Frozen.
    Denied,
    /// A write was denied before. Nothing changed.
    Frozen,
    /// The store failed, with this mark. After a write some of its sectors have any bytes.
    Fault(FaultMark),
    /// Out of memory, before the write was admitted. Nothing changed.
    NoMemory,
}
