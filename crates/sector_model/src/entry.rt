//! The entries of a history.
use std::collections::LinkedList;

/// A failed call of the store: the store's count of faults before and after it.
#[derive(Clone, Copy, Debug, PartialEq, Eq)]
pub struct FaultMark {
    pub before: u64,
    pub after: u64,
}

/// What a request did or was told. Ranges are in sectors, given by the first one and either their count
/// or the data of whole sectors. No value of this type has to be made: contracts alone name entries.
#[derive(Debug, Drop)]
pub enum Event {
    /// A read from this sector on gave this data.
    Read(u64, LinkedList<u8>),
    /// A write of this data from this sector on was admitted.
    Put(u64, LinkedList<u8>),
    /// All of the write was stored. First sector and count are those of its Put.
    Done(u64, u64),
    /// Fragments of the write failed: its sectors now hold this data. The list has the index and the
    /// mark of each failed fragment.
    Lost(u64, LinkedList<u8>, LinkedList<(u64, FaultMark)>),
    /// A write touched a protected sector. It was denied, and the volume is frozen from now on.
    Deny(u64, u64),
    /// A write was refused because the volume is frozen.
    Shut(u64, u64),
    /// A read or write passed the volume's end.
    Beyond(u64, u64),
    /// A read of this range failed, or a flush, which has first sector and count 0.
    Fail(u64, u64, FaultMark),
    /// A flush succeeded.
    Flush,
}

/// A line of a history: an event of request `number` of `caller`.
#[derive(Debug, Drop)]
pub struct Entry {
    pub caller: u64,
    pub number: u64,
    pub event: Event,
}
