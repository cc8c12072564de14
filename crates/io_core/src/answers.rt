//! What the events answer.
use crate::prepared::Prepared;
use sector_model::FaultMark;

/// What became of a write that asked for admission. A write that isn't admitted is handed back unchanged.
#[derive(Drop)]
pub enum Admit {
    /// It is pending.
    In,
    /// It touches a protected sector, and is the first such write. The volume is frozen from now on.
    Denied(Prepared),
    /// The volume was frozen before.
    Frozen(Prepared),
    /// A pending write overlaps it, or as many writes are pending as may be.
    Later(Prepared),
}

/// What became of a write that was to end.
#[derive(Drop)]
pub enum Close {
    /// A fragment is waiting. Nothing changed.
    Waiting,
    /// All of it was stored. Its data is handed back.
    Done(Vec<u8>),
    /// Each fragment was stored or failed: the mark of the first that failed.
    Lost(FaultMark),
}

/// What became of a fragment that was handed in.
#[derive(Clone, Copy, Debug, PartialEq, Eq)]
pub enum Deposit {
    Stored,
    /// The write to the store failed.
    Spoilt(FaultMark),
    /// No such fragment is waiting. Nothing changed.
    Stray,
}

/// What became of a read.
#[derive(Clone, Copy, Debug, PartialEq, Eq)]
pub enum Fetch {
    /// The buffer has what is stored.
    Got,
    /// A pending write overlaps it. Nothing changed.
    Later,
    /// The read of the store failed. The buffer has any bytes.
    Failed(FaultMark),
}
