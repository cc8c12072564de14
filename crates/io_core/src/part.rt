//! The states of fragments.
use sector_model::FaultMark;

/// What became of a fragment.
#[derive(Clone, Copy, Debug, PartialEq, Eq)]
pub enum PartState {
    /// It wasn't stored yet.
    Waiting,
    Stored,
    /// Its write failed.
    Spoilt(FaultMark),
}
