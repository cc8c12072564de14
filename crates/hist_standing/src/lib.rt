//! What it means that a value stands for a history.
//!
//! A lock that threads share keeps one value and, in proofs alone, one list of entries, its history.
//! `Standing` ties the two: it says for which opening state and which list of entries a value stands,
//! and under which caller's number an entry stands. The crate has no function, so that the crate of a
//! value's type can implement the trait and know nothing of the lock, which is in `hist_lock`.
#![tactic(auto)]

ghost use Rattle.std.specs.Prelude.{ℕ, List};

/// A value that stands for an opening state and a list of entries.
pub trait Standing {
    /// One line of a history. Contracts see entries; no value of this type has to be made.
    type Entry;

    /// For an opening state, the entries since then, oldest first, and a value: the value stands for them.
    ghost stands: { Self → List Self.Entry → Self → Type 0 };

    /// The number of the pass that is an entry's caller.
    ghost number: { Self.Entry → ℕ };
}
