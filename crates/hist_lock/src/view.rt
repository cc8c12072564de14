//! What a pass knows, and the table on which passes take their steps.
//!
//! ```text
//!   word 0  tickets   how many turns were drawn
//!   word 1  serving   the ticket whose turn it is; threads sleep on it
//!   word 2  numbers   how many numbers were given to passes
//!   slot 0            the value, or nothing while the holder of a turn has it
//! ```
use atomic_table::TableRule;
use hist_standing::Standing;
use std::collections::LinkedList;
use std::snapshot::Snapshot;

/// The word that counts tickets.
pub(crate) const TICKETS: usize = 0;

/// The word with the ticket that is served.
pub(crate) const SERVING: usize = 1;

/// The word that counts numbers.
pub(crate) const NUMBERS: usize = 2;

/// What a pass knows. No value of it is made: it exists in clauses alone, where its numbers have no limit.
pub struct View<T, E> {
    /// False once the lock was closed with the pass: it can't be used any more.
    pub live: bool,
    /// The share is `part / 2^halvings`.
    pub part: u64,
    pub halvings: u64,
    /// The opening state.
    pub base: Option<T>,
    /// A prefix of the one history.
    pub seen: LinkedList<E>,
    /// The pass's own entries.
    pub mine: LinkedList<E>,
    /// Its number.
    pub number: u64,
    /// The numbers of the ended passes that were joined into it.
    pub under: LinkedList<u64>,
    /// How many numbers are known to have been given.
    pub given: u64,
    /// A number that was drawn for a pass that isn't split yet.
    pub spare: LinkedList<u64>,
    /// It has drawn a ticket, and this one.
    pub drawn: bool,
    pub ticket: u64,
    /// It is its turn, and it has the value.
    pub holds: bool,
    /// What the last join found: what both passes had seen, and the numbers of both.
    pub met: Met<E>,
}

/// Two passes as they were when they were joined.
pub struct Met<E> {
    pub seen: LinkedList<E>,
    pub other_seen: LinkedList<E>,
    pub numbers: LinkedList<u64>,
    pub other_numbers: LinkedList<u64>,
}

/// The rule of the table.
pub struct Law;

impl<T: Standing> TableRule<Option<T>, View<T, T::Entry>, Snapshot<T>> for Law {
    ghost use Rattle.hist_lock.specs.Laws.Rule.{Kept};
    ghost use Rattle.hist_lock.specs.Known.{newcomer};

    ghost holds = { λ _. Kept T.stands T.number };

    ghost first = { λ key. newcomer key.value };
}
