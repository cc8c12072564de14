//! What a runner knows, and the table on which runners take their steps. It has one word and no slot.
use crate::names::Names;
use atomic_table::TableRule;

/// The index of the word.
pub(crate) const WORD: usize = 0;

/// What is fixed when a word is made: which numbers may be offered, and the number that it begins with.
#[derive(Drop)]
pub struct Key<R> {
    pub names: R,
    pub limit: u64,
}

/// What a runner knows. No value of it is made: it exists in clauses alone, where its numbers have no limit.
pub struct View<R> {
    /// False once the runner was ended by another one.
    pub live: bool,
    /// The key of its word.
    pub names: Option<R>,
    pub limit: u64,
    /// How many steps on the word it has taken.
    pub steps: u64,
    /// The word as its last step found it, and the limit before its first one.
    pub last: u64,
    /// The least number that it was told or has offered, and the limit before its first step.
    pub bound: u64,
}

/// The rule of the table.
pub struct Law;

impl<R: Names> TableRule<(), View<R>, Key<R>> for Law {
    ghost use Rattle.race_word.specs.Laws.Rule.{Kept};
    ghost use Rattle.race_word.specs.Known.{newcomer};

    ghost holds = { Kept R.names };

    ghost first = { newcomer };
}
