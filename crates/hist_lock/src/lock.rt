//! The lock itself, as `new` makes it and `close` ends it.
ghost use Rattle.std.specs.Prelude.{◌≡◌};

use crate::view::{Law, View};
use atomic_table::Table;
use hist_standing::Standing;
use std::alloc::Global;
use std::snapshot::Snapshot;
use std::sync::atomic::AtomicU64;

/// One value that threads use in turns. In proofs alone it has one history, in which each turn adds its entries.
#[derive(Drop)]
pub struct HistLock<T: Standing> {
    pub(crate) table: Table<Option<T>, View<T, T::Entry>, Snapshot<T>, Law, Global>,
    /// 1 if a thread may sleep that nobody was sent to wake. No clause rests on it.
    pub(crate) asleep: AtomicU64,
    /// How often a thread looks at the lock before it sleeps.
    pub(crate) spins: u32,
    ghost words: { table.shared.table_id.words ≡ 3 },
    ghost slots: { table.shared.table_id.slots ≡ 1 },
}
